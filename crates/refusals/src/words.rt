//! The words of the refusals, kept in constant memory and padded to eight bytes with spaces; docs/REFUSALS.md names them. A number
//! is a literal where its fault is told, since a line may be asked for with any byte.
ghost use Rattle.std.specs.Prelude.{◌≡◌, ◌≤◌, length};
ghost use Rattle.refusals.specs.Words.{word_of};

static WORDS: [[u8; 8]; 27] = [
    *b"SHORT   ",
    *b"VERSION ",
    *b"HEAD    ",
    *b"COUNT   ",
    *b"LINK    ",
    *b"ROUTE   ",
    *b"CHAIN   ",
    *b"ORDER   ",
    *b"NAME    ",
    *b"CORE    ",
    *b"TIMES   ",
    *b"FULL    ",
    *b"MEETS   ",
    *b"NAME    ",
    *b"ENDS    ",
    *b"TIMES   ",
    *b"NOROUTE ",
    *b"FULL    ",
    *b"LATE    ",
    *b"MEETS   ",
    *b"UNKNOWN ",
    *b"INUSE   ",
    *b"NOFIT   ",
    *b"RECORD  ",
    *b"EXTRA   ",
    *b"PLACE   ",
    *b"BUFFER  ",
];

/// The word of a refusal, and no bytes for a number that is none of 1 to 27.
pub fn word(number: u8) -> &'static [u8]
    ensures value { result.now ≡ word_of number }
    ensures bound { length result.now ≤ 8 }
{
    match number {
        1..=27 => WORDS[number as usize - 1].trim_ascii_end(),
        _ => &[],
    }
}

// The same as text.
pub(crate) fn word_text(number: u8) -> &'static str
    ensures { result.now ≡ word_of number }
{
    str::from_utf8(word(number)).unwrap_or("")
}
