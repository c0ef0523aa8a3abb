//! The parts of a line: its first words, and numbers between single spaces.
ghost use Rattle.script.specs.Fields.{after, field, number};
ghost use Rattle.std.specs.Option.{option_map};
ghost use Rattle.std.specs.Prelude.{◌≡◌, ℕ, ◌==◌, ◌≤◌, position, Some, None, MatchOption};

// What follows a fixed front.
pub(crate) fn after<'a>(front: &[u8], text: &'a [u8]) -> Option<&'a [u8]>
    ensures { MatchOption result (after front.now text.now ≡ None) (λ rest. after front.now text.now ≡ Some rest.now) }
{
    text.strip_prefix(front)
}

// A type of numbers that a field may have. `TryFrom<u64>` alone does not tell the largest value, which says what a field takes.
pub(crate) trait Unsigned: Sized {
    const MOST: u64;

    ghost MOST: { ℕ };

    ghost value: { Self → ℕ };

    fn of(n: u64) -> Self
        requires { n ≤ MOST }
        ensures { value result ≡ n };
}

impl Unsigned for u8 {
    const MOST: u64 = 0xff;

    ghost MOST = { 255 };

    ghost value = { λ n. n };

    fn of(n: u64) -> u8 {
        n as u8
    }
}

impl Unsigned for u16 {
    const MOST: u64 = 0xffff;

    ghost MOST = { 65535 };

    ghost value = { λ n. n };

    fn of(n: u64) -> u16 {
        n as u16
    }
}

impl Unsigned for u32 {
    const MOST: u64 = 0xffff_ffff;

    ghost MOST = { 4294967295 };

    ghost value = { λ n. n };

    fn of(n: u64) -> u32 {
        n as u32
    }
}

impl Unsigned for u64 {
    const MOST: u64 = 0xffff_ffff_ffff_ffff;

    ghost MOST = { 18446744073709551615 };

    ghost value = { λ n. n };

    fn of(n: u64) -> u64 {
        n
    }
}

// The number that the decimal digits of a text write, if it is at most `most`. std's `parse` would take a sign too.
fn value_of(text: &[u8], most: u64) -> Option<u64>
    ensures value { result ≡ number most text.now }
    ensures bound { MatchOption result (Unit {0}) (λ n. n ≤ most) }
{
    if text.is_empty() {
        return None;
    }
    let mut value = 0u64;
    for b in text {
        let digit = char::from(*b).to_digit(10)?;
        let next = value as u128 * 10 + digit as u128;
        if next > most as u128 {
            return None;
        }
        value = next as u64;
    }
    Some(value)
}

// The number that a whole text writes, if it is one of the type.
pub(crate) fn number<N: Unsigned>(text: &[u8]) -> Option<N>
    ensures { option_map N.value result ≡ number N.MOST text.now }
{
    Some(N::of(value_of(text, N::MOST)?))
}

// Where the first space stands.
fn space(text: &[u8]) -> Option<usize>
    ensures { result ≡ position (λ b. b == 32) text.now }
{
    text.iter().position(|b| *b == b' ')
}

// The number before the first space, and what follows that space.
pub(crate) fn field<N: Unsigned>(text: &[u8]) -> Option<(N, &[u8])>
    ensures { MatchOption result (field N.MOST text.now ≡ None) (λ p. field N.MOST text.now ≡ Some (N.value p.0, p.1.now)) }
{
    let end = space(text)?;
    Some((number(&text[..end])?, &text[end + 1..]))
}
