//! A buffer that texts and decimal numbers are written into one after the other.
// toolchain: the contract of `write!` into an `ArrayString` does not tell that it answers `Ok` where the text fits
ghost use Rattle.std.specs.Prelude.{◌≡◌, ◌+◌, ◌≤◌, length};
ghost use Rattle.refusals.specs.Written.{Puts};

use itoa::{Buffer, Integer};

// The buffer, and where its next text begins.
#[derive(Drop)]
pub(crate) struct Pen<'a> {
    pub(crate) out: &'a mut [u8],
    pub(crate) at: usize,
}

impl Pen<'_> {
    pub(crate) fn put(&mut self, text: &[u8])
        requires { self.old.at + length text.now ≤ length self.old.out.now }
        ensures puts { Puts self.old self.new text.now }
    {
        let end = self.at + text.len();
        self.out[self.at..end].copy_from_slice(text);
        self.at = end;
    }

    pub(crate) fn put_number<I: Integer>(&mut self, n: I)
        requires { self.old.at + I.MAX_STR_LEN ≤ length self.old.out.now }
        ensures puts { Puts self.old self.new (I.text n) }
        ensures bound { self.new.at ≤ self.old.at + I.MAX_STR_LEN }
    {
        self.put(Buffer::new().format(n).as_bytes());
    }
}
