//! Sections of records, read from lent bytes and written into them.
ghost use Rattle.std.specs.List.{flat_map};
ghost use Rattle.std.specs.Prelude.{◌≡◌, ◌*◌, ◌/◌, length, Ok, Err, MatchResult};
ghost use Rattle.records.specs.Sections.{count_of, cut_of, length_written, record_at, section_records, section_written};
ghost use Rattle.std.specs.Result.{result_err};

use crate::record::Record;
use std::marker::PhantomData;
use thiserror::Error;

/// The records of one kind that lie one after the other in lent bytes.
#[derive(Drop)]
pub struct Section<'a, R: Record> {
    pub bytes: &'a [u8],
    pub kind: PhantomData<R>,
}

impl<'a, R: Record> Section<'a, R> {
    /// The section that some bytes are: whole records, and what is left over is none.
    pub fn over(bytes: &'a [u8]) -> Section<'a, R>
        ensures { result.bytes.now ≡ bytes.now }
    {
        Section {
            bytes,
            kind: PhantomData,
        }
    }

    /// How many whole records there are.
    pub fn count(&self) -> usize
        ensures { result ≡ length self.now.bytes.now / R.SIZE }
    {
        self.bytes.len() / R::SIZE
    }

    /// The record at an index, or none past the end or where the bytes are no record.
    pub fn get(&self, i: usize) -> Option<R>
        ensures { result ≡ record_at R.parsed R.SIZE self.now.bytes.now i }
    {
        if i >= self.count() {
            return None;
        }
        let each = R::SIZE;
        let at = i * each;
        R::read(&self.bytes[at..at + each])
    }
}

impl<'a, R: Record + Drop> Section<'a, R> {
    /// The index of the first record whose bytes are no record of the kind.
    pub fn unread(&self) -> Option<usize>
        ensures { result ≡ result_err (section_records R.parsed R.SIZE self.now.bytes.now) }
    {
        (0..self.count()).find(|i| self.get(*i).is_none())
    }
}

/// The file is cut off after so many whole records.
#[derive(Clone, Copy, PartialEq, Eq, Debug, Error)]
#[error("cut off after {whole} whole records")]
pub struct CutOff {
    pub whole: usize,
}

/// The count at the front of a file, or none where it is cut off.
pub fn counted(file: &[u8]) -> Option<u16>
    ensures { result ≡ count_of file.now }
{
    let [high, low, ..] = file else {
        return None;
    };
    Some(u16::from_be_bytes([*high, *low]))
}

/// The section at the front of a file, and the rest; or how many whole records there are, where they are fewer than it counts.
pub fn cut<'a, R: Record>(file: &'a [u8]) -> Result<(Section<'a, R>, &'a [u8]), CutOff>
    ensures { MatchResult result (λ p. cut_of R.SIZE file.now ≡ Ok (p.0.bytes.now, p.1.now)) (λ e. cut_of R.SIZE file.now ≡ Err e.whole) }
{
    let n = counted(file).ok_or(CutOff { whole: 0 })? as usize;
    let body = &file[2..];
    let each = R::SIZE;
    let fit = body.len() / each;
    if fit < n {
        return Err(CutOff { whole: fit });
    }
    let (records, rest) = body.split_at(n * each);
    Ok((Section::over(records), rest))
}

// Writes records one after the other over bytes of exactly their size.
fn write_records<R: Record>(out: &mut [u8], records: &[R])
    requires { length out.old ≡ length records.now * R.SIZE }
    ensures { out.new ≡ flat_map R.form records.now }
{
    for (i, x) in records.iter().enumerate() {
        let from = i * R::SIZE;
        x.write(&mut out[from..from + R::SIZE]);
    }
}

/// Writes the section of some records to the start of a buffer and answers its length; bytes beyond it stay. Where the buffer is
/// shorter, or two bytes cannot count the records, it is none, and the buffer stays.
pub fn write_section<R: Record>(out: &mut [u8], records: &[R]) -> Option<usize>
    ensures answer { result ≡ length_written R.form records.now (length out.old) }
    ensures bytes { out.new ≡ section_written R.form records.now out.old }
{
    let count = u16::try_from(records.len()).ok()?;
    let room = out.len().checked_sub(2)?;
    if room / R::SIZE < records.len() {
        return None;
    }
    let end = 2 + records.len() * R::SIZE;
    out[..2].copy_from_slice(&count.to_be_bytes());
    write_records(&mut out[2..end], records);
    Some(end)
}
