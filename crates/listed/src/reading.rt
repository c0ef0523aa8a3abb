//! How the parts of a file are read: the head of a listed fabric, and a section of at most so many records.
ghost use Rattle.std.specs.Prelude.{◌≡◌, ◌*◌, ◌≤◌, length, IfOk};
ghost use Rattle.records.specs.Lent.{Gives};
ghost use Rattle.listed.specs.SetRecords.{SetRecords};
ghost use Rattle.listed.specs.Description.{head_fits, listed_head, section_read};

use super::SectionFault;
use records::head::{FabricKind, Head, HeadFault, read_head};
use records::record::Record;
use records::section::{Section, counted, cut};

// Whether a head is within the limits of a listed fabric.
fn fits(head: &Head) -> bool
    ensures { result ≡ head_fits head.now }
{
    1 <= head.x && head.x <= 64 && head.y == 1 && head.delay <= 64
}

// The head of a listed fabric, and what follows it.
pub(crate) fn read_listed_head(file: &[u8]) -> Result<(Head, &[u8]), HeadFault>
    ensures { Gives (λ p. (p.0, p.1.now)) result (listed_head file.now) }
{
    let (head, rest) = read_head(file)?;
    match head.kind {
        FabricKind::Mesh => Err(HeadFault::Version),
        FabricKind::Listed if fits(&head) => Ok((head, rest)),
        FabricKind::Listed => Err(HeadFault::Limits),
    }
}

/// A section of at most `limit` records, and what follows it. More records are refused before a section that is cut off.
pub fn read_section<'a, R: Record>(
    file: &'a [u8],
    limit: u16,
) -> Result<(Section<'a, R>, &'a [u8]), SectionFault>
    ensures answer { Gives (λ p. (p.0.bytes.now, p.1.now)) result (section_read R.SIZE limit file.now) }
    ensures few { IfOk result (λ p. length p.0.bytes.now ≤ limit * R.SIZE) }
{
    if counted(file).is_some_and(|n| n > limit) {
        return Err(SectionFault::Many);
    }
    cut(file).map_err(|off| SectionFault::Short(off.whole))
}

/// The links and routes of every fabric that a file sets are those of the file's records, and no others.
pub fn set_records_stand()
    ensures records { SetRecords }
{}
