//! The verdict line, written into the caller's buffer.
ghost use Rattle.std.specs.Prelude.{◌≡◌, ◌+◌, ◌≤◌, length, IfOk, if◌then◌else◌, Ok, Err, nat_lt};
ghost use Rattle.refusals.specs.Lines.{line_text, detail_text, too_short};
ghost use Rattle.refusals.specs.Written.{Puts, written};

use crate::pen::Pen;
use crate::refusal::{BufferFault, Counts, Detail, Told};
use crate::words::word;

/// No line is longer, so a buffer of this length takes any.
pub const LONGEST_LINE: usize = 64;

impl Pen<'_> {
    fn put_clear(&mut self, counts: Counts)
        requires { self.old.at + 64 ≤ length self.old.out.now }
        ensures puts { Puts self.old self.new (line_text (Ok counts)) }
        ensures bound { self.new.at ≤ self.old.at + 64 }
    {
        self.put(b"CLEAR ");
        self.put_number(counts.tasks);
        self.put(b" ");
        self.put_number(counts.messages);
        self.put(b"\n");
    }

    fn put_detail(&mut self, detail: Detail)
        requires { self.old.at + 33 ≤ length self.old.out.now }
        ensures puts { Puts self.old self.new (detail_text detail) }
        ensures bound { self.new.at ≤ self.old.at + 33 }
    {
        match detail {
            Detail::Plain => {}
            Detail::Slack(z) => {
                self.put(b" ");
                self.put_number(z);
            }
            Detail::Meeting(meeting) => {
                self.put(b" ");
                self.put_number(meeting.instant);
                self.put(b" ");
                self.put_number(meeting.held);
                self.put(b" ");
                self.put_number(meeting.place);
            }
        }
    }

    fn put_refused(&mut self, told: Told)
        requires { self.old.at + 64 ≤ length self.old.out.now }
        ensures puts { Puts self.old self.new (line_text (Err told)) }
        ensures bound { self.new.at ≤ self.old.at + 64 }
    {
        self.put(b"REFUSED ");
        self.put_number(told.section);
        self.put(b" ");
        self.put_number(told.record);
        self.put(b" ");
        self.put_number(told.refusal.number);
        self.put(b" ");
        self.put(word(told.refusal.number));
        self.put_detail(told.refusal.detail);
        self.put(b"\n");
    }
}

/// Writes the line of a verdict, the counts of tasks and messages or what is refused, to the start of the buffer and answers its
/// length; bytes beyond it stay. A buffer of fewer than [`LONGEST_LINE`] bytes is refused whatever the line, and stays.
pub fn write_line(out: &mut [u8], verdict: Result<Counts, Told>) -> Result<usize, BufferFault>
    ensures answer { result ≡ (if nat_lt (length out.old) 64 then Err too_short else Ok (length (line_text verdict))) }
    ensures buffer { out.new ≡ (if nat_lt (length out.old) 64 then out.old else written out.old 0 (line_text verdict)) }
    ensures bound { IfOk result (λ n. n ≤ 64) }
{
    if out.len() < LONGEST_LINE {
        return Err(BufferFault);
    }
    let mut pen = Pen { out, at: 0 };
    match verdict {
        Ok(counts) => pen.put_clear(counts),
        Err(told) => pen.put_refused(told),
    }
    Ok(pen.at)
}

#[cfg(test)]
mod tests {
    use super::*;
    use crate::refusal::{Meeting, Refusal};

    fn two_one() -> Result<Counts, Told> {
        Ok(Counts {
            tasks: 2,
            messages: 1,
        })
    }

    #[test]
    fn lines(rt: HostRuntime) {
        let mut out = [7u8; 64];
        assert_eq!(rt; write_line(&mut out, two_one()), Ok(10));
        assert_eq!(rt; &out[0..10], b"CLEAR 2 1\n".as_slice());
        assert_eq!(rt; &out[10..64], [7u8; 54].as_slice());
        let late = Err(Told {
            section: 4,
            record: 0,
            refusal: Refusal {
                number: 19,
                detail: Detail::Slack(-1),
            },
        });
        assert_eq!(rt; write_line(&mut out, late), Ok(23));
        assert_eq!(rt; &out[0..23], b"REFUSED 4 0 19 LATE -1\n".as_slice());
    }

    #[test]
    fn longest(rt: HostRuntime) {
        let mut out = [7u8; 64];
        let meets = Err(Told {
            section: 255,
            record: 65535,
            refusal: Refusal {
                number: 20,
                detail: Detail::Meeting(Meeting {
                    instant: 18446744073709551615,
                    held: 65535,
                    place: 65535,
                }),
            },
        });
        assert_eq!(rt; write_line(&mut out, meets), Ok(60));
        assert_eq!(rt;
            &out[0..60],
            b"REFUSED 255 65535 20 MEETS 18446744073709551615 65535 65535\n".as_slice()
        );
    }

    #[test]
    fn short_buffer(rt: HostRuntime) {
        let mut out = [7u8; 63];
        assert_eq!(rt; write_line(&mut out, two_one()), Err(BufferFault));
        assert_eq!(rt; out.as_slice(), [7u8; 63].as_slice());
    }
}
