//! Refusals as text, as scripts are answered.
ghost use Rattle.refusals.specs.Lines.{detail_text, refused_text, told_text};
ghost use Rattle.std.specs.Prelude.{Some};

use crate::refusal::{Detail, Refusal, Told};
use crate::words::word_text;
use std::fmt;

impl fmt::Display for Detail {
    ghost output = { λ d. Some (detail_text d) };

    fn fmt<W: fmt::Write>(&self, f: &mut fmt::Formatter<W>) -> fmt::Result {
        match self {
            Detail::Plain => Ok(()),
            Detail::Slack(least) => write!(f, " {least}"),
            Detail::Meeting(m) => write!(f, " {} {} {}", m.instant, m.held, m.place),
        }
    }
}

impl fmt::Display for Refusal {
    ghost output = { λ r. Some (refused_text r) };

    fn fmt<W: fmt::Write>(&self, f: &mut fmt::Formatter<W>) -> fmt::Result {
        let word = word_text(self.number);
        write!(f, "REFUSED {} {word}{}", self.number, self.detail)
    }
}

impl fmt::Display for Told {
    ghost output = { λ t. Some (told_text t) };

    fn fmt<W: fmt::Write>(&self, f: &mut fmt::Formatter<W>) -> fmt::Result {
        let refusal = self.refusal;
        let word = word_text(refusal.number);
        write!(
            f,
            "REFUSED {} {} {} {word}{}",
            self.section, self.record, refusal.number, refusal.detail
        )
    }
}
