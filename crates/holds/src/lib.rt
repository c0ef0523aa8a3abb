//! Periodic holds of one place over instants of unbounded time: whether two meet and where first, which run holds an instant,
//! and the least slack of packets that a periodic reader reads.
#![tactic(auto)]

ghost use Rattle.holds.specs.First.{MeetingIsFirst, MeetingBound};
ghost use Rattle.holds.specs.Gcd.{GcdIsGreatest, QuotientWhole};
ghost use Rattle.holds.specs.Slack.{AlwaysRead, LeastWhole, SlackIsLeast};
ghost use Rattle.holds.specs.Span.{GapIsDifference, PairTest};

mod deliveries;
mod divisor;
mod hold;
mod landing;
mod meeting;
mod run;
mod slack;
mod wait;

pub use deliveries::Deliveries;
pub use hold::Hold;
pub use meeting::{clear, first_meeting};
pub use run::run_at;
pub use slack::least_slack;
pub use wait::least_wait;

// The latest first start, arrival and due instant.
const LATEST: u64 = 1 << 62;

// The longest period.
const LONGEST: u32 = 255 * 65_536;

/// The formulas say what the instants say: each clause is a theorem of specs/, over all of time.
pub fn formulas_stand()
    ensures divisor { GcdIsGreatest }
    ensures quotient { QuotientWhole }
    ensures pair { PairTest }
    ensures difference { GapIsDifference }
    ensures meeting { MeetingIsFirst }
    ensures bound { MeetingBound }
    ensures read { AlwaysRead }
    ensures slack { SlackIsLeast }
    ensures whole { LeastWhole }
{}

#[cfg(test)]
mod tests {
    use super::*;

    fn meeting(start: u64, period: u32, width: u32) -> Option<u64> {
        first_meeting(Hold::new(0, 4, 1)?, Hold::new(start, period, width)?)
    }

    fn wait(start: u64, period: u32) -> Option<u32> {
        least_wait(Hold::new(start, period, 2)?, Hold::new(3, 10, 3)?)
    }

    fn slack(arrival: u64, due: u64) -> Option<i64> {
        Some(least_slack(Deliveries::new(arrival, due, 20)?, Hold::new(5, 8, 1)?))
    }

    #[test]
    fn meetings(rt: HostRuntime) {
        assert_eq!(rt; meeting(1, 6, 1), None);
        assert_eq!(rt; meeting(2, 6, 1), Some(8));
        assert_eq!(rt; meeting(1, 9, 1), Some(28));
        assert_eq!(rt;
            meeting(4_611_686_018_427_387_903, 9, 1),
            Some(4_611_686_018_427_387_912)
        );
    }

    #[test]
    fn waits(rt: HostRuntime) {
        assert_eq!(rt; wait(6, 10), Some(0));
        assert_eq!(rt; wait(4, 10), Some(2));
        assert_eq!(rt; wait(12, 10), Some(4));
        assert_eq!(rt; wait(6, 14), None);
    }

    #[test]
    fn slacks(rt: HostRuntime) {
        assert_eq!(rt; slack(9, 0), Some(-8));
        assert_eq!(rt; slack(9, 20), Some(12));
    }
}
