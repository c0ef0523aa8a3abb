//! How much time a periodic reader leaves for packets to arrive.
ghost use Rattle.holds.specs.Held.{flow, span};
ghost use Rattle.holds.specs.Slack.{LeastSlack, least_slack};
ghost use Rattle.std.specs.Prelude.{◌≡◌};

use super::deliveries::Deliveries;
use super::divisor::{gap, gcd};
use super::hold::Hold;

/// The least slack over all packets: the start of the run that reads a packet less the packet's arrival.
#[tactic(auto, using(crate::proofs::Residue::gap_in_gcd))]
pub fn least_slack(packets: Deliveries, reader: Hold) -> i64
    ensures value { result ≡ least_slack (flow packets) (span reader) }
    ensures least { LeastSlack (flow packets) (span reader) result }
{
    let g = gcd(packets.period, reader.period);
    let read = packets.due + gap(packets.due, reader.start, g);
    read as i64 - packets.arrival as i64
}
