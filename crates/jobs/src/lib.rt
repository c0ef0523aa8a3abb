//! What a plan holds, and why an offer is refused: tasks on cores, messages between them, the places that they take and when.
#![tactic(auto)]

ghost use Rattle.jobs.specs.Stand.{ClaimsRoute, FlowEven, PacketHolds, SlackFormula, TaskHolds, TravelEven};

pub mod fault;
mod held;
pub mod holder;
pub mod job;
pub mod meeting;
pub mod message;
pub mod open;
pub mod place;
pub mod placing;
pub mod routing;
mod stay;
pub mod task;
pub mod way;

/// The words of time in the numbers of tasks, messages and fabrics; and within the limits of tasks and messages the rules pass nothing over.
pub fn rules_stand()
    ensures tasks { TaskHolds }
    ensures route { ClaimsRoute }
    ensures packets { PacketHolds }
    ensures travel { TravelEven }
    ensures flow { FlowEven }
    ensures slack { SlackFormula }
{}
