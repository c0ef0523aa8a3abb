//! What a clean plan is, by the instants of all time, and that every call keeps it so: the laws of offers, placings, droppings and
//! questions.
#![tactic(auto)]

ghost use Rattle.jobs.specs.Jobs.{Setting, nothing};
ghost use Rattle.promise.specs.Clean.{Clean};
ghost use Rattle.promise.specs.Used.{MessageUses, TaskUses, TripTasks};

/// A new plan is clean; and which run or packet has which place when is as the numbers of jobs and fabrics have it.
pub fn plans_stand()
    ensures clean { (g : Setting) → Clean g nothing }
    ensures tasks { TaskUses }
    ensures messages { MessageUses }
    ensures trips { TripTasks }
{}
