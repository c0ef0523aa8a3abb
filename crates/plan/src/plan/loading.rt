//! Offers of jobs of either kind, and loads of job parts.
ghost use Rattle.jobs.specs.Numbers.{job_told};
ghost use Rattle.jobs.specs.Offered.{offer};
ghost use Rattle.plan.specs.After.{Leaves};
ghost use Rattle.plan.specs.Follows.{Follows};
ghost use Rattle.plan.specs.Held.{jobs, setting};
ghost use Rattle.plan.specs.Loading.{load};
ghost use Rattle.plan.specs.Loads.{JobAnswer, JobMore, LoadLeft, LoadAnswer, load_tries};
ghost use Rattle.plan.specs.Told.{load_told};
ghost use Rattle.plan.specs.declared.fault.LayoutFault.{LayoutFault};
ghost use Rattle.plan.specs.declared.fault.LoadFault.TheVariants.{Layout};
ghost use Rattle.promise.specs.Clean.{Clean};
ghost use Rattle.std.specs.Prelude.{◌≡◌, Err, false, is_ok};

use super::Plan;
use crate::fault::LoadFault;
use crate::layout::layout;
use fabric::Fabric;
use jobs::job::{Job, JobFault};
use refusals::refusal::Counts;

impl<'f, F: Fabric> Plan<'f, F> {
    /// Holds a job of either kind where no check refuses it. Refused with 9 to 20; the plan then stays as it was.
    pub fn offer(&mut self, job: Job) -> Result<(), JobFault>
        ensures follows { Follows self.old self.new result job_told (offer (setting self.old) (jobs self.old) job) }
        ensures refused { is_ok result ≡ false → self.new ≡ self.old }
        ensures promise { JobAnswer (setting self.old) (jobs self.old) job result }
        ensures left { Leaves (jobs self.old) (λ _. JobMore (jobs self.old) job) result (jobs self.new) }
        ensures clean { Clean (setting self.new) (jobs self.new) }
    {
        match job {
            Job::Task(t) => self.offer_task(t).map_err(JobFault::Task),
            Job::Message(m) => self.offer_message(m).map_err(JobFault::Message),
        }
    }

    /// Loads a job part: the layout first, then the offers of its records in turn, tasks before messages. Answers how many tasks and
    /// messages it took. Refused with 1, 24 or 25 where the layout is at fault; the plan then stays as it was. A load that is refused
    /// at an offer, with 9 to 20, keeps the jobs of the records before it and tries none behind.
    pub fn load(&mut self, part: &[u8]) -> Result<Counts, LoadFault>
        ensures follows { Follows self.old self.new result load_told (load (setting self.old) (jobs self.old) part.now) }
        ensures refused { (e : LayoutFault) → result ≡ Err (Layout e) → self.new ≡ self.old }
        ensures promise { LoadAnswer (setting self.old) (jobs self.old) part.now result }
        ensures left { LoadLeft (load_tries (setting self.old) (jobs self.old) part.now) (jobs self.old) (jobs self.new) }
        ensures clean { Clean (setting self.new) (jobs self.new) }
    {
        let job_part = layout(part)?;
        // toolchain: a loop, since after `try_for_each` nothing is known of a plan that its closure changed
        for at in 0..job_part.len() {
            if let Some(job) = job_part.job(at) {
                let place = job_part.place(at);
                self.offer(job).map_err(|fault| (place, fault))?;
            }
        }
        Ok(job_part.counts())
    }
}
