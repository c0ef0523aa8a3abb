//! Lists of calls on a new plan over any fabric, and their answers.
#![tactic(auto)]

ghost use Rattle.jobs.specs.Jobs.{nothing, created_on};
ghost use Rattle.plan.specs.Held.{SameSetting, jobs, setting};
ghost use Rattle.plan.specs.Round.{LoadsBack};
ghost use Rattle.promise.specs.Canonical.{Canonical, ShortNames};
ghost use Rattle.promise.specs.Clean.{Clean};
ghost use Rattle.refusals.specs.Written.{written};
ghost use Rattle.replay.specs.Calls.{all_said, answer_told, ask, asked, bytes_given, giving, held, keeps_plan, new_answers, new_refusals, read_off};
ghost use Rattle.replay.specs.Promise.{After, EachCall, MainPromise, Promise, Promised};
ghost use Rattle.std.specs.Prelude.{◌≡◌, ℕ, true, [], ◌∷◌, ◌++◌, length, map, take, vec_items, IfOk};

use fabric::Fabric;
use plan::Plan;
use plan::plan::LONGEST_PART;
use std::alloc::{AllocError, Global};

pub mod calls;
mod fits;

use calls::{Answer, Call};
use fits::{call_fits, calls_fit};

// The method of the plan that a call asks for.
fn dispatch<F: Fabric>(
    plan: &mut Plan<'_, F>,
    call: &Call<&[u8]>,
    page: &mut [u8; LONGEST_PART],
) -> Answer<usize>
    ensures answer { result ≡ giving length (ask (setting plan.old) (jobs plan.old) (asked call.now)).0 }
    ensures page { page.new ≡ written page.old 0 (bytes_given (ask (setting plan.old) (jobs plan.old) (asked call.now)).0) }
    ensures after { jobs plan.new ≡ (ask (setting plan.old) (jobs plan.old) (asked call.now)).1 }
    ensures alike { SameSetting plan.old plan.new }
    ensures unchanged { keeps_plan result ≡ true → plan.new ≡ plan.old }
{
    match *call {
        Call::OfferTask(t) => Answer::TaskOffered(plan.offer_task(t)),
        Call::OfferMessage(m) => Answer::MessageOffered(plan.offer_message(m)),
        Call::PlaceTask(t) => Answer::TaskPlaced(plan.place_task(t)),
        Call::PlaceMessage(m) => Answer::MessagePlaced(plan.place_message(m)),
        Call::DropTask(name) => Answer::Dropped(plan.drop_task(name)),
        Call::DropMessage(name) => Answer::Dropped(plan.drop_message(name)),
        Call::Load(part) => Answer::Loaded(plan.load(part)),
        Call::Slack(name) => Answer::Slack(plan.slack(name)),
        Call::CoreHolder { core, instant } => Answer::Holder(plan.core_holder(core, instant)),
        Call::LinkHolder { link, instant } => Answer::Holder(plan.link_holder(link, instant)),
        Call::Write { room } => Answer::Written(plan.write(&mut page[..room.min(LONGEST_PART)])),
    }
}

/// Runs one call on a plan. It needs no memory but the plan's and the page, to the front of which a write goes. The plan is clean over its
/// fabric after it, the call is answered as promised, and what is held then is what its answer says.
pub fn step<F: Fabric>(
    plan: &mut Plan<'_, F>,
    call: &Call<&[u8]>,
    page: &mut [u8; LONGEST_PART],
) -> Answer<usize>
    ensures answer { result ≡ giving length (ask (setting plan.old) (jobs plan.old) (asked call.now)).0 }
    ensures page { page.new ≡ written page.old 0 (bytes_given (ask (setting plan.old) (jobs plan.old) (asked call.now)).0) }
    ensures after { jobs plan.new ≡ (ask (setting plan.old) (jobs plan.old) (asked call.now)).1 }
    ensures alike { SameSetting plan.old plan.new }
    ensures unchanged { keeps_plan result ≡ true → plan.new ≡ plan.old }
    ensures keeps { Clean (setting plan.new) (jobs plan.new) }
    ensures promise { Promised (setting plan.old) (jobs plan.old) (asked call.now) (read_off page.new result) }
    ensures numbers { answer_told result ≡ answer_told (ask (setting plan.old) (jobs plan.old) (asked call.now)).0 }
    ensures left { After (setting plan.old) (jobs plan.old) (asked call.now) (read_off page.new result) (jobs plan.new) }
    ensures canonical { Canonical (jobs plan.new) }
    ensures short { ShortNames (jobs plan.new) }
    ensures back { LoadsBack (setting plan.new) (jobs plan.new) }
{
    dispatch(plan, call, page)
}

/// The answer to a call with bytes of its own, which a write left at the front of the page.
pub fn owned(
    heap: Global,
    answer: Answer<usize>,
    page: &[u8],
) -> Result<Answer<Vec<u8>>, AllocError>
    ensures { IfOk result (λ r. giving vec_items r ≡ read_off page.now answer) }
{
    let length = answer.length().min(page.len());
    let bytes = page[..length].to_vec(heap)?;
    Ok(answer.giving(bytes))
}

// The answers with one more, where there is memory for it.
fn with_answer(
    heap: Global,
    mut answers: Vec<Answer<Vec<u8>>>,
    told: Answer<usize>,
    page: &[u8],
) -> Result<Vec<Answer<Vec<u8>>>, AllocError>
    ensures { IfOk result (λ v. all_said v.items ≡ all_said answers.items ++ (read_off page.now told ∷ [])) }
{
    let answer = owned(heap, told, page)?;
    answers.push(answer)?;
    Ok(answers)
}

/// A new plan over the fabric after a list of calls, and what they answered where there is memory for the answers; the plan itself
/// asks for none. The job part of what is held after any of the calls loads back.
pub fn replay<'f, F: Fabric>(
    heap: Global,
    fabric: &'f F,
    calls: &[Call<&[u8]>],
) -> (Plan<'f, F>, Result<Vec<Answer<Vec<u8>>>, AllocError>)
    ensures answers { IfOk result.1 (λ v. all_said v.items ≡ new_answers (created_on (F.meaning fabric.now)) calls.now) }
    ensures numbers { IfOk result.1 (λ v. map answer_told v.items ≡ new_refusals (created_on (F.meaning fabric.now)) calls.now) }
    ensures held { jobs result.0 ≡ held (created_on (F.meaning fabric.now)) nothing (map asked calls.now) }
    ensures fabric { setting result.0 ≡ created_on (F.meaning fabric.now) }
    ensures clean { Clean (created_on (F.meaning fabric.now)) (jobs result.0) }
    ensures back { let s = created_on (F.meaning fabric.now) in (i : ℕ) → LoadsBack s (held s nothing (take i (map asked calls.now))) }
    ensures promise { Promise (created_on (F.meaning fabric.now)) (map asked calls.now) }
{
    calls_fit(calls);
    let mut answers = Ok(Vec::new(heap));
    let mut plan = Plan::new(fabric);
    let mut page = [0; LONGEST_PART];
    // each call is run, also where an answer before it found no memory
    for call in calls {
        let told = step(&mut plan, call, &mut page);
        answers = match answers {
            Ok(answers) => with_answer(heap, answers, told, &page),
            Err(no_memory) => Err(no_memory),
        };
    }
    (plan, answers)
}

/// Over every lawful network: a call on any clean plan in ascending names within its room is answered as promised, leaves held what its answer says, and keeps the plan
/// clean; and after every list of calls on a new plan the plan is clean for all of time, and each call of the list was so answered.
pub fn promise_stands()
    ensures call { EachCall }
    ensures promise { MainPromise }
{}
