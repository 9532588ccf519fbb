// A scheduler is opened, and any list of calls is made.
ghost use Rattle.std.specs.Prelude.{IfOk};
ghost use Rattle.scheduler.specs.Seen.{OpenedOver};
ghost use Rattle.history.specs.Ran.{RanOver};

use records::refusal::Refusal;
use records::request::Request;
use scheduler::reply::Reply;
use scheduler::rule::LockRule;
use scheduler::scheduler::Scheduler;
use std::alloc::{AllocError, Global};
use store::store::Store;

/// The answers of a run, and the scheduler after it.
#[derive(Drop)]
pub struct Finished<S: Store, R: LockRule> {
    pub answers: Vec<Result<Reply, Refusal>>,
    pub scheduler: Scheduler<S, R>,
}

/// Opens a scheduler over the store and the rule, and makes the calls one after another. The memory for the answers is
/// taken first: where there is none, no call is made.
pub fn run<S: Store + Drop, R: LockRule + Drop>(
    heap: Global,
    store: S,
    rule: R,
    calls: &[Request],
) -> Result<Finished<S, R>, AllocError>
    ensures ran { IfOk result (λ f. RanOver S.Store R.LockRule store rule calls.now f.answers.items f.scheduler) }
    ensures same { IfOk result (λ f. OpenedOver S.Store R.LockRule store rule f.scheduler) }
{
    let mut answers = Vec::with_capacity(heap, calls.len())?;
    let mut scheduler = Scheduler::open(store, rule);
    // A loop, since a closure would change the scheduler that it captures, and nothing would be known of it.
    for call in calls {
        let answer = scheduler.call(*call);
        answers.push_reserved(answer);
    }
    Ok(Finished { answers, scheduler })
}
