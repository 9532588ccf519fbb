// From the bytes of an input to the bytes of the output.
ghost use Rattle.std.specs.Prelude.{◌≡◌, IfOk};
ghost use Rattle.server.specs.Output.{AnsweredOver, OutputOver, requests_of};

use crate::closing::{push_open, push_values};
use crate::output::{push_answers, push_ending};
use history::run::{Finished, run};
use reading::file::Placed;
use reading::requests::{LIMIT, requests_in};
use records::request::Request;
use scheduler::rule::LockRule;
use scheduler::scheduler::Scheduler;
use std::alloc::{AllocError, Global};
use store::store::Store;

/// The requests without their places.
pub fn requests(heap: Global, found: &[Placed]) -> Result<Vec<Request>, AllocError>
    ensures { IfOk result (λ v. v.items ≡ requests_of found.now) }
{
    found.iter().map(|placed| placed.request).collect(heap)
}

// The requests that the input holds, made of a scheduler, and the writing of the answers.
fn answer_all<S: Store + Drop, R: LockRule + Drop>(
    heap: Global,
    store: S,
    rule: R,
    input: &[u8],
) -> Result<(Vec<u8>, Scheduler<S, R>), AllocError>
    ensures { IfOk result (λ a. AnsweredOver S.Store R.LockRule store rule input.now a.0.items a.1) }
{
    let (found, ending) = requests_in(heap, input)?;
    let calls = requests(heap, &found)?;
    let Finished { answers, scheduler } = run(heap, store, rule, &calls)?;
    let mut output = Vec::new(heap);
    push_answers(&mut output, &found, &answers)?;
    push_ending(&mut output, ending)?;
    Ok((output, scheduler))
}

/// Makes the requests that the input holds of a scheduler over the store and the rule, and writes the answers and the
/// closing records. An `Err` says that memory ran out.
pub fn serve<S: Store + Drop, R: LockRule + Drop>(
    heap: Global,
    store: S,
    rule: R,
    input: &[u8],
) -> Result<Vec<u8>, AllocError>
    ensures { IfOk result (λ out. OutputOver S.Store R.LockRule store rule input.now out.items) }
{
    let (mut output, scheduler) = answer_all(heap, store, rule, input)?;
    if input.len() > LIMIT {
        return Ok(output);
    }
    push_open(&mut output, scheduler.transactions())?;
    push_values(&mut output, &scheduler.into_store())?;
    Ok(output)
}
