// The refusals that the examples meet.
use records::refusal::{Layer, Reason, Refusal};
use scheduler::reply::Reply;

pub(crate) fn by_scheduler(reason: Reason) -> Result<Reply, Refusal> {
    Err(Layer::Scheduler.refusal(reason))
}

pub(crate) fn by_store(reason: Reason) -> Result<Reply, Refusal> {
    Err(Layer::Store.refusal(reason))
}
