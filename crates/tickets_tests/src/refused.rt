// The refusals that the examples meet, written out, since the value of a constant calls no `Layer::refusal`.
use records::refusal::{Layer, Reason, Refusal};

pub(crate) const NOT_OPEN: Refusal = Refusal {
    layer: Layer::Scheduler,
    reason: Reason::NotOpen,
};

pub(crate) const WAITING: Refusal = Refusal {
    layer: Layer::Scheduler,
    reason: Reason::Waiting,
};

pub(crate) const NOT_WAITING: Refusal = Refusal {
    layer: Layer::Scheduler,
    reason: Reason::NotWaiting,
};

pub(crate) const NO_SUCH_ITEM: Refusal = Refusal {
    layer: Layer::Scheduler,
    reason: Reason::NoSuchItem,
};

pub(crate) const PAIR: Refusal = Refusal {
    layer: Layer::Scheduler,
    reason: Reason::Pair,
};
