// The refusals that the examples meet. A constant's value may call no function, so they are written out.
use records::refusal::{Layer, Reason, Refusal};

pub const CUT: Refusal = Refusal {
    layer: Layer::Records,
    reason: Reason::BodyCutShort,
};

pub const UNKNOWN: Refusal = Refusal {
    layer: Layer::Records,
    reason: Reason::UnknownKind,
};

pub const SHORT: Refusal = Refusal {
    layer: Layer::Records,
    reason: Reason::OutputTooShort,
};

pub const LONG: Refusal = Refusal {
    layer: Layer::Records,
    reason: Reason::InputTooLong,
};
