// What the calls of a ticket come to, and the ticket that each leaves. A pattern names every field of these, since `..` would let a
// ticket go.
use crate::ticket::{Active, Going, Held, Ticket, Waiting};
use records::refusal::Refusal;

/// Why a call is not granted. A refusal gives back the ticket that made the call, in its state.
pub enum NotGranted<State> {
    Wait {
        ticket: Waiting,
        blocker: u16,
    },
    Deadlock,
    Refused {
        ticket: Ticket<State>,
        refusal: Refusal,
    },
}

/// What a granted read leaves.
pub struct Found {
    pub ticket: Active,
    pub value: i32,
}

/// What a granted retry leaves, by the request that was held.
pub enum Retried {
    Value {
        ticket: Active,
        item: u16,
        value: i32,
    },
    Written {
        ticket: Active,
        item: u16,
    },
    Committed,
}

/// What a read comes to.
pub type Reading = Result<Found, NotGranted<Going>>;

/// What a write comes to.
pub type Writing = Result<Active, NotGranted<Going>>;

/// What a commit comes to. A grant ends the transaction.
pub type Committing = Result<(), NotGranted<Going>>;

/// What a retry comes to: the held request is granted, waits again, or is refused.
pub type Retrying = Result<Retried, NotGranted<Held>>;
