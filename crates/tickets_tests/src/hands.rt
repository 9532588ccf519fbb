// Hands that hold a ticket each, and the moves that they make with it.
use records::refusal::Refusal;
use scheduler::rule::LockRule;
use scheduler::scheduler::Scheduler;
use store::store::Store;
use tickets::outcome::{Committing, Found, NotGranted, Reading, Retried, Retrying, Writing};
use tickets::ticket::{Active, Ticket, Waiting};

pub(crate) enum Hand {
    Empty,
    Active(Active),
    Waiting(Waiting),
}

impl From<Active> for Hand {
    fn from(ticket: Active) -> Hand {
        Hand::Active(ticket)
    }
}

impl From<Waiting> for Hand {
    fn from(ticket: Waiting) -> Hand {
        Hand::Waiting(ticket)
    }
}

#[derive(Clone, Copy)]
pub(crate) enum Move {
    Begin,
    Read(u16),
    Write(u16, i32),
    Commit,
    Retry,
    Abort,
}

/// What a move came to, but for the ticket.
#[derive(Clone, Copy, PartialEq, Eq, Debug)]
pub(crate) enum Said {
    Opened,
    Value(i32),
    Written,
    RetriedValue(u16, i32),
    RetriedWritten(u16),
    Committed,
    Aborted,
    Wait(u16),
    Deadlock,
    Refused(Refusal),
    NoSuchMove,
}

/// The ticket in a hand.
#[derive(Clone, Copy, PartialEq, Eq, Debug)]
pub(crate) enum Left {
    Nothing,
    Active(u16),
    Waiting(u16),
}

fn after_begin(outcome: Result<Active, Refusal>) -> (Hand, Said) {
    match outcome {
        Ok(ticket) => (ticket.into(), Said::Opened),
        Err(refusal) => (Hand::Empty, Said::Refused(refusal)),
    }
}

fn held_up<State>(why: NotGranted<State>) -> (Hand, Said)
where
    Ticket<State>: Into<Hand>,
{
    match why {
        NotGranted::Wait { ticket, blocker } => (ticket.into(), Said::Wait(blocker)),
        NotGranted::Deadlock => (Hand::Empty, Said::Deadlock),
        NotGranted::Refused { ticket, refusal } => (ticket.into(), Said::Refused(refusal)),
    }
}

fn after_read(outcome: Reading) -> (Hand, Said) {
    match outcome {
        Ok(Found { ticket, value }) => (ticket.into(), Said::Value(value)),
        Err(why) => held_up(why),
    }
}

fn after_write(outcome: Writing) -> (Hand, Said) {
    match outcome {
        Ok(ticket) => (ticket.into(), Said::Written),
        Err(why) => held_up(why),
    }
}

fn after_commit(outcome: Committing) -> (Hand, Said) {
    match outcome {
        Ok(()) => (Hand::Empty, Said::Committed),
        Err(why) => held_up(why),
    }
}

fn after_retry(outcome: Retrying) -> (Hand, Said) {
    match outcome {
        Ok(
            Retried::Value {
                ticket,
                item,
                value,
            },
        ) => (ticket.into(), Said::RetriedValue(item, value)),
        Ok(Retried::Written { ticket, item }) => (ticket.into(), Said::RetriedWritten(item)),
        Ok(Retried::Committed) => (Hand::Empty, Said::Committed),
        Err(why) => held_up(why),
    }
}

// An abort leaves no ticket, whatever it is answered.
fn after_abort(outcome: Result<(), Refusal>) -> (Hand, Said) {
    match outcome {
        Ok(()) => (Hand::Empty, Said::Aborted),
        Err(refusal) => (Hand::Empty, Said::Refused(refusal)),
    }
}

impl Hand {
    pub(crate) fn play<S: Store, R: LockRule>(
        self,
        scheduler: &mut Scheduler<S, R>,
        step: Move,
    ) -> (Hand, Said) {
        match (self, step) {
            (Hand::Empty, Move::Begin) => after_begin(Active::begin(scheduler)),
            (Hand::Active(ticket), Move::Read(item)) => after_read(ticket.read(scheduler, item)),
            (Hand::Active(ticket), Move::Write(item, value)) => after_write(ticket.write(
                scheduler, item, value,
            )),
            (Hand::Active(ticket), Move::Commit) => after_commit(ticket.commit(scheduler)),
            (Hand::Active(ticket), Move::Abort) => after_abort(ticket.abort(scheduler)),
            (Hand::Waiting(ticket), Move::Retry) => after_retry(ticket.retry(scheduler)),
            (Hand::Waiting(ticket), Move::Abort) => after_abort(ticket.abort(scheduler)),
            (hand, _) => (hand, Said::NoSuchMove),
        }
    }

    pub(crate) fn left(&self) -> Left {
        match self {
            Hand::Empty => Left::Nothing,
            Hand::Active(ticket) => Left::Active(ticket.number()),
            Hand::Waiting(ticket) => Left::Waiting(ticket.number()),
        }
    }

    /// Aborts what the hand still holds.
    pub(crate) fn empty<S: Store, R: LockRule>(self, scheduler: &mut Scheduler<S, R>) {
        match self {
            Hand::Empty => {}
            Hand::Active(ticket) => {
                let _ = ticket.abort(scheduler);
            }
            Hand::Waiting(ticket) => {
                let _ = ticket.abort(scheduler);
            }
        }
    }
}
