// A desk that reads the total, looks at it for a round, and ends its transaction.
ghost use Rattle.std.specs.Prelude.{◌-◌, ◌<◌, ◌≤◌};
ghost use Rattle.season.specs.Weights.{HeldUp, desk_weight};

use crate::TEAM;
use crate::account::Account;
use crate::said::Said;
use records::refusal::Refusal;
use scheduler::rule::LockRule;
use scheduler::scheduler::Scheduler;
use store::store::Store;
use tickets::outcome::{Committing, Found, NotGranted, Reading, Retried, Retrying};
use tickets::ticket::{Active, Ticket, Waiting};

/// What the desk does next. Two variants end in an abort, since they hold tickets of different types.
pub(crate) enum Desk {
    Fresh,
    ToRead(Active),
    ToRetry(Waiting),
    Looking(Active),
    ToCommit(Active),
    ToAbort(Active),
    // It waited twice.
    ToLeave(Waiting),
    Done,
}

fn after_begin(outcome: Result<Active, Refusal>) -> (Desk, Said)
    ensures { desk_weight result.0 < 6 }
{
    match outcome {
        Ok(ticket) => {
            let number = ticket.number();
            (Desk::ToRead(ticket), Said::Opened(number))
        }
        Err(refusal) => (Desk::Done, Said::Refused(refusal)),
    }
}

// What a call that is not granted comes to, with what the desk does next with the ticket that waits and with the one that was refused.
// A posting has its own such function: what they make has nothing in common.
fn held_up<State, W: FnOnce(Waiting) -> Desk + Drop, F: FnOnce(Ticket<State>) -> Desk + Drop>(
    why: NotGranted<State>,
    waits: W,
    refused: F,
) -> (Desk, Said)
    requires waits { W.IsAlwaysCallable waits }
    requires refused { F.IsAlwaysCallable refused }
    ensures { HeldUp (W.post waits) (F.post refused) why result.0 }
{
    match why {
        NotGranted::Wait { ticket, blocker } => (waits(ticket), Said::Waits(blocker)),
        NotGranted::Deadlock => (Desk::Done, Said::Deadlock),
        NotGranted::Refused { ticket, refusal } => (refused(ticket), Said::Refused(refusal)),
    }
}

fn after_read(outcome: Reading) -> (Desk, Said)
    ensures { desk_weight result.0 < 5 }
{
    match outcome {
        Ok(Found { ticket, value }) => (Desk::Looking(ticket), Said::Total(value)),
        Err(why) => held_up(why, Desk::ToRetry, Desk::ToAbort),
    }
}

fn after_retry(outcome: Retrying) -> (Desk, Said)
    ensures { desk_weight result.0 < 4 }
{
    match outcome {
        Ok(
            Retried::Value {
                ticket,
                item: _,
                value,
            },
        ) => (Desk::Looking(ticket), Said::Total(value)),
        Ok(Retried::Written { ticket, item: _ }) => (Desk::ToCommit(ticket), Said::Looks),
        Ok(Retried::Committed) => (Desk::Done, Said::Committed),
        Err(why) => held_up(why, Desk::ToLeave, Desk::ToLeave),
    }
}

fn after_commit(outcome: Committing) -> (Desk, Said)
    ensures { desk_weight result.0 < 2 }
{
    match outcome {
        Ok(()) => (Desk::Done, Said::Committed),
        Err(why) => held_up(why, Desk::ToLeave, Desk::ToAbort),
    }
}

fn after_abort(outcome: Result<(), Refusal>) -> (Desk, Said)
    ensures { desk_weight result.0 < 1 }
{
    match outcome {
        Ok(()) => (Desk::Done, Said::Aborted),
        Err(refusal) => (Desk::Done, Said::Refused(refusal)),
    }
}

impl Desk {
    /// Makes one step, and prints what came of it.
    pub(crate) fn turn<S: Store, R: LockRule, P: Print>(
        self,
        account: &mut Account<P>,
        scheduler: &mut Scheduler<S, R>,
    ) -> Desk
        ensures { desk_weight result ≤ desk_weight self - 1 }
    {
        let (desk, said) = match self {
            Desk::Fresh => after_begin(Active::begin(scheduler)),
            Desk::ToRead(ticket) => after_read(ticket.read(scheduler, TEAM)),
            Desk::ToRetry(ticket) => after_retry(ticket.retry(scheduler)),
            Desk::Looking(ticket) => (Desk::ToCommit(ticket), Said::Looks),
            Desk::ToCommit(ticket) => after_commit(ticket.commit(scheduler)),
            Desk::ToAbort(ticket) => after_abort(ticket.abort(scheduler)),
            Desk::ToLeave(ticket) => after_abort(ticket.abort(scheduler)),
            Desk::Done => return Desk::Done,
        };
        account.line(format_args!("desk: {said}"));
        desk
    }
}
