// A transaction's ticket, whose type says its state, and what an answer makes of it.
ghost use Rattle.std.specs.Prelude.{◌≡◌, ℤ};
ghost use Rattle.scheduler.specs.declared.transaction.Ask.{Ask};
ghost use Rattle.scheduler.specs.declared.transaction.Ask.TheVariants.{Read as AskRead, Write as AskWrite, Commit as AskCommit};
ghost use Rattle.tickets.specs.Outcomes.{CommitNumber, NotGrantedNumber, ReadNumber, RetryNumber, WriteNumber, commit_answer, not_granted_answer, read_answer, retry_answer, write_answer};
ghost use Rattle.tickets.specs.Replies.{GrantsNothing, ToAsk};

mod calls;
mod retries;

use crate::outcome::{Committing, Found, NotGranted, Reading, Retried, Retrying, Writing};
use records::refusal::Refusal;
use scheduler::reply::Reply;
use std::marker::PhantomData;

/// The ticket of a transaction in that state. It cannot be copied or let go: it ends with its transaction.
pub struct Ticket<State> {
    number: u16,
    state: PhantomData<State>,
}

/// The transaction may go on.
pub struct Going;

/// The transaction waits with a request that is held, and may only retry or abort.
pub struct Held;

pub type Active = Ticket<Going>;

pub type Waiting = Ticket<Held>;

impl<State> Ticket<State> {
    fn of(number: u16) -> Ticket<State>
        ensures { result.number ≡ number }
    {
        Ticket {
            number,
            state: PhantomData,
        }
    }
}

fn not_granted<State>(number: u16, answer: Result<Reply, Refusal>) -> NotGranted<State>
    requires { GrantsNothing number answer }
    ensures answer { answer ≡ not_granted_answer number result }
    ensures number { NotGrantedNumber number result }
{
    match answer {
        Ok(Reply::Wait { blocker, .. }) => NotGranted::Wait {
            ticket: Ticket::of(number),
            blocker,
        },
        Ok(Reply::Deadlock { .. }) => NotGranted::Deadlock,
        Ok(_) => unreachable!(),
        Err(refusal) => NotGranted::Refused {
            ticket: Ticket::of(number),
            refusal,
        },
    }
}

fn reading(number: u16, item: u16, answer: Result<Reply, Refusal>) -> Reading
    requires { ToAsk number (AskRead item) answer }
    ensures answer { answer ≡ read_answer number item result }
    ensures number { ReadNumber number result }
{
    match answer {
        Ok(Reply::Value { value, .. }) => Ok(Found {
            ticket: Ticket::of(number),
            value,
        }),
        answer => Err(not_granted(number, answer)),
    }
}

fn writing(number: u16, item: u16, answer: Result<Reply, Refusal>) -> Writing
    requires { (v : ℤ) × ToAsk number (AskWrite item v) answer }
    ensures answer { answer ≡ write_answer number item result }
    ensures number { WriteNumber number result }
{
    match answer {
        Ok(Reply::Written { .. }) => Ok(Ticket::of(number)),
        answer => Err(not_granted(number, answer)),
    }
}

fn committing(number: u16, answer: Result<Reply, Refusal>) -> Committing
    requires { ToAsk number AskCommit answer }
    ensures answer { answer ≡ commit_answer number result }
    ensures number { CommitNumber number result }
{
    match answer {
        Ok(Reply::Committed { .. }) => Ok(()),
        answer => Err(not_granted(number, answer)),
    }
}

fn retrying(number: u16, answer: Result<Reply, Refusal>) -> Retrying
    requires { (x : Ask) × ToAsk number x answer }
    ensures answer { answer ≡ retry_answer number result }
    ensures number { RetryNumber number result }
{
    match answer {
        Ok(Reply::Value { item, value, .. }) => Ok(Retried::Value {
            ticket: Ticket::of(number),
            item,
            value,
        }),
        Ok(Reply::Written { item, .. }) => Ok(Retried::Written {
            ticket: Ticket::of(number),
            item,
        }),
        Ok(Reply::Committed { .. }) => Ok(Retried::Committed),
        answer => Err(not_granted(number, answer)),
    }
}
