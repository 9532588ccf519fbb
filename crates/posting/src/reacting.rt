// What a posting makes of each outcome of a call.
ghost use Rattle.std.specs.Prelude.{◌≡◌, ℕ, ℤ, ◌+ℤ◌};
ghost use Rattle.posting.specs.declared.posting.Cause.TheVariants.{Refused};
ghost use Rattle.posting.specs.declared.posting.Stage.TheVariants.{Fresh, ToAbort, ToCommit, ToRead, ToRetry, ToWrite};
ghost use Rattle.posting.specs.Turns.{HeldUp, active, at, ended, next, summed, waiting, waits};
ghost use Rattle.tickets.specs.Outcomes.{CommitNumber, ReadNumber, RetryNumber, WriteNumber, begin_answer, commit_answer, read_answer, retry_answer, write_answer};

use crate::posting::{Cause, Game, Outcome, Posting, Stage, Turn};
use records::refusal::Refusal;
use tickets::outcome::{Committing, Found, NotGranted, Reading, Retried, Retrying, Writing};
use tickets::ticket::{Active, Ticket, Waiting};

impl Game {
    fn going(self, stage: Stage) -> Turn
        ensures { result ≡ Turn.Going (at self stage) }
    {
        Turn::Going(Posting { game: self, stage })
    }

    /// The new total is to be written, unless it is too large or too small to be a value.
    fn sum(self, ticket: Active, total: i32) -> Stage
        ensures { result ≡ summed ticket.number (total +ℤ self.pins) }
    {
        match total.checked_add(self.pins) {
            Some(total) => Stage::ToWrite { ticket, total },
            None => Stage::ToAbort {
                ticket,
                cause: Cause::Overflow,
            },
        }
    }

    /// A retry is to be made if one is left.
    fn wait(self, ticket: Waiting) -> Turn
        ensures { result ≡ Turn.Going (waits self ticket.number) }
    {
        match self.retries.checked_sub(1) {
            Some(retries) => Game { retries, ..self }.going(Stage::ToRetry(ticket)),
            None => self.going(Stage::ToGiveUp(ticket)),
        }
    }

    fn give_up(self, ticket: Active, refusal: Refusal) -> Turn
        ensures { result ≡ Turn.Going (at self (ToAbort ticket (Refused refusal))) }
    {
        self.going(Stage::ToAbort {
            ticket,
            cause: Cause::Refused(refusal),
        })
    }

    /// A call that is not granted; the caller says what a refusal makes of the ticket that it gives back.
    fn held_up<State, F: FnOnce(Ticket<State>, Refusal) -> Turn + Drop>(
        self,
        why: NotGranted<State>,
        refused: F,
    ) -> Turn
        requires { F.IsAlwaysCallable refused }
        ensures { HeldUp (F.post refused) self why result }
    {
        match why {
            NotGranted::Wait { ticket, blocker: _ } => self.wait(ticket),
            NotGranted::Deadlock => Turn::Told(Outcome::GivenUp(Cause::Deadlock)),
            NotGranted::Refused { ticket, refusal } => refused(ticket, refusal),
        }
    }

    pub(crate) fn after_begin(self, outcome: Result<Active, Refusal>) -> Turn
        ensures { result ≡ next (at self Fresh) (begin_answer outcome) }
    {
        match outcome {
            Ok(ticket) => self.going(Stage::ToRead(ticket)),
            Err(refusal) => Turn::Told(Outcome::NotOpened(refusal)),
        }
    }

    pub(crate) fn after_read(self, outcome: Reading) -> Turn
        ensures { (t : ℕ) → ReadNumber t outcome → result ≡ next (at self (ToRead (active t))) (read_answer t self.team outcome) }
    {
        match outcome {
            Ok(Found { ticket, value }) => self.going(self.sum(ticket, value)),
            Err(why) => self.held_up(why, |ticket, refusal| self.give_up(ticket, refusal)),
        }
    }

    pub(crate) fn after_write(self, outcome: Writing) -> Turn
        ensures { (t : ℕ) (total : ℤ) → WriteNumber t outcome → result ≡ next (at self (ToWrite (active t) total)) (write_answer t self.team outcome) }
    {
        match outcome {
            Ok(ticket) => self.going(Stage::ToCommit(ticket)),
            Err(why) => self.held_up(why, |ticket, refusal| self.give_up(ticket, refusal)),
        }
    }

    pub(crate) fn after_commit(self, outcome: Committing) -> Turn
        ensures { (t : ℕ) → CommitNumber t outcome → result ≡ next (at self (ToCommit (active t))) (commit_answer t outcome) }
    {
        match outcome {
            Ok(()) => Turn::Told(Outcome::Posted),
            Err(why) => self.held_up(why, |ticket, refusal| self.give_up(ticket, refusal)),
        }
    }

    /// A refused retry counts as a wait: the ticket still waits, and the next retry may pass.
    pub(crate) fn after_retry(self, outcome: Retrying) -> Turn
        ensures { (t : ℕ) → RetryNumber t outcome → result ≡ next (at self (ToRetry (waiting t))) (retry_answer t outcome) }
    {
        match outcome {
            Ok(
                Retried::Value {
                    ticket,
                    item: _,
                    value,
                },
            ) => self.going(self.sum(ticket, value)),
            Ok(Retried::Written { ticket, item: _ }) => self.going(Stage::ToCommit(ticket)),
            Ok(Retried::Committed) => Turn::Told(Outcome::Posted),
            Err(why) => self.held_up(why, |ticket, _| self.wait(ticket)),
        }
    }
}

pub(crate) fn after_abort(cause: Cause, outcome: Result<(), Refusal>) -> Turn
    ensures { result ≡ ended cause outcome }
{
    match outcome {
        Ok(()) => Turn::Told(Outcome::GivenUp(cause)),
        Err(refusal) => Turn::Told(Outcome::AbortRefused(refusal)),
    }
}
