// Where a posting stands and what became of it, in words for a person.
ghost use Rattle.std.specs.Prelude.{Some};
ghost use Rattle.posting.specs.Words.{cause_text, outcome_text, posting_text};

use crate::posting::{Cause, Outcome, Posting, Stage};
use std::fmt;

impl fmt::Display for Cause {
    ghost output = { λ c. Some (cause_text c) };

    fn fmt<W: fmt::Write>(&self, f: &mut fmt::Formatter<W>) -> fmt::Result {
        match *self {
            Cause::Overflow => f.write_str("the new total is out of range"),
            Cause::RetriesSpent => f.write_str("no retry is left"),
            Cause::Refused(refusal) => write!(f, "refused, {}", refusal.reason),
            Cause::Deadlock => f.write_str("deadlock"),
        }
    }
}

impl fmt::Display for Outcome {
    ghost output = { λ o. Some (outcome_text o) };

    fn fmt<W: fmt::Write>(&self, f: &mut fmt::Formatter<W>) -> fmt::Result {
        match *self {
            Outcome::Posted => f.write_str("the game is posted"),
            Outcome::GivenUp(cause) => write!(f, "the game is given up: {cause}"),
            Outcome::NotOpened(refusal) => write!(f, "the game is not begun: {}", refusal.reason),
            Outcome::AbortRefused(refusal) => {
                write!(f, "nothing is known of the game: {}", refusal.reason)
            }
        }
    }
}

impl fmt::Display for Posting {
    ghost output = { λ p. Some (posting_text p) };

    fn fmt<W: fmt::Write>(&self, f: &mut fmt::Formatter<W>) -> fmt::Result {
        match &self.stage {
            Stage::Fresh => f.write_str("not begun"),
            Stage::ToRead(ticket) => write!(f, "transaction {} is open", ticket.number()),
            Stage::ToWrite { ticket: _, total } => write!(f, "the new total will be {total}"),
            Stage::ToCommit(_) => f.write_str("the new total is written"),
            Stage::ToRetry(_) => f.write_str("waits"),
            Stage::ToGiveUp(_) => f.write_str("waits, and has no retry left"),
            Stage::ToAbort { ticket: _, cause } => write!(f, "gives up: {cause}"),
        }
    }
}
