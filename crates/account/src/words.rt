// What came of a run, in words for a person.
ghost use Rattle.std.specs.Prelude.{Some};
ghost use Rattle.account.specs.Words.{answered_text};

use records::answer::Answer;
use records::refusal::Refusal;
use scheduler::reply::Reply;
use scheduler::transaction::{Ask, State, Transaction};
use std::fmt;

/// What a request was answered.
#[derive(Clone, Copy)]
pub(crate) struct Answered(pub(crate) Result<Reply, Refusal>);

/// A transaction that is open at the end of a file.
#[derive(Clone, Copy)]
pub(crate) struct StillOpen(pub(crate) Transaction);

impl fmt::Display for Answered {
    ghost output = { λ a. Some (answered_text a.0) };

    fn fmt<W: fmt::Write>(&self, f: &mut fmt::Formatter<W>) -> fmt::Result {
        match self.0 {
            Ok(reply) => write!(f, "{}", Answer::from(reply)),
            Err(refusal) => write!(f, "refused: {refusal}"),
        }
    }
}

impl fmt::Display for StillOpen {
    // No `output` is stated: of two writes in a row, the second by cases, the check did not find the joined text.
    fn fmt<W: fmt::Write>(&self, f: &mut fmt::Formatter<W>) -> fmt::Result {
        write!(f, "transaction {} is still open: ", self.0.number)?;
        match self.0.state {
            State::Active => f.write_str("active"),
            State::Waiting(Ask::Read { item }) => write!(f, "waiting to read item {item}"),
            State::Waiting(Ask::Write { item, value }) => write!(
                f,
                "waiting to write {value} to item {item}"
            ),
            State::Waiting(Ask::Commit) => f.write_str("waiting to commit"),
        }
    }
}
