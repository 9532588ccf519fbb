// An open transaction.
ghost use Rattle.std.specs.Prelude.{◌≡◌};
ghost use Rattle.scheduler.specs.Edges.{committing};
ghost use Rattle.scheduler.specs.Steps.{no_item};

use records::answer::{Activity, Answer};
use store::belonging::Belongs;

/// What a transaction asks for, and holds while it waits.
#[derive(Clone, Copy, PartialEq, Eq, Debug)]
pub enum Ask {
    Read { item: u16 },
    Write { item: u16, value: i32 },
    Commit,
}

impl Ask {
    /// Whether it asks for an item at or above the size.
    pub(crate) fn exceeds(self, size: usize) -> bool
        ensures { result ≡ no_item size self }
    {
        match self {
            Ask::Read { item } | Ask::Write { item, value: _ } => usize::from(item) >= size,
            Ask::Commit => false,
        }
    }
}

/// An enum of its own and no `Option`: whether a transaction is active or waits is told in records and in words.
#[derive(Clone, Copy, PartialEq, Eq, Debug, Default)]
pub enum State {
    #[default]
    Active,
    Waiting(Ask),
}

impl State {
    /// Whether the transaction waits to commit.
    pub(crate) fn is_committing(self) -> bool
        ensures { result ≡ committing self }
    {
        matches!(self, State::Waiting(Ask::Commit))
    }
}

impl From<State> for Activity {
    ghost use Rattle.scheduler.specs.Recorded.{activity};

    ghost from_gives = { λ s a. a ≡ activity s };

    fn from(state: State) -> Activity {
        match state {
            State::Active => Activity::Active,
            State::Waiting(_) => Activity::Waiting,
        }
    }
}

/// The number of no transaction. It has no pending writes, so it sees the committed values.
pub const NOBODY: u16 = 0;

#[derive(Clone, Copy, PartialEq, Eq, Debug, Default)]
pub struct Transaction {
    pub number: u16,
    pub state: State,
}

impl Belongs for Transaction {
    ghost owner = { λ o. o.number };

    fn owner(self) -> u16 {
        self.number
    }
}

/// The record of a transaction that is open at the end.
impl From<Transaction> for Answer {
    ghost use Rattle.scheduler.specs.Recorded.{still_open};

    ghost from_gives = { λ o a. a ≡ still_open o };

    fn from(transaction: Transaction) -> Answer {
        let Transaction { number, state } = transaction;
        Answer::StillOpen {
            t: number,
            state: state.into(),
        }
    }
}
