// A game on its way into a season total, and what became of it.
ghost use Rattle.std.specs.Prelude.{◌≡◌};
ghost use Rattle.posting.specs.Turns.{fresh, request};

use records::refusal::Refusal;
use records::request::Request;
use tickets::ticket::{Active, Waiting};

/// The item of the team's total, the pins to add, and how many retries are left.
#[derive(Clone, Copy)]
pub(crate) struct Game {
    pub(crate) team: u16,
    pub(crate) pins: i32,
    pub(crate) retries: u16,
}

/// What comes next, with the ticket for it. Two variants end in an abort, since they hold tickets of different types.
pub(crate) enum Stage {
    Fresh,
    ToRead(Active),
    ToWrite { ticket: Active, total: i32 },
    ToCommit(Active),
    ToRetry(Waiting),
    // It waits, and no retry is left.
    ToGiveUp(Waiting),
    ToAbort { ticket: Active, cause: Cause },
}

/// A game that is being added to a season total. It cannot be let go before it has told what became of it.
pub struct Posting {
    pub(crate) game: Game,
    pub(crate) stage: Stage,
}

/// Why a game was given up.
#[derive(Clone, Copy, PartialEq, Eq, Debug)]
pub enum Cause {
    Overflow,
    RetriesSpent,
    Refused(Refusal),
    Deadlock,
}

/// What became of a game. Not a `Result`: the contract of a step tells these four apart, and none is handed on by `?`.
#[derive(Clone, Copy, PartialEq, Eq, Debug)]
pub enum Outcome {
    Posted,
    GivenUp(Cause),
    NotOpened(Refusal),
    /// Nothing is known: the scheduler does not know the transaction, or refuses every call.
    AbortRefused(Refusal),
}

/// What a step comes to. Not a `Result`: neither is an error.
pub enum Turn {
    Going(Posting),
    Told(Outcome),
}

impl Posting {
    /// A game that is not begun, with as many retries as it may make.
    pub fn new(team: u16, pins: i32, retries: u16) -> Posting
        ensures { result ≡ fresh team pins retries }
    {
        Posting {
            game: Game {
                team,
                pins,
                retries,
            },
            stage: Stage::Fresh,
        }
    }

    /// The call that the next step makes.
    pub fn request(&self) -> Request
        ensures { result ≡ request self.now }
    {
        let item = self.game.team;
        match &self.stage {
            Stage::Fresh => Request::Begin,
            Stage::ToRead(ticket) => Request::Read {
                t: ticket.number(),
                item,
            },
            Stage::ToWrite { ticket, total } => Request::Write {
                t: ticket.number(),
                item,
                value: *total,
            },
            Stage::ToCommit(ticket) => Request::Commit { t: ticket.number() },
            Stage::ToRetry(ticket) => Request::Retry { t: ticket.number() },
            Stage::ToGiveUp(ticket) => Request::Abort { t: ticket.number() },
            Stage::ToAbort { ticket, cause: _ } => Request::Abort { t: ticket.number() },
        }
    }
}
