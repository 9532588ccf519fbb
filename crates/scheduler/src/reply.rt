// What the scheduler answers to a call that it does not refuse.
ghost use Rattle.std.specs.Prelude.{◌≡◌};

use records::answer::Answer;

/// An enum of its own and not the records' `Answer`, since no call is answered with a closing record or has a refusal as its reply.
#[derive(Clone, Copy, PartialEq, Eq, Debug)]
pub enum Reply {
    Opened { t: u16 },
    Value { t: u16, item: u16, value: i32 },
    Written { t: u16, item: u16 },
    Committed { t: u16 },
    Aborted { t: u16 },
    Wait { t: u16, blocker: u16 },
    Deadlock { t: u16 },
}

impl From<Reply> for Answer {
    ghost use Rattle.scheduler.specs.Recorded.{recorded};

    ghost from_gives = { λ r a. a ≡ recorded r };

    fn from(reply: Reply) -> Answer {
        match reply {
            Reply::Opened { t } => Answer::Opened { t },
            Reply::Value { t, item, value } => Answer::Value { t, item, value },
            Reply::Written { t, item } => Answer::Written { t, item },
            Reply::Committed { t } => Answer::Committed { t },
            Reply::Aborted { t } => Answer::Aborted { t },
            Reply::Wait { t, blocker } => Answer::Wait { t, blocker },
            Reply::Deadlock { t } => Answer::Deadlock { t },
        }
    }
}
