// What the scheduler answers, and what it tells at the end of a file.
ghost use Rattle.std.specs.Prelude.{Some};
ghost use Rattle.records.specs.Words.{activity_name, answer_text};

use std::fmt;

/// Whether an open transaction may go on, or waits with a held request, with its byte in a record.
#[derive(Clone, Copy, PartialEq, Eq, Debug)]
pub enum Activity {
    Active = 0,
    Waiting = 1,
}

/// An answer: `t` is the number of a transaction.
#[derive(Clone, Copy, PartialEq, Eq, Debug)]
pub enum Answer {
    Opened { t: u16 },
    Value { t: u16, item: u16, value: i32 },
    Written { t: u16, item: u16 },
    Committed { t: u16 },
    Aborted { t: u16 },
    Wait { t: u16, blocker: u16 },
    Deadlock { t: u16 },
    /// `layer` and `number` stay bytes, since a reader gives back any two that a record holds.
    /// `place` is the offset of the refused request's kind byte in the input.
    Refused { layer: u8, number: u8, place: u32 },
    StillOpen { t: u16, state: Activity },
    Holds { item: u16, value: i32 },
}

impl fmt::Display for Activity {
    ghost output = { λ a. Some (activity_name a) };

    fn fmt<W: fmt::Write>(&self, f: &mut fmt::Formatter<W>) -> fmt::Result {
        f.write_str(match self {
            Activity::Active => "active",
            Activity::Waiting => "waiting",
        })
    }
}

impl fmt::Display for Answer {
    ghost output = { λ a. Some (answer_text a) };

    fn fmt<W: fmt::Write>(&self, f: &mut fmt::Formatter<W>) -> fmt::Result {
        match *self {
            Answer::Opened { t } => write!(f, "transaction {t} is open"),
            Answer::Value { t, item, value } => write!(
                f,
                "transaction {t} finds {value} in item {item}"
            ),
            Answer::Written { t, item } => write!(f, "transaction {t} has written item {item}"),
            Answer::Committed { t } => write!(f, "transaction {t} has committed"),
            Answer::Aborted { t } => write!(f, "transaction {t} has aborted"),
            Answer::Wait { t, blocker } => write!(
                f,
                "transaction {t} waits for transaction {blocker}"
            ),
            Answer::Deadlock { t } => write!(f, "transaction {t} is ended by a deadlock"),
            Answer::Refused {
                layer,
                number,
                place,
            } => {
                write!(
                    f,
                    "refused with {number} by layer {layer}: the request at place {place}"
                )
            }
            Answer::StillOpen { t, state } => write!(
                f,
                "transaction {t} is still open and {state}"
            ),
            Answer::Holds { item, value } => write!(f, "item {item} holds {value}"),
        }
    }
}
