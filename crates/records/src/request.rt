// What a centre asks of the scheduler.
ghost use Rattle.std.specs.Prelude.{Some};
ghost use Rattle.records.specs.Words.{request_text};

use std::fmt;

/// A request: `t` is the number of a transaction.
#[derive(Clone, Copy, PartialEq, Eq, Debug)]
pub enum Request {
    Begin,
    Read { t: u16, item: u16 },
    Write { t: u16, item: u16, value: i32 },
    Commit { t: u16 },
    Abort { t: u16 },
    Retry { t: u16 },
}

impl fmt::Display for Request {
    ghost output = { λ r. Some (request_text r) };

    fn fmt<W: fmt::Write>(&self, f: &mut fmt::Formatter<W>) -> fmt::Result {
        match *self {
            Request::Begin => f.write_str("a transaction begins"),
            Request::Read { t, item } => write!(f, "transaction {t} reads item {item}"),
            Request::Write { t, item, value } => write!(
                f,
                "transaction {t} writes {value} to item {item}"
            ),
            Request::Commit { t } => write!(f, "transaction {t} commits"),
            Request::Abort { t } => write!(f, "transaction {t} aborts"),
            Request::Retry { t } => write!(f, "transaction {t} retries the request it waits with"),
        }
    }
}
