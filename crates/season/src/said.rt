// What the desk says of its turns, in words for a person.
ghost use Rattle.std.specs.Prelude.{Some};
ghost use Rattle.season.specs.Words.{said_text};

use records::refusal::Refusal;
use std::fmt;

#[derive(Clone, Copy)]
pub(crate) enum Said {
    Opened(u16),
    Total(i32),
    Waits(u16),
    Looks,
    Committed,
    Aborted,
    Deadlock,
    Refused(Refusal),
}

impl fmt::Display for Said {
    ghost output = { λ s. Some (said_text s) };

    fn fmt<W: fmt::Write>(&self, f: &mut fmt::Formatter<W>) -> fmt::Result {
        match *self {
            Said::Opened(number) => write!(f, "transaction {number} is open"),
            Said::Total(total) => write!(f, "the total is {total}"),
            Said::Waits(blocker) => write!(f, "waits for transaction {blocker}"),
            Said::Looks => f.write_str("looks at the total"),
            Said::Committed => f.write_str("has committed"),
            Said::Aborted => f.write_str("has aborted"),
            Said::Deadlock => f.write_str("is ended by a deadlock"),
            Said::Refused(refusal) => write!(f, "refused, {}", refusal.reason),
        }
    }
}
