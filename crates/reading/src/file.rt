// What is found in a request file.
ghost use Rattle.std.specs.Prelude.{Some};
ghost use Rattle.reading.specs.Words.{ending_text, placed_text};

use records::refusal::{Reason, Refusal};
use records::request::Request;
use std::fmt;

/// A request, and the offset of its kind byte in the file.
#[derive(Clone, Copy, PartialEq, Eq, Debug)]
pub struct Placed {
    pub place: u32,
    pub request: Request,
}

/// How the reading of a file ended. No `Option`, since a whole file is told in words too.
#[derive(Clone, Copy, PartialEq, Eq, Debug)]
pub enum Ending {
    Whole,
    Refused { refusal: Refusal, place: u32 },
}

impl fmt::Display for Placed {
    ghost output = { λ p. Some (placed_text p) };

    fn fmt<W: fmt::Write>(&self, f: &mut fmt::Formatter<W>) -> fmt::Result {
        write!(f, "place {}: {}", self.place, self.request)
    }
}

impl fmt::Display for Ending {
    ghost output = { λ e. Some (ending_text e) };

    fn fmt<W: fmt::Write>(&self, f: &mut fmt::Formatter<W>) -> fmt::Result {
        match *self {
            Ending::Whole => f.write_str("the file is whole"),
            Ending::Refused { refusal, place } => match refusal.reason {
                Reason::InputTooLong => f.write_str("too long: nothing of the file is read"),
                reason => write!(
                    f,
                    "{reason} at place {place}: nothing from there on is read"
                ),
            },
        }
    }
}
