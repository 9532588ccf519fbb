// Why a call is refused, and which layer refused it.
ghost use Rattle.std.specs.Prelude.{◌≡◌, Some};
ghost use Rattle.records.specs.Refusals.{layer_number, reason_number, layer_name, reason_name, refusal_text};

use std::error::Error;
use std::fmt;

/// Each layer, with the number by which it is told.
#[derive(Clone, Copy, PartialEq, Eq, Debug)]
pub enum Layer {
    Records = 1,
    Scheduler = 2,
    Store = 3,
}

/// Each reason, with the number by which it is told.
#[derive(Clone, Copy, PartialEq, Eq, Debug)]
pub enum Reason {
    UnknownKind = 1,
    BodyCutShort = 2,
    InputTooLong = 3,
    NotOpen = 4,
    Waiting = 5,
    NotWaiting = 6,
    NoSuchItem = 7,
    TooManyOpen = 8,
    NumbersSpent = 9,
    LockListFull = 10,
    NoRoom = 11,
    OutputTooShort = 12,
    Pair = 13,
    PendingAtOpening = 14,
    ItemTaken = 15,
}

/// A refused call: nothing was changed.
#[derive(Clone, Copy, PartialEq, Eq, Debug)]
pub struct Refusal {
    pub layer: Layer,
    pub reason: Reason,
}

impl Layer {
    pub fn number(self) -> u8
        ensures { result ≡ layer_number self }
    {
        self as u8
    }

    /// This layer's refusal for a reason.
    pub fn refusal(self, reason: Reason) -> Refusal
        ensures { result ≡ record { layer = self; reason = reason } }
    {
        Refusal {
            layer: self,
            reason,
        }
    }
}

impl Reason {
    pub fn number(self) -> u8
        ensures { result ≡ reason_number self }
    {
        self as u8
    }
}

impl fmt::Display for Layer {
    ghost output = { λ l. Some (layer_name l) };

    fn fmt<W: fmt::Write>(&self, f: &mut fmt::Formatter<W>) -> fmt::Result {
        f.write_str(match self {
            Layer::Records => "records",
            Layer::Scheduler => "scheduler",
            Layer::Store => "store",
        })
    }
}

impl fmt::Display for Reason {
    ghost output = { λ r. Some (reason_name r) };

    fn fmt<W: fmt::Write>(&self, f: &mut fmt::Formatter<W>) -> fmt::Result {
        f.write_str(match self {
            Reason::UnknownKind => "unknown kind",
            Reason::BodyCutShort => "cut short",
            Reason::InputTooLong => "too long",
            Reason::NotOpen => "not open",
            Reason::Waiting => "waiting",
            Reason::NotWaiting => "not waiting",
            Reason::NoSuchItem => "no such item",
            Reason::TooManyOpen => "too many open",
            Reason::NumbersSpent => "numbers spent",
            Reason::LockListFull => "lock list full",
            Reason::NoRoom => "no room",
            Reason::OutputTooShort => "output too short",
            Reason::Pair => "this rule does not suit this store",
            Reason::PendingAtOpening => "pending writes at opening",
            Reason::ItemTaken => "item taken",
        })
    }
}

impl fmt::Display for Refusal {
    ghost output = { λ r. Some (refusal_text r) };

    fn fmt<W: fmt::Write>(&self, f: &mut fmt::Formatter<W>) -> fmt::Result {
        write!(
            f,
            "{} {} ({})",
            self.reason.number(),
            self.reason,
            self.layer
        )
    }
}

impl Error for Refusal {}
