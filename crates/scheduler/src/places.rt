// Sets of up to 64 places.
ghost use Rattle.std.specs.Prelude.{◌≡◌, ℕ, ◌<◌, ◌≤◌, true, not, ◌&&◌, ◌||◌, ◌==◌, Decides};
ghost use Rattle.scheduler.specs.Bits.{has};

// That a place is below 64 is asked of each call, since a place is an index as soon as it is one.
/// A set of places below 64.
#[derive(Clone, Copy, PartialEq, Eq, Debug)]
pub struct Places {
    pub(crate) bits: u64,
}

impl Places {
    pub(crate) const NONE: Places = Places { bits: 0 };

    pub(crate) fn contains(self, place: usize) -> bool
        requires { place < 64 }
        ensures { result ≡ has self.bits place }
    {
        (self.bits >> place) % 2 == 1
    }

    /// Whether the two sets share a place.
    pub(crate) fn meets(self, other: Places) -> bool
        ensures { Decides result ((p : ℕ) × (has self.bits p ≡ true) × (has other.bits p ≡ true)) }
    {
        self.bits & other.bits != 0
    }

    pub(crate) fn with(self, place: usize) -> Places
        requires { place < 64 }
        ensures value { (p : ℕ) → has result.bits p ≡ (has self.bits p || place == p) }
        ensures grows { self.bits ≤ result.bits }
    {
        Places {
            bits: self.bits | (1 << place),
        }
    }

    pub(crate) fn union(self, other: Places) -> Places
        ensures { (p : ℕ) → has result.bits p ≡ (has self.bits p || has other.bits p) }
    {
        Places {
            bits: self.bits | other.bits,
        }
    }

    pub(crate) fn without(self, place: usize) -> Places
        requires { place < 64 }
        ensures { (p : ℕ) → has result.bits p ≡ (has self.bits p && not (place == p)) }
    {
        Places {
            bits: self.bits & !(1 << place),
        }
    }
}
