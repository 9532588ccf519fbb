// What every value store is and does.
ghost use Rattle.std.specs.Prelude.{◌≡◌, ℕ, Bool, List, length, ℤ, is_ok, if◌then◌else◌, Option};
ghost use Rattle.store.specs.Meaning.{Place, Sound, answered, held_count, laid, looked, refused, without, written};

use records::refusal::Refusal;

/// A store of values. Its items are 0 to its size - 1. It means a committed value for each item, and for a pair of a
/// transaction and an item at most one pending write.
pub trait Store {
    /// The greatest number of pending writes.
    const ROOM: usize;
    /// The greatest number of pending writes of one transaction.
    const SHARE: usize;
    /// Two transactions may have pending writes on one item.
    const PRIVATE: bool;

    ghost committed: { Self → List ℤ };

    ghost pending: { Self → ℕ → ℕ → Option ℤ };

    // The constants once more, each with a function: at a type with a lifetime a ghost member of the constant's own name
    // is refused ("cannot give this method the clauses of its trait yet").
    ghost room: { ℕ };

    ghost share: { ℕ };

    ghost private: { Bool };

    // Where the memory of a store lies; no call changes it.
    ghost place: { Self → Place };

    /// `ROOM`, by which code over any store reads it.
    fn capacity() -> usize
        ensures { result ≡ room };

    /// `SHARE`, likewise.
    fn quota() -> usize
        ensures { result ≡ share };

    /// `PRIVATE`, likewise.
    fn is_private() -> bool
        ensures { result ≡ private };

    /// The number of items.
    fn size(&self) -> usize
        ensures { result ≡ length (committed self.now) };

    /// The number of pending writes.
    fn held(&self) -> usize
        ensures { result ≡ held_count (pending self.now) (length (committed self.now)) };

    /// The transaction's pending value on the item, or else the committed value.
    fn look(&self, t: u16, item: u16) -> Result<i32, Refusal>
        ensures { result ≡ looked (committed self.now) (pending self.now) t item };

    /// Makes the value the pending one of the transaction on the item.
    fn put(&mut self, t: u16, item: u16, value: i32) -> Result<(), Refusal>
        ensures answer { result ≡ answered (refused private room share (committed self.old) (pending self.old) t item) }
        ensures committed { committed self.new ≡ committed self.old }
        ensures pending { pending self.new ≡ (if is_ok result then written (pending self.old) t item value else pending self.old) }
        ensures place { place self.new ≡ place self.old };

    /// Turns the transaction's pending writes into committed values.
    fn publish(&mut self, t: u16)
        ensures committed { committed self.new ≡ laid (pending self.old t) (committed self.old) }
        ensures pending { pending self.new ≡ without (pending self.old) t }
        ensures place { place self.new ≡ place self.old };

    /// Drops the transaction's pending writes.
    fn discard(&mut self, t: u16)
        ensures committed { committed self.new ≡ committed self.old }
        ensures pending { pending self.new ≡ without (pending self.old) t }
        ensures place { place self.new ≡ place self.old };

    // What the meaning of a store keeps at all times.
    ghost sound: { (s : Self) → Sound private room share (committed s) (pending s) };
}
