// A store that keeps pending writes in a workspace, and touches the caller's slice only when it publishes.
// An item is widened by `as`, which loses nothing and is no call.
ghost use Rattle.std.specs.Prelude.{◌≡◌, ℕ, ◌≤◌, true, [], ◌∷◌};
ghost use Rattle.store.specs.Entries.{apart, bounded, count_of, found, same_pair, size_of};
ghost use Rattle.store.specs.Meaning.{nothing};
ghost use Rattle.store.specs.Slices.{items, private_slice, rest};
ghost use Rattle.store.specs.Soundness.{private_sound};

use crate::on_slice::OnSlice;
use crate::store::Store;
use crate::table::{ITEMS, ROOM, Table};
use records::refusal::{Layer, Reason, Refusal};

/// A store beside the caller's slice: the slice has the committed values, and the table the pending writes.
#[derive(Drop)]
pub struct Private<'a> {
    values: &'a mut [i32],
    writes: Table,
    ghost apart: { apart same_pair writes.entries.items ≡ true },
    ghost bounded: { bounded (size_of values.now) writes.entries.items ≡ true },
    ghost shares: { (t : ℕ) → count_of t writes.entries.items ≤ 64 },
}

// What `OnSlice` has, for a caller that names the type and has no trait in scope.
impl<'a> Private<'a> {
    /// Opens a store on a slice; the slice's values are the committed ones.
    pub fn open(values: &'a mut [i32]) -> Private<'a>
        ensures committed { items result.values.now ≡ items values.old }
        ensures pending { found result.writes.entries.items ≡ nothing }
        ensures outside { rest result.values.now ≡ rest values.old }
        ensures home { result.values.ghost_name ≡ values.entry.ghost_name }
    {
        OnSlice::open(values)
    }

    /// The slice as it stands: the committed values, and what are no items.
    pub fn values(&self) -> &[i32]
        ensures { result.now ≡ private_slice (items self.now.values.now) (rest self.now.values.now) }
    {
        OnSlice::values(self)
    }

    /// Ends the store and gives the slice back; pending writes are lost.
    pub fn close(self) -> &'a mut [i32]
        ensures slice { result.now ≡ private_slice (items self.entry.values.now) (rest self.entry.values.now) }
        ensures home { result.ghost_name ≡ self.entry.values.ghost_name }
    {
        OnSlice::close(self)
    }
}

impl Store for Private<'_> {
    const ROOM: usize = ROOM;

    const SHARE: usize = 64;

    const PRIVATE: bool = true;

    ghost committed = { λ s. items s.values.now };

    ghost pending = { λ s. found s.writes.entries.items };

    ghost room = { 512 };

    ghost share = { 64 };

    ghost private = { true };

    ghost place = { λ s. record { home = s.values.ghost_name ∷ []; outside = rest s.values.now } };

    // The functions down to `held` are a line each in both stores, so nothing shared would be shorter.
    fn capacity() -> usize
        ensures { result ≡ 512 }
    {
        Self::ROOM
    }

    fn quota() -> usize
        ensures { result ≡ 64 }
    {
        Self::SHARE
    }

    fn is_private() -> bool
        ensures { result ≡ true }
    {
        Self::PRIVATE
    }

    fn size(&self) -> usize {
        self.values.len().min(ITEMS)
    }

    fn held(&self) -> usize {
        self.writes.entries.len()
    }

    fn look(&self, t: u16, item: u16) -> Result<i32, Refusal> {
        if self.size() <= item as usize {
            return Err(Layer::Store.refusal(Reason::NoSuchItem));
        }
        match self.writes.value(t, item) {
            Some(value) => Ok(value),
            None => Ok(self.values[item as usize]),
        }
    }

    fn put(&mut self, t: u16, item: u16, value: i32) -> Result<(), Refusal> {
        if self.size() <= item as usize {
            return Err(Layer::Store.refusal(Reason::NoSuchItem));
        }
        if let Some(k) = self.writes.place(t, item) {
            self.writes.replace(k, value);
            return Ok(());
        }
        if self.writes.len() == Self::ROOM || self.writes.count(t) >= Self::SHARE {
            return Err(Layer::Store.refusal(Reason::NoRoom));
        }
        self.writes.push(t, item, value);
        Ok(())
    }

    fn publish(&mut self, t: u16) {
        self.writes.land(t, self.values);
        self.writes.forget(t);
    }

    fn discard(&mut self, t: u16) {
        self.writes.forget(t);
    }

    ghost sound = { λ s. private_sound s.writes.entries.items s.values.now s.writes.fits s.bounded s.apart s.shares };
}

impl<'a> OnSlice<'a> for Private<'a> {
    // The committed values, and what are no items.
    ghost holds = { λ cs _ outside. private_slice cs outside };

    fn open(values: &'a mut [i32]) -> Private<'a> {
        let writes = Table::new();
        Private { values, writes }
    }

    fn values(&self) -> &[i32] {
        &*self.values
    }

    fn close(self) -> &'a mut [i32] {
        let values = self.values;
        values
    }
}
