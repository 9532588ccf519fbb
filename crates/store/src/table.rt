// The entries that a store keeps beside its slice, in fixed memory.
// An item is widened by `as`, which loses nothing and is no call.
ghost use Rattle.std.specs.Prelude.{◌≡◌, ◌≤◌, ◌<◌, ◌==◌, true, [], ◌∷◌, ◌++◌, length, filter, find, position};
ghost use Rattle.std.specs.Option.{option_copied};
ghost use Rattle.arrayvec.specs.ArrayVec.{array_vec_len};
ghost use Rattle.store.specs.Entries.{bounded, count_of, entry, found, is_on, is_pair, landed, others, revalued};

use crate::belonging::{Belongs, let_go};
use arrayvec::ArrayVec;

/// A value that is kept for a transaction and an item.
#[derive(Clone, Copy, Default)]
pub(crate) struct Entry {
    pub(crate) owner: u16,
    pub(crate) item: u16,
    pub(crate) value: i32,
}

impl Belongs for Entry {
    ghost owner = { λ e. e.owner };

    fn owner(self) -> u16 {
        self.owner
    }
}

/// How many entries a table has room for.
pub(crate) const ROOM: usize = 512;

/// How many values of a slice are items, at most.
pub(crate) const ITEMS: usize = 1024;

/// What a store keeps beside its slice. The slice itself is a field of each store: where it lies deeper in what is lent,
/// the check does not know what it holds once the store is let go.
#[derive(Drop)]
pub(crate) struct Table {
    pub(crate) entries: ArrayVec<Entry, ROOM>,
    ghost fits: { array_vec_len entries ≤ 512 },
}

impl Table {
    pub(crate) fn new() -> Table
        ensures { result.entries.items ≡ [] }
    {
        Table {
            entries: ArrayVec::new(),
        }
    }

    pub(crate) fn len(&self) -> usize
        ensures { result ≡ length self.now.entries.items }
    {
        self.entries.len()
    }

    /// The transaction's value on the item.
    pub(crate) fn value(&self, t: u16, item: u16) -> Option<i32>
        ensures { result ≡ found self.now.entries.items t item }
    {
        self.entries
            .iter()
            .find(|e| e.owner == t && e.item == item)
            .map(|e| e.value)
    }

    /// The place of the transaction's entry on the item.
    pub(crate) fn place(&self, t: u16, item: u16) -> Option<usize>
        ensures { result ≡ position (is_pair t item) self.now.entries.items }
    {
        self.entries
            .iter()
            .position(|e| e.owner == t && e.item == item)
    }

    /// The entry on the item, whose ever it is.
    pub(crate) fn on(&self, item: u16) -> Option<&Entry>
        ensures { option_copied result ≡ find (is_on item) self.now.entries.items }
    {
        self.entries.iter().find(|e| e.item == item)
    }

    /// How many entries are the transaction's.
    pub(crate) fn count(&self, t: u16) -> usize
        ensures { result ≡ count_of t self.now.entries.items }
    {
        self.entries.iter().filter(|e| e.owner == t).count()
    }

    /// Adds an entry at the end. There must be room.
    pub(crate) fn push(&mut self, owner: u16, item: u16, value: i32)
        requires { array_vec_len self.old.entries < 512 }
        ensures { self.new.entries.items ≡ self.old.entries.items ++ entry owner item value ∷ [] }
    {
        self.entries.push(Entry { owner, item, value });
    }

    /// Gives the entry at a place another value.
    pub(crate) fn replace(&mut self, k: usize, value: i32)
        requires { k < array_vec_len self.old.entries }
        ensures { self.new.entries.items ≡ revalued self.old.entries.items k value }
    {
        self.entries[k].value = value;
    }

    /// Takes the transaction's entries out, and leaves the others in their order.
    pub(crate) fn forget(&mut self, t: u16)
        ensures { self.new.entries.items ≡ filter (others t) self.old.entries.items }
    {
        let_go(&mut self.entries, t);
    }

    /// Puts the values of the transaction's entries into their places.
    pub(crate) fn land(&self, t: u16, values: &mut [i32])
        requires { bounded (length values.old) self.now.entries.items ≡ true }
        ensures { values.new ≡ landed t self.now.entries.items values.old }
    {
        for e in self.entries.as_slice() {
            if e.owner == t {
                values[e.item as usize] = e.value;
            }
        }
    }
}
