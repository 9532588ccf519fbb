// A store that writes into the caller's slice at once, and keeps what stood there before.
// An item is widened by `as`, which loses nothing and is no call.
ghost use Rattle.std.specs.Prelude.{◌≡◌, ◌≤◌, true, false, [], ◌∷◌};
ghost use Rattle.store.specs.Entries.{apart, bounded, same_item, size_of};
ghost use Rattle.store.specs.Meaning.{nothing};
ghost use Rattle.store.specs.Slices.{committed_behind, in_place_slice, items, pending_in, rest};
ghost use Rattle.store.specs.Soundness.{in_place_sound};

use crate::on_slice::OnSlice;
use crate::store::Store;
use crate::table::{ITEMS, ROOM, Table};
use records::refusal::{Layer, Reason, Refusal};

/// A store in the caller's slice: an item's pending value stands in the slice, and the table keeps the item's
/// before-image, which is its committed value meanwhile.
#[derive(Drop)]
pub struct InPlace<'a> {
    values: &'a mut [i32],
    images: Table,
    ghost apart: { apart same_item images.entries.items ≡ true },
    ghost bounded: { bounded (size_of values.now) images.entries.items ≡ true },
}

// What `OnSlice` has, for a caller that names the type and has no trait in scope.
impl<'a> InPlace<'a> {
    /// Opens a store on a slice; the slice's values are the committed ones.
    pub fn open(values: &'a mut [i32]) -> InPlace<'a>
        ensures committed { committed_behind result.images.entries.items result.values.now ≡ items values.old }
        ensures pending { pending_in result.images.entries.items result.values.now ≡ nothing }
        ensures outside { rest result.values.now ≡ rest values.old }
        ensures home { result.values.ghost_name ≡ values.entry.ghost_name }
    {
        OnSlice::open(values)
    }

    /// The slice as it stands: the committed values with all pending ones over them, and what are no items.
    pub fn values(&self) -> &[i32]
        ensures { result.now ≡ in_place_slice (committed_behind self.now.images.entries.items self.now.values.now) (pending_in self.now.images.entries.items self.now.values.now) (rest self.now.values.now) }
    {
        OnSlice::values(self)
    }

    /// Ends the store and gives the slice back, pending values and all.
    pub fn close(self) -> &'a mut [i32]
        ensures slice { result.now ≡ in_place_slice (committed_behind self.entry.images.entries.items self.entry.values.now) (pending_in self.entry.images.entries.items self.entry.values.now) (rest self.entry.values.now) }
        ensures home { result.ghost_name ≡ self.entry.values.ghost_name }
    {
        OnSlice::close(self)
    }
}

impl Store for InPlace<'_> {
    const ROOM: usize = ROOM;

    const SHARE: usize = ROOM;

    const PRIVATE: bool = false;

    ghost committed = { λ s. committed_behind s.images.entries.items s.values.now };

    ghost pending = { λ s. pending_in s.images.entries.items s.values.now };

    ghost room = { 512 };

    ghost share = { 512 };

    ghost private = { false };

    ghost place = { λ s. record { home = s.values.ghost_name ∷ []; outside = rest s.values.now } };

    // The functions down to `held` are a line each in both stores, so nothing shared would be shorter.
    fn capacity() -> usize
        ensures { result ≡ 512 }
    {
        Self::ROOM
    }

    fn quota() -> usize
        ensures { result ≡ 512 }
    {
        Self::SHARE
    }

    fn is_private() -> bool
        ensures { result ≡ false }
    {
        Self::PRIVATE
    }

    fn size(&self) -> usize {
        self.values.len().min(ITEMS)
    }

    fn held(&self) -> usize {
        self.images.entries.len()
    }

    fn look(&self, t: u16, item: u16) -> Result<i32, Refusal> {
        if self.size() <= item as usize {
            return Err(Layer::Store.refusal(Reason::NoSuchItem));
        }
        match self.images.on(item) {
            Some(image) if image.owner != t => Ok(image.value),
            _ => Ok(self.values[item as usize]),
        }
    }

    fn put(&mut self, t: u16, item: u16, value: i32) -> Result<(), Refusal> {
        let i = item as usize;
        if self.size() <= i {
            return Err(Layer::Store.refusal(Reason::NoSuchItem));
        }
        match self.images.on(item) {
            None => {
                // The share is the whole room, so the room alone decides.
                if self.images.len() == Self::ROOM {
                    return Err(Layer::Store.refusal(Reason::NoRoom));
                }
                let before = self.values[i];
                self.images.push(t, item, before);
            }
            Some(image) => {
                if image.owner != t {
                    return Err(Layer::Store.refusal(Reason::ItemTaken));
                }
                // The before-image of the first put stays.
            }
        }
        self.values[i] = value;
        Ok(())
    }

    fn publish(&mut self, t: u16) {
        self.images.forget(t);
    }

    fn discard(&mut self, t: u16) {
        self.images.land(t, self.values);
        self.images.forget(t);
    }

    ghost sound = { λ s. in_place_sound s.images.entries.items s.values.now s.images.fits s.bounded s.apart };
}

impl<'a> OnSlice<'a> for InPlace<'a> {
    // The committed values with all pending ones over them, and what are no items.
    ghost holds = { in_place_slice };

    fn open(values: &'a mut [i32]) -> InPlace<'a> {
        let images = Table::new();
        InPlace { values, images }
    }

    fn values(&self) -> &[i32] {
        &*self.values
    }

    fn close(self) -> &'a mut [i32] {
        let values = self.values;
        values
    }
}
