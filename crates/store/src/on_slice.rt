// A store over a slice that the caller lends.
ghost use Rattle.std.specs.Prelude.{◌≡◌, List, ℤ, [], ◌∷◌};
ghost use Rattle.store.specs.Meaning.{Writes, nothing};
ghost use Rattle.store.specs.Slices.{items, rest};

use crate::store::Store;

/// A store over a slice that is lent to it.
pub trait OnSlice<'a>: Store {
    // What the slice holds, by the committed values, the pending writes and the values that are no items.
    ghost holds: { List ℤ → Writes → List ℤ → List ℤ };

    /// Opens a store on a slice; the slice's values are the committed ones.
    fn open(values: &'a mut [i32]) -> Self
        ensures committed { Self.committed result ≡ items values.old }
        ensures pending { Self.pending result ≡ nothing }
        ensures outside { (Self.place result).outside ≡ rest values.old }
        ensures home { (Self.place result).home ≡ values.entry.ghost_name ∷ [] }
        ensures slice { holds (Self.committed result) (Self.pending result) (Self.place result).outside ≡ values.old };

    /// The slice as it stands.
    fn values(&self) -> &[i32]
        ensures { result.now ≡ holds (Self.committed self.now) (Self.pending self.now) (Self.place self.now).outside };

    /// Ends the store and gives the slice back.
    fn close(self) -> &'a mut [i32]
        ensures slice { result.now ≡ holds (Self.committed self) (Self.pending self) (Self.place self).outside }
        ensures home { (Self.place self).home ≡ result.ghost_name ∷ [] };
}
