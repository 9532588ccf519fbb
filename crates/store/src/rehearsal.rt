// A rehearsal: some writes are tried, and nothing stays of them.
ghost use Rattle.std.specs.Prelude.{◌≡◌, ℕ, None, ◌≢◌};
ghost use Rattle.store.specs.Meaning.{looked, without};
ghost use Rattle.store.specs.Rehearsals.{accepted};

use crate::store::Store;

/// A value for an item.
#[derive(Clone, Copy, PartialEq, Eq, Debug)]
pub struct Write {
    pub item: u16,
    pub value: i32,
}

/// Makes the transaction's writes one after another, then drops all that the transaction has pending. Says how many
/// were accepted. To everybody else, and to the transaction where it had nothing pending, it is as if nothing had been.
pub fn rehearse<S: Store>(store: &mut S, t: u16, writes: &[Write]) -> usize
    ensures accepted { result ≡ accepted S.private S.room S.share (S.committed store.old) (S.pending store.old) t writes.now }
    ensures committed { S.committed store.new ≡ S.committed store.old }
    ensures pending { S.pending store.new ≡ without (S.pending store.old) t }
    ensures untouched { ((i : ℕ) → S.pending store.old t i ≡ None) → S.pending store.new ≡ S.pending store.old }
    ensures others { (u i : ℕ) → (u ≢ t) → looked (S.committed store.new) (S.pending store.new) u i ≡ looked (S.committed store.old) (S.pending store.old) u i }
    ensures own { (i : ℕ) → S.pending store.old t i ≡ None → looked (S.committed store.new) (S.pending store.new) t i ≡ looked (S.committed store.old) (S.pending store.old) t i }
    ensures place { S.place store.new ≡ S.place store.old }
{
    // No chain: of a store that a closure changed, a proof knows nothing afterwards.
    let mut count = 0;
    for w in writes {
        if store.put(t, w.item, w.value).is_ok() {
            count += 1;
        }
    }
    store.discard(t);
    count
}
