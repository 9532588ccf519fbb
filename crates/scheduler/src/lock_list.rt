// The lock list, with what always holds of it.
ghost use Rattle.std.specs.Prelude.{◌≡◌, ◌<◌, ◌≤◌, true, false, not, [], ◌∷◌, ◌++◌, length, filter, nat_le};
ghost use Rattle.scheduler.specs.Fresh.{Fresh};
ghost use Rattle.scheduler.specs.Ledger.{unlocked};
ghost use Rattle.scheduler.specs.Orders.{orderly};

use crate::lock::Lock;
use arrayvec::ArrayVec;
use store::belonging::let_go;

/// How many locks there may be.
pub const LOCKS: usize = 2048;

/// The locks in the order of granting. A transaction has at most one lock of a kind on an item, and no read lock
/// stands behind another transaction's write lock on one item.
#[derive(Drop)]
pub struct LockList {
    pub(crate) inner: ArrayVec<Lock, LOCKS>,
    ghost fits: { length inner.items ≤ 2048 },
    ghost orderly: { orderly inner.items ≡ true },
}

impl LockList {
    pub(crate) fn new() -> LockList
        ensures { result.inner.items ≡ [] }
    {
        LockList {
            inner: ArrayVec::new(),
        }
    }

    pub(crate) fn list(&self) -> &[Lock]
        ensures { result.now ≡ self.now.inner.items }
    {
        self.inner.as_slice()
    }

    pub(crate) fn is_full(&self) -> bool
        ensures value { result ≡ nat_le 2048 (length self.now.inner.items) }
        ensures room { result ≡ false → length self.now.inner.items < 2048 }
    {
        self.inner.is_full()
    }

    pub(crate) fn push(&mut self, lock: Lock)
        requires room { length self.old.inner.items < 2048 }
        requires fresh { Fresh self.old.inner.items lock }
        ensures { self.new.inner.items ≡ self.old.inner.items ++ lock ∷ [] }
    {
        self.inner.push(lock);
    }

    pub(crate) fn remove_owner(&mut self, t: u16)
        ensures { self.new.inner.items ≡ unlocked t self.old.inner.items }
    {
        let_go(&mut self.inner, t);
    }
}
