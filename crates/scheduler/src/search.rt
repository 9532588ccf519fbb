// The search through the locks.
ghost use Rattle.std.specs.Prelude.{◌≡◌, ◌&&◌, ◌||◌};
ghost use Rattle.scheduler.specs.declared.lock.Kind.TheVariants.{Read, Write};
ghost use Rattle.scheduler.specs.Blockers.{ahead, barring, bars, blockers, reads_beside};
ghost use Rattle.scheduler.specs.ItemSets.{has_item};
ghost use Rattle.scheduler.specs.Ledger.{holds, is_lock, missing};
ghost use Rattle.scheduler.specs.Picked.{Picked};

use crate::items::Items;
use crate::lock::{Kind, Lock};
use crate::rule::LockRule;
use crate::transaction::Ask;

/// Whether `lock` is the transaction's lock of the kind on the item.
fn is_lock(lock: Lock, t: u16, item: u16, kind: Kind) -> bool
    ensures { result ≡ is_lock t item kind lock }
{
    lock.owner == t && lock.item == item && lock.kind == kind
}

/// Whether the transaction holds a lock of the kind on the item.
pub(crate) fn holds(locks: &[Lock], t: u16, item: u16, kind: Kind) -> bool
    ensures { result ≡ holds t item kind locks.now }
{
    // A loop, since `any` was slower on a full list.
    for lock in locks {
        if is_lock(*lock, t, item, kind) {
            return true;
        }
    }
    false
}

/// Whether the transaction holds a lock on the item.
pub(crate) fn holds_any(locks: &[Lock], t: u16, item: u16) -> bool
    ensures { result ≡ (holds t item Read locks.now || holds t item Write locks.now) }
{
    holds(locks, t, item, Kind::Read) || holds(locks, t, item, Kind::Write)
}

/// The lock of the kind on the item, unless the transaction has one that serves: for a read any, for a write a write
/// lock.
pub(crate) fn missing(locks: &[Lock], t: u16, item: u16, kind: Kind) -> Option<Lock>
    ensures { result ≡ missing t item kind locks.now }
{
    let serves = match kind {
        Kind::Read => holds_any(locks, t, item),
        Kind::Write => holds(locks, t, item, Kind::Write),
    };
    if serves {
        return None;
    }
    Some(Lock {
        owner: t,
        item,
        kind,
    })
}

/// Whether `lock` is another transaction's on the item, and the rule says no to the kind beside it.
fn bars<R: LockRule>(lock: Lock, rule: &R, t: u16, item: u16, kind: Kind) -> bool
    ensures { result ≡ bars (R.allows rule.now) t item kind lock }
{
    lock.owner != t && lock.item == item && !rule.allows(kind, lock.kind)
}

/// Another transaction with such a lock.
fn barring<R: LockRule>(locks: &[Lock], rule: &R, t: u16, item: u16, kind: Kind) -> Option<u16>
    ensures { Picked result (barring (R.allows rule.now) t item kind locks.now) }
{
    // A loop, since `find` was slower on a full list.
    for lock in locks {
        if bars(*lock, rule, t, item, kind) {
            return Some(lock.owner);
        }
    }
    None
}

/// Whether `lock` is another transaction's read lock on one of the items.
fn reads_one_of(lock: Lock, t: u16, items: &Items) -> bool
    ensures { result ≡ (reads_beside t lock && has_item items.now.words lock.item) }
{
    lock.owner != t && lock.kind == Kind::Read && items.contains(lock.item)
}

/// Another transaction with a read lock that stands before a write lock of `t` on the same item: from the end
/// backwards, `written` has the items on which a write lock of `t` stands behind.
fn ahead(locks: &[Lock], t: u16) -> Option<u16>
    ensures { Picked result (ahead t locks.now) }
{
    let mut written = Items::none();
    for lock in locks.iter().rev() {
        if reads_one_of(*lock, t, &written) {
            return Some(lock.owner);
        }
        if is_lock(*lock, t, lock.item, Kind::Write) {
            written.insert(lock.item);
        }
    }
    None
}

/// One of those that block what the transaction asks for.
pub(crate) fn blocker<R: LockRule>(locks: &[Lock], rule: &R, t: u16, ask: Ask) -> Option<u16>
    ensures { Picked result (blockers (R.allows rule.now) locks.now t ask) }
{
    match ask {
        Ask::Read { item } => {
            if holds(locks, t, item, Kind::Write) {
                return None;
            }
            barring(locks, rule, t, item, Kind::Read)
        }
        Ask::Write { item, value: _ } => barring(locks, rule, t, item, Kind::Write),
        Ask::Commit => ahead(locks, t),
    }
}
