// The search for a chain of waits. Who waits for whom is gathered for each block of 1,024 items that has locks, in a
// pass over the locks and one for the commits, however many transactions wait.
ghost use Rattle.std.specs.Prelude.{◌≡◌, ℕ, ◌<◌, false, length, not, ◌&&◌, ◌||◌, Decides, slice_index_or};
ghost use Rattle.scheduler.specs.declared.lock.Kind.TheVariants.{Read, Write};
ghost use Rattle.scheduler.specs.Orders.{no_transaction};
ghost use Rattle.scheduler.specs.Bits.{has};
ghost use Rattle.scheduler.specs.Circles.{Circle};
ghost use Rattle.scheduler.specs.Edges.{Drawn, More, asks, between, commits, in_block};
ghost use Rattle.scheduler.specs.Holding.{Holds};
ghost use Rattle.scheduler.specs.Ledger.{same_kind};
ghost use Rattle.scheduler.specs.Tables.{ledger_of};

use crate::holders::{BLOCK, Holders};
use crate::lock::{Kind, Lock};
use crate::places::Places;
use crate::reach::leading_to;
use crate::rule::LockRule;
use crate::tables::{OPEN, Tables};
use crate::transaction::{Ask, State};

/// Whether the lock is of the kind, on an item of the block.
fn counts(lock: Lock, kind: Kind, block: u16) -> bool
    ensures { result ≡ (same_kind lock.kind kind && in_block block lock.item) }
{
    lock.kind == kind && lock.item / BLOCK == block
}

/// Of the holders of read and of write locks, those beside which the rule says no to the kind.
fn barring<R: LockRule>(rule: &R, kind: Kind, readers: Places, writers: Places) -> Places
    ensures { (a : ℕ) → has result.bits a ≡ ((not (R.allows rule.now kind Read) && has readers.bits a) || (not (R.allows rule.now kind Write) && has writers.bits a)) }
{
    let some = if rule.allows(kind, Kind::Read) {
        Places::NONE
    } else {
        readers
    };
    let more = if rule.allows(kind, Kind::Write) {
        Places::NONE
    } else {
        writers
    };
    some.union(more)
}

impl Tables {
    /// Whom the transaction at the place `b` waits for by what it asks for in the block.
    fn asked_in<R: LockRule>(&self, rule: &R, holders: &Holders, b: usize) -> Places
        requires within { b < length self.now.«open».items }
        requires holders { Holds self.now.«open».items self.now.locks.inner.items holders.now }
        ensures { (a : ℕ) → a < 64 → has result.bits a ≡ between self.now.«open».items (asks (in_block holders.now.block) (R.allows rule.now) self.now.locks.inner.items) b a }
    {
        let State::Waiting(ask) = self.state(b) else {
            return Places::NONE;
        };
        match ask {
            Ask::Read { item } if item / BLOCK == holders.block => {
                let j = usize::from(item % BLOCK);
                if holders.writers[j].contains(b) {
                    return Places::NONE;
                }
                barring(rule, Kind::Read, holders.readers[j], holders.writers[j]).without(b)
            }
            Ask::Write { item, value: _ } if item / BLOCK == holders.block => {
                let j = usize::from(item % BLOCK);
                barring(rule, Kind::Write, holders.readers[j], holders.writers[j]).without(b)
            }
            _ => Places::NONE,
        }
    }

    /// Adds whom each waits for by what it asks for in the block.
    fn add_asks<R: LockRule>(&self, rule: &R, holders: &Holders, rows: &mut [Places; OPEN])
        requires holders { Holds self.now.«open».items self.now.locks.inner.items holders.now }
        ensures { More self.now.«open».items (asks (in_block holders.now.block) (R.allows rule.now) self.now.locks.inner.items) rows.old rows.new }
    {
        // By number, since the place is what is asked for and where the row stands.
        for b in 0..self.open.len() {
            rows[b] = rows[b].union(self.asked_in(rule, holders, b));
        }
    }

    /// Adds whom each that waits to commit waits for by its write locks in the block. By the order of the lock list
    /// every other reader of such an item stands before that write lock.
    fn add_commits(&self, holders: &Holders, rows: &mut [Places; OPEN])
        requires { Holds self.now.«open».items self.now.locks.inner.items holders.now }
        ensures { More self.now.«open».items (commits (in_block holders.now.block) self.now.locks.inner.items self.now.locks.inner.items) rows.old rows.new }
    {
        let locks = self.locks.list();
        for lock in locks {
            if counts(*lock, Kind::Write, holders.block) {
                if let Some(b) = self.find(lock.owner) {
                    if self.state(b).is_committing() {
                        rows[b] = rows[b].union(holders.readers[usize::from(
                            lock.item % BLOCK,
                        )].without(b));
                    }
                }
            }
        }
    }

    /// For each place, the places of those that its transaction waits for: a table by place, of fixed memory.
    fn wait_rows<R: LockRule>(&self, rule: &R) -> [Places; OPEN]
        ensures { Drawn (R.allows rule.now) (ledger_of self.now) result }
    {
        let mut rows = [Places::NONE; OPEN];
        let blocks = self.blocks();
        // By number, since a set of places has no other caller that would go through it.
        for block in 0..64u16 {
            if blocks.contains(usize::from(block)) {
                let mut holders = Holders {
                    block,
                    readers: [Places::NONE; 1024],
                    writers: [Places::NONE; 1024],
                };
                self.gather(&mut holders);
                self.add_asks(rule, &holders, &mut rows);
                self.add_commits(&holders, &mut rows);
            }
        }
        rows
    }

    /// Whether the transaction at the place `i` waits for somebody from whom a chain of waits leads back to it.
    pub(crate) fn closes_circle<R: LockRule>(&self, rule: &R, i: usize) -> bool
        requires { i < length self.now.«open».items }
        ensures { Decides result (Circle (R.allows rule.now) (ledger_of self.now) (slice_index_or self.now.«open».items i no_transaction).number) }
    {
        let rows = self.wait_rows(rule);
        rows[i].meets(leading_to(&rows, i))
    }
}
