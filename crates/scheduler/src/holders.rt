// Who holds locks on the items of a block, gathered in one pass over the locks.
ghost use Rattle.std.specs.Prelude.{◌≡◌, ◌<◌, replicate};
ghost use Rattle.scheduler.specs.declared.lock.Kind.TheVariants.{Read, Write};
ghost use Rattle.scheduler.specs.Edges.{Covers};
ghost use Rattle.scheduler.specs.Holding.{Holds, Puts};
ghost use Rattle.scheduler.specs.ItemSets.{no_places};
ghost use Rattle.scheduler.specs.Ledger.{same_kind};

use crate::lock::Kind;
use crate::places::Places;
use crate::tables::Tables;

/// How many neighbouring items are looked at together.
pub(crate) const BLOCK: u16 = 1024;

// Tables by item, of fixed memory.
/// For each item of a block, the places of those that hold locks on it.
#[derive(Drop)]
pub(crate) struct Holders {
    pub(crate) block: u16,
    pub(crate) readers: [Places; 1024],
    pub(crate) writers: [Places; 1024],
}

impl Holders {
    /// Adds the place to those that hold a lock of the kind on the item at `j` in the block.
    fn add(&mut self, kind: Kind, j: usize, place: usize)
        requires within { j < 1024 }
        requires place { place < 64 }
        ensures block { self.new.block ≡ self.old.block }
        ensures readers { Puts (same_kind kind Read) self.old.readers self.new.readers j place }
        ensures writers { Puts (same_kind kind Write) self.old.writers self.new.writers j place }
    {
        match kind {
            Kind::Read => self.readers[j] = self.readers[j].with(place),
            Kind::Write => self.writers[j] = self.writers[j].with(place),
        }
    }
}

impl Tables {
    /// The blocks in which there are locks.
    pub(crate) fn blocks(&self) -> Places
        ensures { Covers self.now.locks.inner.items result.bits }
    {
        let locks = self.locks.list();
        let mut blocks = Places::NONE;
        for lock in locks {
            blocks = blocks.with(usize::from(lock.item / BLOCK));
        }
        blocks
    }

    /// Gathers those that hold locks on the items of the block. They are lent, since large arrays are slow to hand out.
    pub(crate) fn gather(&self, holders: &mut Holders)
        requires readers { holders.old.readers ≡ replicate 1024 no_places }
        requires writers { holders.old.writers ≡ replicate 1024 no_places }
        ensures block { holders.new.block ≡ holders.old.block }
        ensures holders { Holds self.now.«open».items self.now.locks.inner.items holders.new }
    {
        let locks = self.locks.list();
        for lock in locks {
            if lock.item / BLOCK == holders.block {
                if let Some(place) = self.find(lock.owner) {
                    holders.add(lock.kind, usize::from(lock.item % BLOCK), place);
                }
            }
        }
    }
}
