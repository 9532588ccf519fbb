// Sets of items. An item is widened by `as`, which loses nothing and is no call.
ghost use Rattle.std.specs.Prelude.{◌≡◌, ℕ, false, ◌||◌, ◌==◌};
ghost use Rattle.scheduler.specs.ItemSets.{has_item};

use crate::places::Places;

// A table by number, of fixed memory.
/// A set of items: one place for each number of 16 bits.
#[derive(Drop)]
pub struct Items {
    pub(crate) words: [Places; 1024],
}

impl Items {
    pub(crate) fn none() -> Items
        ensures { (x : ℕ) → has_item result.words x ≡ false }
    {
        Items {
            words: [Places::NONE; 1024],
        }
    }

    pub(crate) fn contains(&self, item: u16) -> bool
        ensures { result ≡ has_item self.now.words item }
    {
        self.words[(item / 64) as usize].contains((item % 64) as usize)
    }

    pub(crate) fn insert(&mut self, item: u16)
        ensures { (x : ℕ) → has_item self.new.words x ≡ (has_item self.old.words x || item == x) }
    {
        let word = (item / 64) as usize;
        self.words[word] = self.words[word].with((item % 64) as usize);
    }
}
