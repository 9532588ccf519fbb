// A lock, and the two kinds of it.

use store::belonging::Belongs;

#[derive(Clone, Copy, PartialEq, Eq, Debug, Default)]
pub enum Kind {
    #[default]
    Read,
    Write,
}

/// A transaction's lock on an item.
#[derive(Clone, Copy, PartialEq, Eq, Debug, Default)]
pub struct Lock {
    pub owner: u16,
    pub item: u16,
    pub kind: Kind,
}

impl Belongs for Lock {
    ghost owner = { λ l. l.owner };

    fn owner(self) -> u16 {
        self.owner
    }
}
