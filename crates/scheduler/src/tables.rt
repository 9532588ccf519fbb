// The tables that the scheduler keeps.
ghost use Rattle.std.specs.Prelude.{◌≡◌, ◌≤◌, true, length};
ghost use Rattle.scheduler.specs.Orders.{rising};

use crate::lock_list::LockList;
use crate::transaction::Transaction;
use arrayvec::ArrayVec;

/// How many transactions may begin.
pub const BEGINS: u16 = 60_000;

/// How many transactions may be open.
pub const OPEN: usize = 64;

/// The number of begins, the open transactions in the order of their opening, and the locks.
#[derive(Drop)]
pub struct Tables {
    pub(crate) begins: u16,
    pub(crate) open: ArrayVec<Transaction, OPEN>,
    pub(crate) locks: LockList,
    ghost counted: { begins ≤ 60000 },
    ghost few: { length «open».items ≤ 64 },
    ghost rising: { rising 0 begins «open».items ≡ true },
}
