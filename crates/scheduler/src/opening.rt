// Finding, opening, restating and closing transactions in the tables.
ghost use Rattle.std.specs.Prelude.{◌≡◌, ◌+◌, ◌<◌, length, IfOk, IfSome, slice_index_or};
ghost use Rattle.scheduler.specs.Orders.{no_transaction};
ghost use Rattle.scheduler.specs.Blockers.{blockers};
ghost use Rattle.scheduler.specs.Found.{At, Found};
ghost use Rattle.scheduler.specs.Fresh.{Fresh};
ghost use Rattle.scheduler.specs.Ledger.{empty, missing, struck};
ghost use Rattle.scheduler.specs.Moves.{begun, given, moved};
ghost use Rattle.scheduler.specs.Picked.{Picked};
ghost use Rattle.scheduler.specs.Steps.{with_room};
ghost use Rattle.scheduler.specs.Tables.{ledger_of};

use crate::lock::{Kind, Lock};
use crate::lock_list::LockList;
use crate::rule::LockRule;
use crate::search;
use crate::tables::Tables;
use crate::transaction::{Ask, State, Transaction};
use arrayvec::ArrayVec;
use records::refusal::{Layer, Reason, Refusal};
use store::belonging::let_go;

// That a place is one of an open transaction is asked of each call: it is a fact of the tables and of the place.
impl Tables {
    pub(crate) fn new() -> Tables
        ensures { ledger_of result ≡ empty }
    {
        Tables {
            begins: 0,
            open: ArrayVec::new(),
            locks: LockList::new(),
        }
    }

    /// Where the transaction stands among the open ones, whose numbers rise.
    pub(crate) fn find(&self, t: u16) -> Option<usize>
        ensures { Found self.now.«open».items t result }
    {
        // By hand, since the library's search has no early exit, and this is called for each lock.
        let list = self.open.as_slice();
        let mut low = 0;
        let mut high = list.len();
        while low < high {
            let mid = (low + high) / 2;
            let number = list[mid].number;
            if number == t {
                return Some(mid);
            }
            if number < t {
                low = mid + 1;
            } else {
                high = mid;
            }
        }
        None
    }

    pub(crate) fn state(&self, i: usize) -> State
        requires { i < length self.now.«open».items }
        ensures { result ≡ (slice_index_or self.now.«open».items i no_transaction).state }
    {
        self.open[i].state
    }

    /// One of those that block what the transaction asks for.
    pub(crate) fn blocker<R: LockRule>(&self, rule: &R, t: u16, ask: Ask) -> Option<u16>
        ensures { Picked result (blockers (R.allows rule.now) self.now.locks.inner.items t ask) }
    {
        search::blocker(self.locks.list(), rule, t, ask)
    }

    /// Opens the next transaction.
    pub(crate) fn begin(&mut self) -> u16
        requires room { length self.old.«open».items < 64 }
        requires left { self.old.begins < 60000 }
        ensures number { result ≡ self.old.begins + 1 }
        ensures ledger { ledger_of self.new ≡ begun result (ledger_of self.old) }
    {
        let number = self.begins + 1;
        self.open.push(Transaction {
            number,
            state: State::Active,
        });
        self.begins = number;
        number
    }

    /// Puts the transaction at the place `i` into the state.
    pub(crate) fn restate(&mut self, i: usize, state: State)
        requires { i < length self.old.«open».items }
        ensures { ledger_of self.new ≡ moved i state (ledger_of self.old) }
    {
        self.open[i].state = state;
    }

    /// Strikes out the transaction and its locks.
    pub(crate) fn close(&mut self, t: u16)
        ensures { ledger_of self.new ≡ struck t (ledger_of self.old) }
    {
        let_go(&mut self.open, t);
        self.locks.remove_owner(t);
    }

    /// The lock that the transaction lacks for the kind on the item, if it does; refused where the list is full.
    pub(crate) fn missing(&self, t: u16, item: u16, kind: Kind) -> Result<Option<Lock>, Refusal>
        ensures answer { result ≡ with_room (missing t item kind self.now.locks.inner.items) (ledger_of self.now) }
        ensures room { IfOk result (λ l. IfSome l (λ _. length self.now.locks.inner.items < 2048)) }
    {
        let missing = search::missing(self.locks.list(), t, item, kind);
        if missing.is_some() && self.locks.is_full() {
            return Err(Layer::Scheduler.refusal(Reason::LockListFull));
        }
        Ok(missing)
    }

    /// Puts the missing lock at the end, if there is one, and makes the transaction at the place `i` active.
    pub(crate) fn grant(&mut self, i: usize, missing: Option<Lock>)
        requires within { i < length self.old.«open».items }
        requires room { IfSome missing (λ _. length self.old.locks.inner.items < 2048) }
        requires fresh { IfSome missing (Fresh self.old.locks.inner.items) }
        ensures { ledger_of self.new ≡ given i missing (ledger_of self.old) }
    {
        if let Some(lock) = missing {
            self.locks.push(lock);
        }
        self.restate(i, State::Active);
    }
}
