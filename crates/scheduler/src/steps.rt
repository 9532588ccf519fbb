// The steps of a call.
ghost use Rattle.std.specs.Prelude.{◌≡◌, [], Some, None, Ok};
ghost use Rattle.scheduler.specs.declared.transaction.Ask.TheVariants.{Read as AskRead, Write as AskWrite};
ghost use Rattle.records.specs.declared.request.Request.TheVariants.{Begin};
ghost use Rattle.scheduler.specs.Blockers.{In};
ghost use Rattle.scheduler.specs.Calls.{called, sought};
ghost use Rattle.scheduler.specs.Found.{At};
ghost use Rattle.scheduler.specs.Ledger.{empty, state_of};
ghost use Rattle.scheduler.specs.Steps.{Blocked, checked};
ghost use Rattle.scheduler.specs.Tables.{ledger_of};
ghost use Rattle.scheduler.specs.Seen.{Answered, Called, Does, Kept, Moved, Tries, blockers_in, granted_by, refusal_of};

use crate::call::Call;
use crate::lock::Kind;
use crate::reply::Reply;
use crate::rule::LockRule;
use crate::scheduler::Scheduler;
use crate::tables::{BEGINS, OPEN, Tables};
use crate::transaction::{Ask, State, Transaction};
use records::refusal::{Layer, Reason, Refusal};
use records::request::Request;
use store::store::Store;

/// Whether a rule and a store go together.
fn pair_refusal<S: Store, R: LockRule>(store: &S, rule: &R) -> Option<Refusal>
    ensures { result ≡ refusal_of S.Store R.LockRule store.now rule.now }
{
    if rule.allows(Kind::Write, Kind::Write) && !S::is_private() {
        return Some(Layer::Scheduler.refusal(Reason::Pair));
    }
    if store.held() != 0 {
        return Some(Layer::Scheduler.refusal(Reason::PendingAtOpening));
    }
    None
}

// The answer, the step and what stays the same are a clause each in every step, since each is a fact of its own.
impl<S: Store, R: LockRule> Scheduler<S, R> {
    /// A scheduler with empty tables.
    pub fn open(store: S, rule: R) -> Scheduler<S, R>
        ensures store { result.store ≡ store }
        ensures rule { result.rule ≡ rule }
        ensures refusal { result.refusal ≡ refusal_of S.Store R.LockRule store rule }
        ensures tables { ledger_of result.tables ≡ empty }
    {
        let refusal = pair_refusal(&store, &rule);
        Scheduler {
            store,
            rule,
            refusal,
            tables: Tables::new(),
        }
    }

    /// Gives the store back, with whatever is pending in it.
    pub fn into_store(self) -> S
    where
        R: Drop,
        ensures { result ≡ self.store }
    {
        let Scheduler {
            store,
            rule: _,
            refusal: _,
            tables: _,
        } = self;
        store
    }

    /// The open transactions, in the order of their opening.
    pub fn transactions(&self) -> &[Transaction]
        ensures { result.now ≡ (ledger_of self.now.tables).opens }
    {
        self.tables.open.as_slice()
    }

    // Where a transaction stands and its number go together, as `find` gives them; the fact that ties them is of the tables, so they
    // are no struct.

    /// A read that nobody blocks.
    fn grant_read(&mut self, i: usize, t: u16, item: u16) -> Result<Reply, Refusal>
        requires at { At self.old.tables.«open».items t i }
        requires free { blockers_in R.LockRule self.old t (AskRead item) ≡ [] }
        ensures answer { result ≡ granted_by S.Store self.old t (AskRead item) }
        ensures step { Moved S.Store self.old (Some (AskRead item)) result self.new }
        ensures same { Kept S.Store self.old self.new }
    {
        let missing = self.tables.missing(t, item, Kind::Read)?;
        let value = self.store.look(t, item)?;
        self.tables.grant(i, missing);
        Ok(Reply::Value { t, item, value })
    }

    /// A write that nobody blocks.
    fn grant_write(&mut self, i: usize, t: u16, item: u16, value: i32) -> Result<Reply, Refusal>
        requires at { At self.old.tables.«open».items t i }
        ensures answer { result ≡ granted_by S.Store self.old t (AskWrite item value) }
        ensures step { Moved S.Store self.old (Some (AskWrite item value)) result self.new }
        ensures same { Kept S.Store self.old self.new }
    {
        let missing = self.tables.missing(t, item, Kind::Write)?;
        self.store.put(t, item, value)?;
        self.tables.grant(i, missing);
        Ok(Reply::Written { t, item })
    }

    /// What nobody blocks.
    fn grant(&mut self, i: usize, t: u16, ask: Ask) -> Result<Reply, Refusal>
        requires at { At self.old.tables.«open».items t i }
        requires free { blockers_in R.LockRule self.old t ask ≡ [] }
        ensures answer { result ≡ granted_by S.Store self.old t ask }
        ensures step { Moved S.Store self.old (Some ask) result self.new }
        ensures same { Kept S.Store self.old self.new }
    {
        match ask {
            Ask::Read { item } => self.grant_read(i, t, item),
            Ask::Write { item, value } => self.grant_write(i, t, item, value),
            Ask::Commit => {
                self.store.publish(t);
                self.tables.close(t);
                Ok(Reply::Committed { t })
            }
        }
    }

    /// What `blocker` and perhaps others block.
    fn block(&mut self, i: usize, t: u16, ask: Ask, blocker: u16) -> Reply
        requires at { At self.old.tables.«open».items t i }
        requires blocker { In blocker (blockers_in R.LockRule self.old t ask) }
        ensures answer { Blocked (R.allows self.old.rule) (ledger_of self.old.tables) t (blockers_in R.LockRule self.old t ask) (Ok result) }
        ensures step { Moved S.Store self.old (Some ask) (Ok result) self.new }
        ensures same { Kept S.Store self.old self.new }
    {
        self.tables.restate(i, State::Waiting(ask));
        if self.tables.closes_circle(&self.rule, i) {
            self.store.discard(t);
            self.tables.close(t);
            return Reply::Deadlock { t };
        }
        Reply::Wait { t, blocker }
    }

    /// Tries what the transaction asks for.
    fn attempt(&mut self, i: usize, t: u16, ask: Ask) -> Result<Reply, Refusal>
        requires at { At self.old.tables.«open».items t i }
        ensures answer { Tries S.Store R.LockRule self.old t ask result }
        ensures step { Moved S.Store self.old (Some ask) result self.new }
        ensures same { Kept S.Store self.old self.new }
    {
        if ask.exceeds(self.store.size()) {
            return Err(Layer::Scheduler.refusal(Reason::NoSuchItem));
        }
        match self.tables.blocker(&self.rule, t, ask) {
            None => self.grant(i, t, ask),
            Some(blocker) => Ok(self.block(i, t, ask, blocker)),
        }
    }

    /// A call to an open transaction, by its own state.
    fn submit(&mut self, t: u16, call: Call) -> Result<Reply, Refusal>
        ensures answer { Does S.Store R.LockRule self.old (called t call (state_of t (ledger_of self.old.tables).opens)) result }
        ensures step { Moved S.Store self.old (sought call (state_of t (ledger_of self.old.tables).opens)) result self.new }
        ensures same { Kept S.Store self.old self.new }
    {
        let Some(i) = self.tables.find(t) else {
            return Err(Layer::Scheduler.refusal(Reason::NotOpen));
        };
        match (self.tables.state(i), call) {
            (State::Active, Call::Try(ask)) => self.attempt(i, t, ask),
            (State::Waiting(ask), Call::Retry) => self.attempt(i, t, ask),
            (State::Waiting(_), Call::Try(_)) => Err(Layer::Scheduler.refusal(Reason::Waiting)),
            (State::Active, Call::Retry) => Err(Layer::Scheduler.refusal(Reason::NotWaiting)),
            (_, Call::Abort) => {
                self.store.discard(t);
                self.tables.close(t);
                Ok(Reply::Aborted { t })
            }
        }
    }

    /// Opens a transaction.
    fn begin(&mut self) -> Result<Reply, Refusal>
        ensures answer { Does S.Store R.LockRule self.old (checked (ledger_of self.old.tables) Begin) result }
        ensures step { Moved S.Store self.old None result self.new }
        ensures same { Kept S.Store self.old self.new }
    {
        if self.transactions().len() >= OPEN {
            return Err(Layer::Scheduler.refusal(Reason::TooManyOpen));
        }
        if self.tables.begins >= BEGINS {
            return Err(Layer::Scheduler.refusal(Reason::NumbersSpent));
        }
        Ok(Reply::Opened {
            t: self.tables.begin(),
        })
    }

    /// Makes one call.
    pub fn call(&mut self, request: Request) -> Result<Reply, Refusal>
        ensures answer { Answered S.Store R.LockRule self.old request result }
        ensures step { Called S.Store self.old request result self.new }
        ensures same { Kept S.Store self.old self.new }
    {
        if let Some(refusal) = self.refusal {
            return Err(refusal);
        }
        match request {
            Request::Begin => self.begin(),
            Request::Read { t, item } => self.submit(t, Call::Try(Ask::Read { item })),
            Request::Write { t, item, value } => self.submit(
                t,
                Call::Try(Ask::Write { item, value }),
            ),
            Request::Commit { t } => self.submit(t, Call::Try(Ask::Commit)),
            Request::Abort { t } => self.submit(t, Call::Abort),
            Request::Retry { t } => self.submit(t, Call::Retry),
        }
    }
}
