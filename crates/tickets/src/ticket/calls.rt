// What an active ticket allows, and what any ticket does. Each call is the scheduler's call with the ticket's number, and has its three
// clauses under their names, since one word for the three would not be plainer beside that call.
ghost use Rattle.std.specs.Prelude.{◌≡◌};
ghost use Rattle.records.specs.declared.request.Request.TheVariants.{Begin, Read, Write, Commit, Abort};
ghost use Rattle.scheduler.specs.Seen.{Answered, Called, Kept};
ghost use Rattle.tickets.specs.Outcomes.{CommitNumber, ReadNumber, WriteNumber, abort_answer, begin_answer, commit_answer, number_of, read_answer, write_answer};

use crate::outcome::{Committing, Reading, Writing};
use crate::ticket::{Going, Ticket, committing, reading, writing};
use records::refusal::Refusal;
use records::request::Request;
use scheduler::reply::Reply;
use scheduler::rule::LockRule;
use scheduler::scheduler::Scheduler;
use store::store::Store;

impl Ticket<Going> {
    /// Opens a transaction.
    pub fn begin<S: Store, R: LockRule>(
        scheduler: &mut Scheduler<S, R>,
    ) -> Result<Ticket<Going>, Refusal>
        ensures answer { Answered S.Store R.LockRule scheduler.old Begin (begin_answer result) }
        ensures step { Called S.Store scheduler.old Begin (begin_answer result) scheduler.new }
        ensures same { Kept S.Store scheduler.old scheduler.new }
    {
        match scheduler.call(Request::Begin)? {
            Reply::Opened { t } => Ok(Ticket::of(t)),
            _ => unreachable!(),
        }
    }

    /// Reads an item.
    pub fn read<S: Store, R: LockRule>(self, scheduler: &mut Scheduler<S, R>, item: u16) -> Reading
        ensures answer { Answered S.Store R.LockRule scheduler.old (Read (number_of self) item) (read_answer (number_of self) item result) }
        ensures step { Called S.Store scheduler.old (Read (number_of self) item) (read_answer (number_of self) item result) scheduler.new }
        ensures same { Kept S.Store scheduler.old scheduler.new }
        ensures number { ReadNumber (number_of self) result }
    {
        let Ticket { number, state: _ } = self;
        let answer = scheduler.call(Request::Read { t: number, item });
        reading(number, item, answer)
    }

    /// Writes a value to an item.
    pub fn write<S: Store, R: LockRule>(
        self,
        scheduler: &mut Scheduler<S, R>,
        item: u16,
        value: i32,
    ) -> Writing
        ensures answer { Answered S.Store R.LockRule scheduler.old (Write (number_of self) item value) (write_answer (number_of self) item result) }
        ensures step { Called S.Store scheduler.old (Write (number_of self) item value) (write_answer (number_of self) item result) scheduler.new }
        ensures same { Kept S.Store scheduler.old scheduler.new }
        ensures number { WriteNumber (number_of self) result }
    {
        let Ticket { number, state: _ } = self;
        let answer = scheduler.call(Request::Write {
            t: number,
            item,
            value,
        });
        writing(number, item, answer)
    }

    /// Commits the transaction.
    pub fn commit<S: Store, R: LockRule>(self, scheduler: &mut Scheduler<S, R>) -> Committing
        ensures answer { Answered S.Store R.LockRule scheduler.old (Commit (number_of self)) (commit_answer (number_of self) result) }
        ensures step { Called S.Store scheduler.old (Commit (number_of self)) (commit_answer (number_of self) result) scheduler.new }
        ensures same { Kept S.Store scheduler.old scheduler.new }
        ensures number { CommitNumber (number_of self) result }
    {
        let Ticket { number, state: _ } = self;
        let answer = scheduler.call(Request::Commit { t: number });
        committing(number, answer)
    }
}

impl<State> Ticket<State> {
    /// Aborts the transaction. The ticket is spent, even where the call is refused.
    pub fn abort<S: Store, R: LockRule>(
        self,
        scheduler: &mut Scheduler<S, R>,
    ) -> Result<(), Refusal>
        ensures answer { Answered S.Store R.LockRule scheduler.old (Abort (number_of self)) (abort_answer (number_of self) result) }
        ensures step { Called S.Store scheduler.old (Abort (number_of self)) (abort_answer (number_of self) result) scheduler.new }
        ensures same { Kept S.Store scheduler.old scheduler.new }
    {
        let Ticket { number, state: _ } = self;
        scheduler.call(Request::Abort { t: number })?;
        Ok(())
    }

    /// The transaction's number, for an account of it.
    pub fn number(&self) -> u16
        ensures { result ≡ number_of self.now }
    {
        self.number
    }
}
