// What a waiting ticket allows beside an abort. The call is the scheduler's call with the ticket's number.
ghost use Rattle.records.specs.declared.request.Request.TheVariants.{Retry};
ghost use Rattle.scheduler.specs.Seen.{Answered, Called, Kept};
ghost use Rattle.tickets.specs.Outcomes.{RetryNumber, number_of, retry_answer};

use crate::outcome::Retrying;
use crate::ticket::{Held, Ticket, retrying};
use records::request::Request;
use scheduler::rule::LockRule;
use scheduler::scheduler::Scheduler;
use store::store::Store;

impl Ticket<Held> {
    /// Tries the request that the transaction waits with once more.
    pub fn retry<S: Store, R: LockRule>(self, scheduler: &mut Scheduler<S, R>) -> Retrying
        ensures answer { Answered S.Store R.LockRule scheduler.old (Retry (number_of self)) (retry_answer (number_of self) result) }
        ensures step { Called S.Store scheduler.old (Retry (number_of self)) (retry_answer (number_of self) result) scheduler.new }
        ensures same { Kept S.Store scheduler.old scheduler.new }
        ensures number { RetryNumber (number_of self) result }
    {
        let Ticket { number, state: _ } = self;
        let answer = scheduler.call(Request::Retry { t: number });
        retrying(number, answer)
    }
}
