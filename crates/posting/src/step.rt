// One step of a posting: one call of its ticket.
ghost use Rattle.scheduler.specs.Seen.{Kept};
ghost use Rattle.posting.specs.Taken.{Sooner, TakenBy};

use crate::posting::{Cause, Posting, Stage, Turn};
use crate::reacting::after_abort;
use scheduler::rule::LockRule;
use scheduler::scheduler::Scheduler;
use store::store::Store;
use tickets::ticket::Active;

impl Posting {
    /// Makes the next call, and tells what it comes to.
    pub fn step<S: Store, R: LockRule>(self, scheduler: &mut Scheduler<S, R>) -> Turn
        ensures taken { TakenBy S.Store R.LockRule scheduler.old scheduler.new self result }
        ensures same { Kept S.Store scheduler.old scheduler.new }
        ensures sooner { Sooner self result }
    {
        let Posting { game, stage } = self;
        match stage {
            Stage::Fresh => game.after_begin(Active::begin(scheduler)),
            Stage::ToRead(ticket) => game.after_read(ticket.read(scheduler, game.team)),
            Stage::ToWrite { ticket, total } => game.after_write(ticket.write(
                scheduler, game.team, total,
            )),
            Stage::ToCommit(ticket) => game.after_commit(ticket.commit(scheduler)),
            Stage::ToRetry(ticket) => game.after_retry(ticket.retry(scheduler)),
            Stage::ToGiveUp(ticket) => after_abort(Cause::RetriesSpent, ticket.abort(scheduler)),
            Stage::ToAbort { ticket, cause } => after_abort(cause, ticket.abort(scheduler)),
        }
    }
}
