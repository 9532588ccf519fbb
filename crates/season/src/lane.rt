// A lane that posts one game.
ghost use Rattle.std.specs.Prelude.{◌-◌, ◌≤◌};
ghost use Rattle.season.specs.Weights.{lane_weight};

use crate::account::Account;
use posting::posting::{Posting, Turn};
use scheduler::rule::LockRule;
use scheduler::scheduler::Scheduler;
use store::store::Store;

pub(crate) enum Lane {
    Resting { rounds: u8, posting: Posting },
    Playing(Posting),
    Done,
}

impl Lane {
    /// Makes one step, and prints the call and what came of it.
    pub(crate) fn turn<S: Store, R: LockRule, P: Print>(
        self,
        account: &mut Account<P>,
        scheduler: &mut Scheduler<S, R>,
        name: &'static str,
    ) -> Lane
        ensures { lane_weight result ≤ lane_weight self - 1 }
    {
        match self {
            Lane::Resting { rounds: 0, posting } => Lane::Playing(posting),
            Lane::Resting { rounds, posting } => Lane::Resting {
                rounds: rounds - 1,
                posting,
            },
            Lane::Playing(posting) => {
                let request = posting.request();
                match posting.step(scheduler) {
                    Turn::Going(posting) => {
                        account.line(format_args!("{name}: {request}: {posting}"));
                        Lane::Playing(posting)
                    }
                    Turn::Told(outcome) => {
                        account.line(format_args!("{name}: {request}: {outcome}"));
                        Lane::Done
                    }
                }
            }
            Lane::Done => Lane::Done,
        }
    }
}
