// The scheduler over a store and a lock rule.
use crate::rule::LockRule;
use crate::tables::Tables;
use records::refusal::Refusal;
use store::store::Store;

/// A scheduler: the store, the lock rule, and the tables. Where the store and the rule do not go together, it refuses
/// every call.
#[derive(Drop)]
pub struct Scheduler<S: Store, R: LockRule> {
    pub(crate) store: S,
    pub(crate) rule: R,
    pub(crate) refusal: Option<Refusal>,
    pub(crate) tables: Tables,
}
