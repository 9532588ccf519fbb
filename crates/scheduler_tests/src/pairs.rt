// A scheduler on a store and a rule that do not go together.
use crate::refused::by_scheduler;
use records::refusal::Reason;
use records::request::Request;
use scheduler::rule::{DeferredUpdates, LockRule, Rigorous, WritersPassReaders};
use scheduler::scheduler::Scheduler;
use std::process::Abort;
use store::in_place::InPlace;
use store::private::Private;
use store::store::Store;

// Every call is refused for the reason.
fn refuses_all<S: Store + Drop, R: LockRule + Drop>(
    rt: &impl Abort,
    store: S,
    rule: R,
    reason: Reason,
) {
    let mut scheduler = Scheduler::open(store, rule);
    for request in [
        Request::Begin,
        Request::Read { t: 1, item: 0 },
        Request::Write {
            t: 1,
            item: 1024,
            value: 7,
        },
        Request::Commit { t: 1 },
        Request::Abort { t: 1 },
        Request::Retry { t: 1 },
    ] {
        assert_eq!(rt; scheduler.call(request), by_scheduler(reason));
    }
    assert_eq!(rt; scheduler.transactions().len(), 0);
}

#[test]
fn pair(rt: HostRuntime) {
    let mut values = [0; 2];
    refuses_all(
        &rt,
        InPlace::open(&mut values),
        DeferredUpdates,
        Reason::Pair,
    );
    let mut pending = InPlace::open(&mut values);
    assert_eq!(rt; pending.put(1, 0, 7), Ok(()));
    refuses_all(&rt, pending, DeferredUpdates, Reason::Pair);
}

#[test]
fn pending_at_opening(rt: HostRuntime) {
    let mut values = [0; 2];
    let mut in_place = InPlace::open(&mut values);
    assert_eq!(rt; in_place.put(1, 0, 7), Ok(()));
    refuses_all(&rt, in_place, WritersPassReaders, Reason::PendingAtOpening);
    let mut private = Private::open(&mut values);
    assert_eq!(rt; private.put(1, 0, 7), Ok(()));
    refuses_all(&rt, private, Rigorous, Reason::PendingAtOpening);
    let mut private = Private::open(&mut values);
    assert_eq!(rt; private.put(1, 0, 7), Ok(()));
    refuses_all(&rt, private, DeferredUpdates, Reason::PendingAtOpening);
}
