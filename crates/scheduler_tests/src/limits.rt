// The last that passes, and the first that does not.
use crate::refused::{by_scheduler, by_store};
use records::refusal::Reason;
use records::request::Request;
use scheduler::reply::Reply;
use scheduler::rule::{DeferredUpdates, LockRule, WritersPassReaders};
use scheduler::scheduler::Scheduler;
use std::process::Abort;
use store::in_place::InPlace;
use store::private::Private;
use store::store::Store;

// Transactions `first` to `last` begin.
fn begin<S: Store, R: LockRule>(
    rt: &impl Abort,
    scheduler: &mut Scheduler<S, R>,
    first: u16,
    last: u16,
) {
    for t in first..=last {
        assert_eq!(rt; scheduler.call(Request::Begin), Ok(Reply::Opened { t }));
    }
}

// Transaction t reads every item.
fn read_all<S: Store, R: LockRule>(rt: &impl Abort, scheduler: &mut Scheduler<S, R>, t: u16) {
    for item in 0..1024 {
        let value = 0;
        assert_eq!(rt;
            scheduler.call(Request::Read { t, item }),
            Ok(Reply::Value { t, item, value })
        );
    }
}

fn open_to_the_last<S: Store + Drop, R: LockRule + Drop>(rt: &impl Abort, store: S, rule: R) {
    let mut scheduler = Scheduler::open(store, rule);
    begin(rt, &mut scheduler, 1, 64);
    assert_eq!(rt;
        scheduler.call(Request::Begin),
        by_scheduler(Reason::TooManyOpen)
    );
    assert_eq!(rt;
        scheduler.call(Request::Abort { t: 7 }),
        Ok(Reply::Aborted { t: 7 })
    );
    begin(rt, &mut scheduler, 65, 65);
    assert_eq!(rt;
        scheduler.call(Request::Begin),
        by_scheduler(Reason::TooManyOpen)
    );
    assert_eq!(rt; scheduler.transactions().len(), 64);
}

fn begin_to_the_last<S: Store + Drop, R: LockRule + Drop>(rt: &impl Abort, store: S, rule: R) {
    let mut scheduler = Scheduler::open(store, rule);
    for t in 1..=60000 {
        begin(rt, &mut scheduler, t, t);
        assert_eq!(rt;
            scheduler.call(Request::Abort { t }),
            Ok(Reply::Aborted { t })
        );
    }
    assert_eq!(rt;
        scheduler.call(Request::Begin),
        by_scheduler(Reason::NumbersSpent)
    );
    assert_eq!(rt;
        scheduler.call(Request::Abort { t: 60000 }),
        by_scheduler(Reason::NotOpen)
    );
}

// Two transactions read all items, so a third finds no room for a lock until one of them ends.
fn lock_to_the_last<S: Store + Drop, R: LockRule + Drop>(rt: &impl Abort, store: S, rule: R) {
    let mut scheduler = Scheduler::open(store, rule);
    begin(rt, &mut scheduler, 1, 3);
    read_all(rt, &mut scheduler, 1);
    read_all(rt, &mut scheduler, 2);
    let third = Request::Read { t: 3, item: 0 };
    assert_eq!(rt; scheduler.call(third), by_scheduler(Reason::LockListFull));
    let write = Request::Write {
        t: 1,
        item: 0,
        value: 7,
    };
    assert_eq!(rt; scheduler.call(write), by_scheduler(Reason::LockListFull));
    read_all(rt, &mut scheduler, 1);
    assert_eq!(rt;
        scheduler.call(Request::Commit { t: 2 }),
        Ok(Reply::Committed { t: 2 })
    );
    read_all(rt, &mut scheduler, 3);
}

// One transaction writes the items below `share`, and finds no room for one more.
fn write_to_the_last<S: Store + Drop, R: LockRule + Drop>(
    rt: &impl Abort,
    store: S,
    rule: R,
    share: u16,
) {
    let mut scheduler = Scheduler::open(store, rule);
    begin(rt, &mut scheduler, 1, 1);
    for item in 0..share {
        let write = Request::Write {
            t: 1,
            item,
            value: 7,
        };
        assert_eq!(rt; scheduler.call(write), Ok(Reply::Written { t: 1, item }));
    }
    let over = Request::Write {
        t: 1,
        item: share,
        value: 7,
    };
    assert_eq!(rt; scheduler.call(over), by_store(Reason::NoRoom));
    let again = Request::Write {
        t: 1,
        item: 0,
        value: 9,
    };
    assert_eq!(rt; scheduler.call(again), Ok(Reply::Written { t: 1, item: 0 }));
}

const CHECKS: [(Request, Reason); 9] = [
    (Request::Read { t: 3, item: 1024 }, Reason::NotOpen),
    (Request::Retry { t: 0 }, Reason::NotOpen),
    (Request::Abort { t: 65535 }, Reason::NotOpen),
    (Request::Read { t: 2, item: 1024 }, Reason::Waiting),
    (
        Request::Write {
            t: 2,
            item: 1024,
            value: 7,
        },
        Reason::Waiting,
    ),
    (Request::Commit { t: 2 }, Reason::Waiting),
    (Request::Retry { t: 1 }, Reason::NotWaiting),
    (Request::Read { t: 1, item: 1024 }, Reason::NoSuchItem),
    (
        Request::Write {
            t: 1,
            item: 65535,
            value: 7,
        },
        Reason::NoSuchItem,
    ),
];

// Item 1,023 is the last. Transaction 2 waits for 1; a call that deserves several refusals is given the first of them.
fn check_in_order<S: Store + Drop, R: LockRule + Drop>(rt: &impl Abort, store: S, rule: R) {
    let mut scheduler = Scheduler::open(store, rule);
    begin(rt, &mut scheduler, 1, 2);
    let write = Request::Write {
        t: 1,
        item: 1023,
        value: 7,
    };
    assert_eq!(rt;
        scheduler.call(write),
        Ok(Reply::Written { t: 1, item: 1023 })
    );
    let read = Request::Read { t: 2, item: 1023 };
    assert_eq!(rt; scheduler.call(read), Ok(Reply::Wait { t: 2, blocker: 1 }));
    for (request, reason) in CHECKS {
        assert_eq!(rt; scheduler.call(request), by_scheduler(reason));
    }
    assert_eq!(rt;
        scheduler.call(Request::Retry { t: 2 }),
        Ok(Reply::Wait { t: 2, blocker: 1 })
    );
}

// A generic test cannot open a store for every lifetime of its slice, so each store has one.
#[test]
fn in_place(rt: HostRuntime) {
    let mut values = [0; 1024];
    open_to_the_last(&rt, InPlace::open(&mut values), WritersPassReaders);
    begin_to_the_last(&rt, InPlace::open(&mut values), WritersPassReaders);
    lock_to_the_last(&rt, InPlace::open(&mut values), WritersPassReaders);
    check_in_order(&rt, InPlace::open(&mut values), WritersPassReaders);
    let mut values = [0; 1024];
    write_to_the_last(&rt, InPlace::open(&mut values), WritersPassReaders, 512);
}

#[test]
fn private(rt: HostRuntime) {
    let mut values = [0; 1024];
    open_to_the_last(&rt, Private::open(&mut values), DeferredUpdates);
    begin_to_the_last(&rt, Private::open(&mut values), DeferredUpdates);
    lock_to_the_last(&rt, Private::open(&mut values), DeferredUpdates);
    check_in_order(&rt, Private::open(&mut values), DeferredUpdates);
    write_to_the_last(&rt, Private::open(&mut values), DeferredUpdates, 64);
}
