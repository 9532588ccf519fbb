// A game that is posted, and each way in which it is not.
use crate::refused::{NO_SUCH_ITEM, NOT_OPEN, PAIR};
use posting::posting::{Cause, Outcome, Posting, Turn};
use records::request::Request;
use scheduler::rule::{DeferredUpdates, LockRule, WritersPassReaders};
use scheduler::scheduler::Scheduler;
use scheduler::transaction::NOBODY;
use std::process::Abort;
use store::in_place::InPlace;
use store::store::Store;

fn in_place(values: &mut [i32]) -> Scheduler<InPlace<'_>, WritersPassReaders> {
    Scheduler::open(InPlace::open(values), WritersPassReaders)
}

// Makes so many steps, or as many as there are.
fn steps<S: Store, R: LockRule>(turn: Turn, scheduler: &mut Scheduler<S, R>, count: u8) -> Turn {
    (0..count).fold(turn, |turn, _| match turn {
        Turn::Going(posting) => posting.step(scheduler),
        told => told,
    })
}

fn finish<S: Store, R: LockRule>(mut turn: Turn, scheduler: &mut Scheduler<S, R>) -> Outcome {
    loop {
        match turn {
            Turn::Going(posting) => turn = posting.step(scheduler),
            Turn::Told(outcome) => return outcome,
        }
    }
}

// A posting makes `before` steps, then the calls are made, and then it goes on to its end.
fn told<S: Store, R: LockRule>(
    scheduler: &mut Scheduler<S, R>,
    posting: Posting,
    before: u8,
    calls: &[Request],
) -> Outcome {
    let turn = steps(Turn::Going(posting), scheduler, before);
    for &call in calls {
        let _ = scheduler.call(call);
    }
    finish(turn, scheduler)
}

fn posted<S: Store + Drop, R: LockRule + Drop>(rt: &impl Abort, mut scheduler: Scheduler<S, R>) {
    let first = told(&mut scheduler, Posting::new(5, 185, 0), 0, &[]);
    assert_eq!(rt; first, Outcome::Posted);
    let second = told(&mut scheduler, Posting::new(5, 212, 0), 0, &[]);
    assert_eq!(rt; second, Outcome::Posted);
    assert_eq!(rt; scheduler.transactions().len(), 0);
    assert_eq!(rt; scheduler.into_store().look(NOBODY, 5), Ok(397));
}

#[test]
fn adds_up(rt: HostRuntime) {
    let mut values = [0; 6];
    posted(&rt, in_place(&mut values));
}

// Transaction 1 has written the total. The posting waits for it, once at its read and once for each of its retries.
fn waits<S: Store + Drop, R: LockRule + Drop>(
    rt: &impl Abort,
    mut scheduler: Scheduler<S, R>,
    before: u8,
    outcome: Outcome,
    total: i32,
) {
    let _ = scheduler.call(Request::Begin);
    let _ = scheduler.call(Request::Write {
        t: 1,
        item: 5,
        value: 900,
    });
    let calls = [Request::Commit { t: 1 }];
    let came = told(&mut scheduler, Posting::new(5, 100, 2), before, &calls);
    assert_eq!(rt; came, outcome);
    assert_eq!(rt; scheduler.transactions().len(), 0);
    assert_eq!(rt; scheduler.into_store().look(NOBODY, 5), Ok(total));
}

#[test]
fn posted_by_its_last_retry(rt: HostRuntime) {
    let mut values = [0; 6];
    // begin, read, retry: a retry is left.
    waits(&rt, in_place(&mut values), 3, Outcome::Posted, 1000);
}

#[test]
fn given_up_after_its_retries(rt: HostRuntime) {
    let mut values = [0; 6];
    // begin, read, retry, retry: none is left.
    let outcome = Outcome::GivenUp(Cause::RetriesSpent);
    waits(&rt, in_place(&mut values), 4, outcome, 900);
}

// Transaction 1 has read the total, and asks to write it when the posting has written it.
fn deadlocked<S: Store + Drop, R: LockRule + Drop>(
    rt: &impl Abort,
    mut scheduler: Scheduler<S, R>,
) {
    let _ = scheduler.call(Request::Begin);
    let _ = scheduler.call(Request::Read { t: 1, item: 5 });
    let calls = [Request::Write {
        t: 1,
        item: 5,
        value: 24,
    }];
    let came = told(&mut scheduler, Posting::new(5, 185, 2), 3, &calls);
    assert_eq!(rt; came, Outcome::GivenUp(Cause::Deadlock));
    assert_eq!(rt; scheduler.transactions().len(), 1);
}

#[test]
fn given_up_by_deadlock(rt: HostRuntime) {
    let mut values = [0; 6];
    deadlocked(&rt, in_place(&mut values));
}

// Alone, a posting comes to this, and no transaction is open after it.
fn alone<S: Store + Drop, R: LockRule + Drop>(
    rt: &impl Abort,
    mut scheduler: Scheduler<S, R>,
    posting: Posting,
    outcome: Outcome,
) {
    assert_eq!(rt; told(&mut scheduler, posting, 0, &[]), outcome);
    assert_eq!(rt; scheduler.transactions().len(), 0);
}

#[test]
fn given_up_at_overflow(rt: HostRuntime) {
    let mut values = [i32::MAX; 6];
    let outcome = Outcome::GivenUp(Cause::Overflow);
    alone(&rt, in_place(&mut values), Posting::new(5, 1, 0), outcome);
}

#[test]
fn given_up_when_refused(rt: HostRuntime) {
    let mut values = [0; 6];
    let outcome = Outcome::GivenUp(Cause::Refused(NO_SUCH_ITEM));
    alone(&rt, in_place(&mut values), Posting::new(6, 1, 0), outcome);
}

#[test]
fn not_opened(rt: HostRuntime) {
    let mut values = [0; 6];
    let no_pair = Scheduler::open(InPlace::open(&mut values), DeferredUpdates);
    let outcome = Outcome::NotOpened(PAIR);
    alone(&rt, no_pair, Posting::new(5, 1, 0), outcome);
}

// Begun at one scheduler and brought to another, it ends there with nothing known, and stays open where it was begun.
fn carried_off<S: Store + Drop, R: LockRule + Drop>(
    rt: &impl Abort,
    mut home: Scheduler<S, R>,
    mut away: Scheduler<S, R>,
) {
    let turn = steps(Turn::Going(Posting::new(5, 185, 2)), &mut home, 2);
    let came = finish(turn, &mut away);
    assert_eq!(rt; came, Outcome::AbortRefused(NOT_OPEN));
    assert_eq!(rt; home.transactions().len(), 1);
}

#[test]
fn abort_refused(rt: HostRuntime) {
    let mut here = [0; 6];
    let mut there = [0; 6];
    carried_off(&rt, in_place(&mut here), in_place(&mut there));
}
