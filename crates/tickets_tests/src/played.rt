// Tickets, move by move, at the scheduler that opened them and at another.
use crate::hands::Left::{Active, Nothing, Waiting};
use crate::hands::Move::{Abort, Begin, Commit, Read, Retry, Write};
use crate::hands::Said::{
    Aborted, Committed, Deadlock, Opened, Refused, RetriedValue, RetriedWritten, Value, Wait,
    Written,
};
use crate::hands::{Hand, Left, Move, Said};
use crate::played::Who::{First, FirstAway, Second, SecondAway};
use crate::refused::{NO_SUCH_ITEM, NOT_OPEN, NOT_WAITING, PAIR, WAITING};
use scheduler::rule::{DeferredUpdates, LockRule, WritersPassReaders};
use scheduler::scheduler::Scheduler;
use store::in_place::InPlace;
use store::store::Store;

/// A hand, at the scheduler that it begins at or away, at the other.
#[derive(Clone, Copy)]
enum Who {
    First,
    Second,
    FirstAway,
    SecondAway,
}

/// A move of a hand, what it must come to, and the ticket that it must leave.
type Played = (Who, Move, Said, Left);

// Begin, value, written, committed, aborted.
const GRANTED: &[Played] = &[
    (First, Begin, Opened, Active(1)),
    (First, Read(5), Value(0), Active(1)),
    (First, Write(5, 7), Written, Active(1)),
    (First, Read(5), Value(7), Active(1)),
    (First, Commit, Committed, Nothing),
    (Second, Begin, Opened, Active(2)),
    (Second, Write(5, 8), Written, Active(2)),
    (Second, Abort, Aborted, Nothing),
    (First, Begin, Opened, Active(3)),
    (First, Read(5), Value(7), Active(3)),
    (First, Abort, Aborted, Nothing),
];

// A read, a write and a commit that wait, and what each retry comes to.
const WAITS: &[Played] = &[
    (First, Begin, Opened, Active(1)),
    (Second, Begin, Opened, Active(2)),
    (First, Write(5, 7), Written, Active(1)),
    (Second, Read(5), Wait(1), Waiting(2)),
    (Second, Retry, Wait(1), Waiting(2)),
    (First, Commit, Committed, Nothing),
    (Second, Retry, RetriedValue(5, 7), Active(2)),
    (Second, Write(5, 8), Written, Active(2)),
    (First, Begin, Opened, Active(3)),
    (First, Write(5, 9), Wait(2), Waiting(3)),
    (Second, Commit, Committed, Nothing),
    (First, Retry, RetriedWritten(5), Active(3)),
    (First, Abort, Aborted, Nothing),
    (First, Begin, Opened, Active(4)),
    (Second, Begin, Opened, Active(5)),
    (First, Read(5), Value(8), Active(4)),
    (Second, Write(5, 6), Written, Active(5)),
    (Second, Commit, Wait(4), Waiting(5)),
    (First, Commit, Committed, Nothing),
    (Second, Retry, Committed, Nothing),
];

// A transaction that waits is aborted.
const ABORTED_WHILE_WAITING: &[Played] = &[
    (First, Begin, Opened, Active(1)),
    (Second, Begin, Opened, Active(2)),
    (First, Write(5, 7), Written, Active(1)),
    (Second, Read(5), Wait(1), Waiting(2)),
    (Second, Abort, Aborted, Nothing),
    (First, Commit, Committed, Nothing),
];

// A read, a write and a commit that would close a chain of waits.
const DEADLOCKS: &[Played] = &[
    (First, Begin, Opened, Active(1)),
    (Second, Begin, Opened, Active(2)),
    (First, Write(0, 7), Written, Active(1)),
    (Second, Write(1, 7), Written, Active(2)),
    (First, Read(1), Wait(2), Waiting(1)),
    (Second, Read(0), Deadlock, Nothing),
    (First, Retry, RetriedValue(1, 0), Active(1)),
    (Second, Begin, Opened, Active(3)),
    (Second, Write(2, 7), Written, Active(3)),
    (Second, Write(0, 8), Wait(1), Waiting(3)),
    (First, Write(2, 8), Deadlock, Nothing),
    (Second, Retry, RetriedWritten(0), Active(3)),
    (Second, Abort, Aborted, Nothing),
    (First, Begin, Opened, Active(4)),
    (Second, Begin, Opened, Active(5)),
    (First, Read(5), Value(0), Active(4)),
    (Second, Write(5, 7), Written, Active(5)),
    (First, Write(5, 8), Wait(5), Waiting(4)),
    (Second, Commit, Deadlock, Nothing),
    (First, Retry, RetriedWritten(5), Active(4)),
    (First, Commit, Committed, Nothing),
];

// A refusal gives the same ticket back.
const REFUSED: &[Played] = &[
    (First, Begin, Opened, Active(1)),
    (First, Read(6), Refused(NO_SUCH_ITEM), Active(1)),
    (First, Write(6, 7), Refused(NO_SUCH_ITEM), Active(1)),
    (First, Commit, Committed, Nothing),
];

// At a scheduler that has not opened it, a ticket is refused, and an abort spends it.
const FOREIGN: &[Played] = &[
    (First, Begin, Opened, Active(1)),
    (Second, Begin, Opened, Active(2)),
    (First, Write(5, 7), Written, Active(1)),
    (Second, Read(5), Wait(1), Waiting(2)),
    (FirstAway, Read(5), Refused(NOT_OPEN), Active(1)),
    (FirstAway, Write(5, 8), Refused(NOT_OPEN), Active(1)),
    (FirstAway, Commit, Refused(NOT_OPEN), Active(1)),
    (SecondAway, Retry, Refused(NOT_OPEN), Waiting(2)),
    (SecondAway, Abort, Refused(NOT_OPEN), Nothing),
    (FirstAway, Abort, Refused(NOT_OPEN), Nothing),
];

// At a scheduler that has opened the same number, a ticket is that number.
const JUST_A_NUMBER: &[Played] = &[
    (First, Begin, Opened, Active(1)),
    (First, Write(5, 7), Written, Active(1)),
    (SecondAway, Begin, Opened, Active(1)),
    (SecondAway, Write(5, 8), Written, Active(1)),
    (FirstAway, Read(5), Value(8), Active(1)),
    (FirstAway, Commit, Committed, Nothing),
    (SecondAway, Commit, Refused(NOT_OPEN), Active(1)),
    (Second, Read(5), Value(7), Active(1)),
    (Second, Abort, Aborted, Nothing),
];

// An active ticket is refused where its number waits, and a waiting one where its number does not.
const ELSEWHERE_IT_WAITS: &[Played] = &[
    (First, Begin, Opened, Active(1)),
    (Second, Begin, Opened, Active(2)),
    (First, Write(5, 7), Written, Active(1)),
    (Second, Read(5), Wait(1), Waiting(2)),
    (FirstAway, Abort, Refused(NOT_OPEN), Nothing),
    (FirstAway, Begin, Opened, Active(1)),
    (FirstAway, Abort, Aborted, Nothing),
    (FirstAway, Begin, Opened, Active(2)),
    (SecondAway, Retry, Refused(NOT_WAITING), Waiting(2)),
    (First, Read(0), Refused(WAITING), Active(2)),
    (First, Write(0, 7), Refused(WAITING), Active(2)),
    (First, Commit, Refused(WAITING), Active(2)),
    (FirstAway, Commit, Committed, Nothing),
    (Second, Abort, Aborted, Nothing),
];

// A store and a rule that do not go together.
const NO_PAIR: &[Played] = &[(First, Begin, Refused(PAIR), Nothing)];

// The place of the first move that comes to something else, with what it comes to. No check may fail while tickets are held, so the
// hands are emptied before the answer is looked at.
fn first_wrong<S: Store, R: LockRule>(
    home: &mut Scheduler<S, R>,
    away: &mut Scheduler<S, R>,
    moves: &[Played],
) -> Option<(usize, Said, Left)> {
    let mut first = Hand::Empty;
    let mut second = Hand::Empty;
    let mut wrong = None;
    for (i, &(who, step, must_say, must_leave)) in moves.iter().enumerate() {
        let scheduler = match who {
            First | Second => &mut *home,
            FirstAway | SecondAway => &mut *away,
        };
        let (said, left) = match who {
            First | FirstAway => {
                let (hand, said) = first.play(scheduler, step);
                first = hand;
                (said, first.left())
            }
            Second | SecondAway => {
                let (hand, said) = second.play(scheduler, step);
                second = hand;
                (said, second.left())
            }
        };
        if wrong.is_none() && (said, left) != (must_say, must_leave) {
            wrong = Some((i, said, left));
        }
    }
    first.empty(home);
    second.empty(home);
    wrong
}

fn plays<S: Store + Drop, R: LockRule + Drop>(
    rt: &impl std::process::Abort,
    mut home: Scheduler<S, R>,
    mut away: Scheduler<S, R>,
    moves: &[Played],
    still_open: usize,
) {
    assert_eq!(rt; first_wrong(&mut home, &mut away, moves), None);
    assert_eq!(rt; home.transactions().len(), still_open);
    assert_eq!(rt; away.transactions().len(), 0);
}

fn in_place(rt: &impl std::process::Abort, moves: &[Played], still_open: usize) {
    let mut here = [0; 6];
    let mut there = [0; 6];
    let home = Scheduler::open(InPlace::open(&mut here), WritersPassReaders);
    let away = Scheduler::open(InPlace::open(&mut there), WritersPassReaders);
    plays(rt, home, away, moves, still_open);
}

#[test]
fn granted(rt: HostRuntime) {
    in_place(&rt, GRANTED, 0);
}

#[test]
fn waits(rt: HostRuntime) {
    in_place(&rt, WAITS, 0);
}

#[test]
fn aborted_while_waiting(rt: HostRuntime) {
    in_place(&rt, ABORTED_WHILE_WAITING, 0);
}

#[test]
fn deadlocks(rt: HostRuntime) {
    in_place(&rt, DEADLOCKS, 0);
}

#[test]
fn refused_with_its_ticket(rt: HostRuntime) {
    in_place(&rt, REFUSED, 0);
}

#[test]
fn foreign(rt: HostRuntime) {
    in_place(&rt, FOREIGN, 2);
}

#[test]
fn just_a_number(rt: HostRuntime) {
    in_place(&rt, JUST_A_NUMBER, 0);
}

#[test]
fn elsewhere_it_waits(rt: HostRuntime) {
    in_place(&rt, ELSEWHERE_IT_WAITS, 1);
}

#[test]
fn pair(rt: HostRuntime) {
    let mut here = [0; 6];
    let mut there = [0; 6];
    let home = Scheduler::open(InPlace::open(&mut here), DeferredUpdates);
    let away = Scheduler::open(InPlace::open(&mut there), DeferredUpdates);
    plays(&rt, home, away, NO_PAIR, 0);
}
