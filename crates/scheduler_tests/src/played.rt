// Runs from zeros, call by call, in both pairs of a store and a rule.
use history::run::{Finished, run};
use records::refusal::Refusal;
use records::request::Request;
use scheduler::reply::Reply;
use scheduler::rule::{DeferredUpdates, LockRule, WritersPassReaders};
use std::alloc::Global;
use std::process::Abort;
use std::test::Fail;
use store::in_place::InPlace;
use store::private::Private;
use store::store::Store;

// A commit waits for a reader, and passes after the reader's.
const READER_FIRST: [(Request, Result<Reply, Refusal>); 7] = [
    (Request::Begin, Ok(Reply::Opened { t: 1 })),
    (Request::Begin, Ok(Reply::Opened { t: 2 })),
    (
        Request::Read { t: 1, item: 5 },
        Ok(Reply::Value {
            t: 1,
            item: 5,
            value: 0,
        }),
    ),
    (
        Request::Write {
            t: 2,
            item: 5,
            value: 200,
        },
        Ok(Reply::Written { t: 2, item: 5 }),
    ),
    (
        Request::Commit { t: 2 },
        Ok(Reply::Wait { t: 2, blocker: 1 }),
    ),
    (Request::Commit { t: 1 }, Ok(Reply::Committed { t: 1 })),
    (Request::Retry { t: 2 }, Ok(Reply::Committed { t: 2 })),
];

// The same, and then the reader writes too: two writers of an item exclude each other.
const LOST_GAME: [(Request, Result<Reply, Refusal>); 7] = [
    (Request::Begin, Ok(Reply::Opened { t: 1 })),
    (Request::Begin, Ok(Reply::Opened { t: 2 })),
    (
        Request::Read { t: 1, item: 5 },
        Ok(Reply::Value {
            t: 1,
            item: 5,
            value: 0,
        }),
    ),
    (
        Request::Write {
            t: 2,
            item: 5,
            value: 200,
        },
        Ok(Reply::Written { t: 2, item: 5 }),
    ),
    (
        Request::Write {
            t: 1,
            item: 5,
            value: 24,
        },
        Ok(Reply::Wait { t: 1, blocker: 2 }),
    ),
    (Request::Commit { t: 2 }, Ok(Reply::Deadlock { t: 2 })),
    (
        Request::Retry { t: 1 },
        Ok(Reply::Written { t: 1, item: 5 }),
    ),
];

// Each waits for what the other wrote.
const CROSSED: [(Request, Result<Reply, Refusal>); 7] = [
    (Request::Begin, Ok(Reply::Opened { t: 1 })),
    (Request::Begin, Ok(Reply::Opened { t: 2 })),
    (
        Request::Write {
            t: 1,
            item: 3,
            value: 7,
        },
        Ok(Reply::Written { t: 1, item: 3 }),
    ),
    (
        Request::Write {
            t: 2,
            item: 4,
            value: 7,
        },
        Ok(Reply::Written { t: 2, item: 4 }),
    ),
    (
        Request::Read { t: 1, item: 4 },
        Ok(Reply::Wait { t: 1, blocker: 2 }),
    ),
    (
        Request::Read { t: 2, item: 3 },
        Ok(Reply::Deadlock { t: 2 }),
    ),
    (
        Request::Retry { t: 1 },
        Ok(Reply::Value {
            t: 1,
            item: 4,
            value: 0,
        }),
    ),
];

// The last commit stays.
const LAST_COMMIT: [(Request, Result<Reply, Refusal>); 6] = [
    (Request::Begin, Ok(Reply::Opened { t: 1 })),
    (Request::Begin, Ok(Reply::Opened { t: 2 })),
    (
        Request::Write {
            t: 1,
            item: 5,
            value: 1,
        },
        Ok(Reply::Written { t: 1, item: 5 }),
    ),
    (
        Request::Write {
            t: 2,
            item: 5,
            value: 2,
        },
        Ok(Reply::Written { t: 2, item: 5 }),
    ),
    (Request::Commit { t: 2 }, Ok(Reply::Committed { t: 2 })),
    (Request::Commit { t: 1 }, Ok(Reply::Committed { t: 1 })),
];

// Plays the calls and compares each answer; at the end item 5 has the committed value `left`.
fn plays<S: Store + Drop, R: LockRule + Drop>(
    rt: &impl Abort,
    heap: Global,
    store: S,
    rule: R,
    play: &[(Request, Result<Reply, Refusal>)],
    left: i32,
) -> Result<(), Fail> {
    let calls: Vec<Request> = play.iter().map(|(call, _)| *call).collect(heap)?;
    let Finished { answers, scheduler } = run(heap, store, rule, &calls)?;
    assert_eq!(rt; answers.len(), play.len());
    for ((_, expected), answer) in play.iter().zip(&answers) {
        assert_eq!(rt; *answer, *expected);
    }
    assert_eq!(rt; scheduler.into_store().look(0, 5), Ok(left));
    Ok(())
}

fn plays_in_place(
    rt: &(impl Abort + AllocGlobal),
    play: &[(Request, Result<Reply, Refusal>)],
    left: i32,
) -> Result<i32, Fail> {
    let mut values = [0; 1024];
    let store = InPlace::open(&mut values);
    plays(rt, rt.alloc(), store, WritersPassReaders, play, left)?;
    Ok(values[5])
}

fn plays_beside(
    rt: &(impl Abort + AllocGlobal),
    play: &[(Request, Result<Reply, Refusal>)],
    left: i32,
) -> Result<i32, Fail> {
    let mut values = [0; 1024];
    let store = Private::open(&mut values);
    plays(rt, rt.alloc(), store, DeferredUpdates, play, left)?;
    Ok(values[5])
}

#[test]
fn both_pairs(rt: HostRuntime) -> Result<(), Fail> {
    assert_eq!(rt; plays_in_place(&rt, &READER_FIRST, 200)?, 200);
    assert_eq!(rt; plays_beside(&rt, &READER_FIRST, 200)?, 200);
    plays_in_place(&rt, &CROSSED, 0)?;
    plays_beside(&rt, &CROSSED, 0)?;
    Ok(())
}

#[test]
fn one_pair(rt: HostRuntime) -> Result<(), Fail> {
    plays_in_place(&rt, &LOST_GAME, 0)?;
    plays_beside(&rt, &LAST_COMMIT, 1)?;
    Ok(())
}
