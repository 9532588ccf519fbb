// Answers: each kind, the extremes, every cut and every first byte.
use crate::record;
use crate::refused::UNKNOWN;
use records::answer::{Activity, Answer};
use records::read::read_answer;
use std::test::Fail;

const EXAMPLES: [(Answer, &[u8]); 12] = [
    (Answer::Opened { t: 1 }, &[17, 0, 1]),
    (
        Answer::Value {
            t: 1,
            item: 5,
            value: -2147483648,
        },
        &[18, 0, 1, 0, 5, 128, 0, 0, 0],
    ),
    (Answer::Written { t: 0, item: 65535 }, &[19, 0, 0, 255, 255]),
    (Answer::Committed { t: 2 }, &[20, 0, 2]),
    (Answer::Aborted { t: 65535 }, &[21, 255, 255]),
    (Answer::Wait { t: 2, blocker: 1 }, &[22, 0, 2, 0, 1]),
    (Answer::Deadlock { t: 258 }, &[23, 1, 2]),
    (
        Answer::Refused {
            layer: 2,
            number: 4,
            place: 59999,
        },
        &[24, 2, 4, 0, 0, 234, 95],
    ),
    (
        Answer::StillOpen {
            t: 3,
            state: Activity::Active,
        },
        &[25, 0, 3, 0],
    ),
    (
        Answer::StillOpen {
            t: 4,
            state: Activity::Waiting,
        },
        &[25, 0, 4, 1],
    ),
    (
        Answer::Holds {
            item: 5,
            value: 200,
        },
        &[26, 0, 5, 0, 0, 0, 200],
    ),
    (
        Answer::Holds {
            item: 1023,
            value: -1,
        },
        &[26, 3, 255, 255, 255, 255, 255],
    ),
];

#[test]
fn written_and_read(rt: HostRuntime) -> Result<(), Fail> {
    record::written_and_read(&rt, &EXAMPLES)
}

#[test]
fn every_cut(rt: HostRuntime) -> Result<(), Fail> {
    record::every_cut(&rt, &EXAMPLES)
}

// Behind every kind the byte of a state is 2, which only kind 25 minds.
#[test]
fn every_first_byte(rt: HostRuntime) {
    for kind in 0..=255u8 {
        match read_answer(&[kind, 0, 0, 2, 0, 0, 0, 0, 0]) {
            Ok(_) => assert!(rt; matches!(kind, 17..=24 | 26)),
            Err(refusal) => {
                assert!(rt; !matches!(kind, 17..=24 | 26));
                assert_eq!(rt; refusal, UNKNOWN);
            }
        }
    }
}
