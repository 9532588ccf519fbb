// Requests: each kind, the extremes, every cut and every first byte.
use crate::record;
use crate::refused::UNKNOWN;
use records::read::read_request;
use records::request::Request;
use std::test::Fail;

const EXAMPLES: [(Request, &[u8]); 9] = [
    (Request::Begin, &[1]),
    (Request::Read { t: 1, item: 5 }, &[2, 0, 1, 0, 5]),
    (Request::Read { t: 0, item: 65535 }, &[2, 0, 0, 255, 255]),
    (
        Request::Write {
            t: 2,
            item: 5,
            value: 200,
        },
        &[3, 0, 2, 0, 5, 0, 0, 0, 200],
    ),
    (
        Request::Write {
            t: 258,
            item: 772,
            value: -2147483648,
        },
        &[3, 1, 2, 3, 4, 128, 0, 0, 0],
    ),
    (
        Request::Write {
            t: 1,
            item: 1,
            value: -2,
        },
        &[3, 0, 1, 0, 1, 255, 255, 255, 254],
    ),
    (Request::Commit { t: 65535 }, &[4, 255, 255]),
    (Request::Abort { t: 0 }, &[5, 0, 0]),
    (Request::Retry { t: 513 }, &[6, 2, 1]),
];

#[test]
fn written_and_read(rt: HostRuntime) -> Result<(), Fail> {
    record::written_and_read(&rt, &EXAMPLES)
}

#[test]
fn every_cut(rt: HostRuntime) -> Result<(), Fail> {
    record::every_cut(&rt, &EXAMPLES)
}

#[test]
fn every_first_byte(rt: HostRuntime) {
    for kind in 0..=255u8 {
        match read_request(&[kind, 0, 0, 0, 0, 0, 0, 0, 0]) {
            Ok(_) => assert!(rt; matches!(kind, 1..=6)),
            Err(refusal) => {
                assert!(rt; !matches!(kind, 1..=6));
                assert_eq!(rt; refusal, UNKNOWN);
            }
        }
    }
}
