// Request files: where they end, and how long they may be.
use crate::refused::{CUT, LONG, UNKNOWN};
use reading::file::{Ending, Placed};
use reading::input::read_input;
use reading::requests::requests_in;
use records::request::Request;
use std::test::Fail;

const FILES: [(&[u8], usize, Ending); 6] = [
    (&[], 0, Ending::Whole),
    (&[1, 1, 4, 0, 1], 3, Ending::Whole),
    (
        &[1, 0],
        1,
        Ending::Refused {
            refusal: UNKNOWN,
            place: 1,
        },
    ),
    (
        &[1, 2, 0, 1, 0],
        1,
        Ending::Refused {
            refusal: CUT,
            place: 1,
        },
    ),
    (
        &[2, 0, 1, 0, 5, 17, 0, 1],
        1,
        Ending::Refused {
            refusal: UNKNOWN,
            place: 5,
        },
    ),
    (
        &[6],
        0,
        Ending::Refused {
            refusal: CUT,
            place: 0,
        },
    ),
];

#[test]
fn endings(rt: HostRuntime) -> Result<(), Fail> {
    for (bytes, count, end) in FILES {
        let (found, ending) = requests_in(rt.alloc(), bytes)?;
        assert_eq!(rt; found.len(), count);
        assert_eq!(rt; ending, end);
    }
    Ok(())
}

#[test]
fn places(rt: HostRuntime) -> Result<(), Fail> {
    let (found, _) = requests_in(rt.alloc(), &[1, 2, 0, 1, 0, 5, 6, 0, 1])?;
    let third = Placed {
        place: 6,
        request: Request::Retry { t: 1 },
    };
    assert_eq!(rt; found.len(), 3);
    assert_eq!(rt; found.last().copied(), Some(third));
    Ok(())
}

#[test]
fn limit(rt: HostRuntime) -> Result<(), Fail> {
    let mut file = vec![in rt.alloc(); 1u8; 60000]?;
    let (found, ending) = requests_in(rt.alloc(), &file)?;
    assert_eq!(rt; found.len(), 60000);
    assert_eq!(rt; ending, Ending::Whole);
    file.push(1)?;
    let (found, ending) = requests_in(rt.alloc(), &file)?;
    assert_eq!(rt; found.len(), 0);
    assert_eq!(rt;
        ending,
        Ending::Refused {
            refusal: LONG,
            place: 0,
        }
    );
    Ok(())
}

// What is read of a source ends one byte behind the limit.
#[test]
fn read(rt: HostRuntime) -> Result<(), Fail> {
    let mut file = vec![in rt.alloc(); 1u8; 60000]?;
    assert_eq!(rt; read_input(rt.alloc(), file.as_slice())?.len(), 60000);
    file.push(2)?;
    file.push(3)?;
    let input = read_input(rt.alloc(), file.as_slice())?;
    assert_eq!(rt; input.len(), 60001);
    assert_eq!(rt; input.last().copied(), Some(2));
    Ok(())
}
