// Short inputs, whole.
use crate::checked::check_bytes;
use server::pairs::{serve_beside, serve_in_place};
use std::test::Fail;

/// An input, and what both servers write.
const ALIKE: [(&[u8], &[u8]); 8] = [
    (&[], &[]),
    // A commit waits for a reader, and its retry is granted.
    (
        &[
            1, 1, 2, 0, 1, 0, 5, 3, 0, 2, 0, 5, 0, 0, 0, 200, 4, 0, 2, 4, 0, 1, 6, 0, 2,
        ],
        &[
            17, 0, 1, 17, 0, 2, 18, 0, 1, 0, 5, 0, 0, 0, 0, 19, 0, 2, 0, 5, 22, 0, 2, 0, 1, 20, 0,
            1, 20, 0, 2, 26, 0, 5, 0, 0, 0, 200,
        ],
    ),
    // An unknown kind, and one behind a request: what follows is not read.
    (&[0, 1, 1], &[24, 1, 1, 0, 0, 0, 0]),
    (&[1, 7, 1], &[17, 0, 1, 24, 1, 1, 0, 0, 0, 1, 25, 0, 1, 0]),
    // A body cut short.
    (
        &[1, 2, 0, 1, 0],
        &[17, 0, 1, 24, 1, 2, 0, 0, 0, 1, 25, 0, 1, 0],
    ),
    // Not open, not waiting, no such item.
    (
        &[1, 4, 0, 2, 6, 0, 1, 2, 0, 1, 4, 0],
        &[
            17, 0, 1, 24, 2, 4, 0, 0, 0, 1, 24, 2, 6, 0, 0, 0, 4, 24, 2, 7, 0, 0, 0, 7, 25, 0, 1, 0,
        ],
    ),
    // A reader waits for a writer, and may not write meanwhile; both are open at the end.
    (
        &[
            1, 1, 3, 0, 1, 3, 255, 255, 255, 255, 255, 2, 0, 2, 3, 255, 3, 0, 2, 0, 0, 0, 0, 0, 1,
        ],
        &[
            17, 0, 1, 17, 0, 2, 19, 0, 1, 3, 255, 22, 0, 2, 0, 1, 24, 2, 5, 0, 0, 0, 16, 25, 0, 1,
            0, 25, 0, 2, 1,
        ],
    ),
    // A committed 0 is not told, a committed -1 is.
    (
        &[
            1, 3, 0, 1, 0, 9, 255, 255, 255, 255, 3, 0, 1, 0, 8, 0, 0, 0, 0, 4, 0, 1,
        ],
        &[
            17, 0, 1, 19, 0, 1, 0, 9, 19, 0, 1, 0, 8, 20, 0, 1, 26, 0, 9, 255, 255, 255, 255,
        ],
    ),
];

/// An input, what the server in place writes, and what the private one does.
const APART: [(&[u8], &[u8], &[u8]); 1] = [
    // Two write one item: the second waits, or is granted and commits first.
    (
        &[
            1, 1, 3, 0, 1, 0, 5, 0, 0, 0, 1, 3, 0, 2, 0, 5, 0, 0, 0, 2, 4, 0, 2, 4, 0, 1,
        ],
        &[
            17, 0, 1, 17, 0, 2, 19, 0, 1, 0, 5, 22, 0, 2, 0, 1, 24, 2, 5, 0, 0, 0, 20, 20, 0, 1,
            25, 0, 2, 1, 26, 0, 5, 0, 0, 0, 1,
        ],
        &[
            17, 0, 1, 17, 0, 2, 19, 0, 1, 0, 5, 19, 0, 2, 0, 5, 20, 0, 2, 20, 0, 1, 26, 0, 5, 0, 0,
            0, 1,
        ],
    ),
];

#[test]
fn alike(rt: HostRuntime) -> Result<(), Fail> {
    for (input, expected) in ALIKE {
        check_bytes(&rt, &serve_in_place(rt.alloc(), input)?, expected);
        check_bytes(&rt, &serve_beside(rt.alloc(), input)?, expected);
    }
    Ok(())
}

#[test]
fn apart(rt: HostRuntime) -> Result<(), Fail> {
    for (input, in_place, beside) in APART {
        check_bytes(&rt, &serve_in_place(rt.alloc(), input)?, in_place);
        check_bytes(&rt, &serve_beside(rt.alloc(), input)?, beside);
    }
    Ok(())
}
