// The longest input, and one byte more.
use crate::checked::{check_bytes, check_part};
use server::pairs::{serve_beside, serve_in_place};
use std::alloc::Global;
use std::process::Abort;
use std::test::Fail;

/// The lengths of the records that tell opened, refused and still open, kind included.
const OPENED: usize = 3;

const REFUSED: usize = 7;

const OPEN: usize = 4;

/// How many may be open at once.
const MOST: usize = 64;

fn begins(heap: Global, count: usize) -> Result<Vec<u8>, Fail> {
    let mut input = Vec::new(heap);
    input.resize(count, 1)?;
    Ok(input)
}

// All begin: 64 are open, each other is refused at its place, and the open ones are told at the end.
fn check_longest(rt: &impl Abort, output: &[u8]) {
    let refused = (60_000 - MOST) * REFUSED;
    let end = MOST * OPENED + refused;
    assert_eq!(rt; output.len(), end + MOST * OPEN);
    let first = MOST * OPENED;
    check_part(rt, output, first, &[24, 2, 8, 0, 0, 0, 64]);
    check_part(rt, output, end - REFUSED, &[24, 2, 8, 0, 0, 234, 95]);
    check_part(rt, output, end, &[25, 0, 1, 0]);
}

#[test]
fn longest(rt: HostRuntime) -> Result<(), Fail> {
    let input = begins(rt.alloc(), 60_000)?;
    check_longest(&rt, &serve_in_place(rt.alloc(), &input)?);
    check_longest(&rt, &serve_beside(rt.alloc(), &input)?);
    Ok(())
}

#[test]
fn too_long(rt: HostRuntime) -> Result<(), Fail> {
    let input = begins(rt.alloc(), 60_001)?;
    let refused = [24, 1, 3, 0, 0, 0, 0];
    check_bytes(&rt, &serve_in_place(rt.alloc(), &input)?, &refused);
    check_bytes(&rt, &serve_beside(rt.alloc(), &input)?, &refused);
    Ok(())
}
