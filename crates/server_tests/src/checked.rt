// Bytes, compared one by one.
use std::process::Abort;

pub(crate) fn check_bytes(rt: &impl Abort, found: &[u8], expected: &[u8]) {
    assert_eq!(rt; found.len(), expected.len());
    for (byte, right) in found.iter().zip(expected) {
        assert_eq!(rt; *byte, *right);
    }
}

/// Those from `place` on, as many as are expected.
pub(crate) fn check_part(rt: &impl Abort, found: &[u8], place: usize, expected: &[u8]) {
    for (byte, right) in found.iter().skip(place).zip(expected) {
        assert_eq!(rt; *byte, *right);
    }
}
