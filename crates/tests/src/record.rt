// What the examples of requests and of answers are put through.
use crate::refused::{CUT, SHORT};
use records::answer::Answer;
use records::read::{read_answer, read_request};
use records::refusal::Refusal;
use records::request::Request;
use records::write::{write_answer, write_request};
use std::fmt::Debug;
use std::process::Abort;
use std::test::Fail;

/// A record that can be written and read back.
pub(crate) trait Record: Copy + PartialEq + Debug {
    fn read(input: &[u8]) -> Result<(Self, &[u8]), Refusal>;

    fn write(self, out: &mut [u8]) -> Result<usize, Refusal>;
}

impl Record for Request {
    fn read(input: &[u8]) -> Result<(Request, &[u8]), Refusal> {
        read_request(input)
    }

    fn write(self, out: &mut [u8]) -> Result<usize, Refusal> {
        write_request(self, out)
    }
}

impl Record for Answer {
    fn read(input: &[u8]) -> Result<(Answer, &[u8]), Refusal> {
        read_answer(input)
    }

    fn write(self, out: &mut [u8]) -> Result<usize, Refusal> {
        write_answer(self, out)
    }
}

/// Each example is written as its bytes, into the front of the buffer alone, and read back.
pub(crate) fn written_and_read<R: Record>(
    rt: &impl Abort,
    examples: &[(R, &[u8])],
) -> Result<(), Fail> {
    for (record, bytes) in examples {
        let mut out = [238; 10];
        assert_eq!(rt; record.write(&mut out), Ok(bytes.len()));
        assert!(rt; out.starts_with(bytes));
        assert_eq!(rt; out[9], 238);
        let (back, rest) = R::read(&out)?;
        assert_eq!(rt; back, *record);
        assert_eq!(rt; rest.len() + bytes.len(), 10);
    }
    Ok(())
}

/// Each cut of an example is refused, and so is each buffer that is too short for it.
pub(crate) fn every_cut<R: Record>(rt: &impl Abort, examples: &[(R, &[u8])]) -> Result<(), Fail> {
    for (record, bytes) in examples {
        for n in 0..bytes.len() {
            let Err(refusal) = R::read(&bytes[0..n]) else {
                return Err(Fail::new("a cut record is read"));
            };
            assert_eq!(rt; refusal, CUT);
            let mut out = [238; 9];
            assert_eq!(rt; record.write(&mut out[0..n.min(9)]), Err(SHORT));
            assert_eq!(rt; out, [238; 9]);
        }
    }
    Ok(())
}
