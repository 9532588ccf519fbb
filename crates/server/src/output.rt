// Records, put one behind the other as bytes.
ghost use Rattle.std.specs.Prelude.{◌≡◌, ◌++◌, OnOk};
ghost use Rattle.records.specs.AnswerRecords.{answer_bytes};
ghost use Rattle.server.specs.Told.{bytes_of, ended, told_all};

use crate::told::answer_record;
use reading::file::{Ending, Placed};
use records::answer::Answer;
use records::refusal::Refusal;
use records::write::write_answer;
use scheduler::reply::Reply;
use std::alloc::AllocError;

/// The length of the longest record, kind included.
const LONGEST: usize = 9;

pub(crate) fn push_record(out: &mut Vec<u8>, answer: Answer) -> Result<(), AllocError>
    ensures { OnOk result (out.new.items ≡ out.old.items ++ answer_bytes answer) }
{
    // A record is written into a lent buffer and its length told, as any buffer may be lent.
    let mut bytes = [0; LONGEST];
    let n = write_answer(answer, &mut bytes).unwrap();
    out.extend_from_slice(&bytes[..n])
}

/// Each answer, with the place of its request.
pub(crate) fn push_answers(
    out: &mut Vec<u8>,
    found: &[Placed],
    answers: &[Result<Reply, Refusal>],
) -> Result<(), AllocError>
    ensures { OnOk result (out.new.items ≡ out.old.items ++ bytes_of (told_all found.now answers.now)) }
{
    for (placed, answer) in found.iter().zip(answers) {
        push_record(out, answer_record(placed.place, *answer))?;
    }
    Ok(())
}

/// The refusal that ended the reading, if one did.
pub(crate) fn push_ending(out: &mut Vec<u8>, ending: Ending) -> Result<(), AllocError>
    ensures { OnOk result (out.new.items ≡ out.old.items ++ bytes_of (ended ending)) }
{
    match ending {
        Ending::Whole => Ok(()),
        Ending::Refused { refusal, place } => push_record(out, answer_record(place, Err(refusal))),
    }
}
