// The writers of requests and answers. Kinds are bytes here, as the format has them.
ghost use Rattle.std.specs.Prelude.{◌≡◌, ℕ, List, ◌∷◌, ◌++◌, Ok};
ghost use Rattle.std.specs.Int.{w32};
ghost use Rattle.std.proofs.Common.{of_z};
ghost use Rattle.records.specs.Layout.{bytes, AtStart};
ghost use Rattle.records.specs.AnswerRecords.{answer_bytes, read_answer};
ghost use Rattle.records.specs.RequestRecords.{request_bytes, read_request};

use crate::answer::Answer;
use crate::refusal::{Layer, Reason, Refusal};
use crate::request::Request;

/// Puts the record at the start of `out` and says how long it is.
pub fn write_request(request: Request, out: &mut [u8]) -> Result<usize, Refusal>
    ensures written { AtStart (request_bytes request) out.old out.new result }
    ensures reads_back { (tail : List ℕ) → read_request (request_bytes request ++ tail) ≡ Ok (request, tail) }
{
    match request {
        Request::Begin => put(out, &[1]),
        Request::Read { t, item } => put_two(out, 2, t, item),
        Request::Write { t, item, value } => put_value(out, 3, t, item, value),
        Request::Commit { t } => put_one(out, 4, t),
        Request::Abort { t } => put_one(out, 5, t),
        Request::Retry { t } => put_one(out, 6, t),
    }
}

/// Puts the record at the start of `out` and says how long it is.
pub fn write_answer(answer: Answer, out: &mut [u8]) -> Result<usize, Refusal>
    ensures written { AtStart (answer_bytes answer) out.old out.new result }
    ensures reads_back { (tail : List ℕ) → read_answer (answer_bytes answer ++ tail) ≡ Ok (answer, tail) }
{
    match answer {
        Answer::Opened { t } => put_one(out, 17, t),
        Answer::Value { t, item, value } => put_value(out, 18, t, item, value),
        Answer::Written { t, item } => put_two(out, 19, t, item),
        Answer::Committed { t } => put_one(out, 20, t),
        Answer::Aborted { t } => put_one(out, 21, t),
        Answer::Wait { t, blocker } => put_two(out, 22, t, blocker),
        Answer::Deadlock { t } => put_one(out, 23, t),
        Answer::Refused {
            layer,
            number,
            place,
        } => {
            let [p3, p2, p1, p0] = place.to_be_bytes();
            put(out, &[24, layer, number, p3, p2, p1, p0])
        }
        Answer::StillOpen { t, state } => {
            let [t1, t0] = t.to_be_bytes();
            put(out, &[25, t1, t0, state as u8])
        }
        Answer::Holds { item, value } => {
            let [i1, i0] = item.to_be_bytes();
            let [v3, v2, v1, v0] = value.to_be_bytes();
            put(out, &[26, i1, i0, v3, v2, v1, v0])
        }
    }
}

// Three forms, and not one over a list of fields: that would need a loop, and the sum of their lengths before it.
// A kind and one number.
fn put_one(out: &mut [u8], kind: u8, a: u16) -> Result<usize, Refusal>
    ensures { AtStart (kind ∷ bytes 2 a) out.old out.new result }
{
    let [a1, a0] = a.to_be_bytes();
    put(out, &[kind, a1, a0])
}

// A kind and two numbers.
fn put_two(out: &mut [u8], kind: u8, a: u16, b: u16) -> Result<usize, Refusal>
    ensures { AtStart (kind ∷ (bytes 2 a ++ bytes 2 b)) out.old out.new result }
{
    let [a1, a0] = a.to_be_bytes();
    let [b1, b0] = b.to_be_bytes();
    put(out, &[kind, a1, a0, b1, b0])
}

// A kind, a transaction, an item and a value.
fn put_value(out: &mut [u8], kind: u8, t: u16, item: u16, value: i32) -> Result<usize, Refusal>
    ensures { AtStart (kind ∷ (bytes 2 t ++ (bytes 2 item ++ bytes 4 (of_z w32 value)))) out.old out.new result }
{
    let [t1, t0] = t.to_be_bytes();
    let [i1, i0] = item.to_be_bytes();
    let [v3, v2, v1, v0] = value.to_be_bytes();
    put(out, &[kind, t1, t0, i1, i0, v3, v2, v1, v0])
}

fn put(out: &mut [u8], from: &[u8]) -> Result<usize, Refusal>
    ensures { AtStart from.now out.old out.new result }
{
    let n = from.len();
    if out.len() < n {
        return Err(Layer::Records.refusal(Reason::OutputTooShort));
    }
    out[..n].copy_from_slice(from);
    Ok(n)
}
