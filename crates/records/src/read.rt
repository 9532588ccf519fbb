// The readers of requests and answers. Kinds are bytes here, in patterns, ranges and guards, as the format has them.
ghost use Rattle.std.specs.Prelude.{◌≡◌, ◌+◌, ◌*◌, ◌≤◌, ◌∷◌, ◌++◌, length, drop, Ok, slice_index};
ghost use Rattle.records.specs.AnswerRecords.{read_answer, answer_bytes, body_length};
ghost use Rattle.records.specs.Layout.{Reads, WritesBack};
ghost use Rattle.records.specs.RequestRecords.{read_request, request_bytes};

use crate::answer::{Activity, Answer};
use crate::refusal::{Layer, Reason, Refusal};
use crate::request::Request;

// A constant's value can call no function, so both are written out.
const UNKNOWN_KIND: Refusal = Refusal {
    layer: Layer::Records,
    reason: Reason::UnknownKind,
};

const CUT_SHORT: Refusal = Refusal {
    layer: Layer::Records,
    reason: Reason::BodyCutShort,
};

// A number of two bytes.
fn pair(high: u8, low: u8) -> u16
    ensures { result ≡ high * 256 + low }
{
    u16::from_be_bytes([high, low])
}

/// The request at the start of `input`, and the rest of the input.
pub fn read_request(input: &[u8]) -> Result<(Request, &[u8]), Refusal>
    ensures reads { Reads (read_request input.now) result }
    ensures writes_back { WritesBack request_bytes input.now result }
{
    match input {
        [1, rest @ ..] => Ok((Request::Begin, rest)),
        [2, t1, t0, i1, i0, rest @ ..] => {
            let t = pair(*t1, *t0);
            let item = pair(*i1, *i0);
            Ok((Request::Read { t, item }, rest))
        }
        [3, t1, t0, i1, i0, v3, v2, v1, v0, rest @ ..] => {
            let t = pair(*t1, *t0);
            let item = pair(*i1, *i0);
            let value = i32::from_be_bytes([*v3, *v2, *v1, *v0]);
            Ok((Request::Write { t, item, value }, rest))
        }
        [4, t1, t0, rest @ ..] => Ok((Request::Commit { t: pair(*t1, *t0) }, rest)),
        [5, t1, t0, rest @ ..] => Ok((Request::Abort { t: pair(*t1, *t0) }, rest)),
        [6, t1, t0, rest @ ..] => Ok((Request::Retry { t: pair(*t1, *t0) }, rest)),
        [] | [2..=6, ..] => Err(CUT_SHORT),
        _ => Err(UNKNOWN_KIND),
    }
}

/// The answer at the start of `input`, and the rest of the input.
pub fn read_answer(input: &[u8]) -> Result<(Answer, &[u8]), Refusal>
    ensures reads { Reads (read_answer input.now) result }
    ensures writes_back { WritesBack answer_bytes input.now result }
{
    match input {
        [] => Err(CUT_SHORT),
        [kind, body @ ..] => read_body(*kind, body),
    }
}

fn read_body(kind: u8, body: &[u8]) -> Result<(Answer, &[u8]), Refusal>
    ensures reads { Reads (read_answer (kind ∷ body.now)) result }
    ensures writes_back { WritesBack answer_bytes (kind ∷ body.now) result }
{
    let size = body_length(kind);
    match kind {
        17..=26 if body.len() < size => Err(CUT_SHORT),
        25 if body[2] > 1 => Err(UNKNOWN_KIND),
        17..=26 => Ok((answer_of(kind, body), &body[size..])),
        _ => Err(UNKNOWN_KIND),
    }
}

// The answer in a whole body.
fn answer_of(kind: u8, body: &[u8]) -> Answer
    requires known { (17 ≤ kind) × (kind ≤ 26) }
    requires whole { body_length kind ≤ length body.now }
    requires state { kind ≡ 25 → slice_index body.now 2 ≤ 1 }
    ensures reads { read_answer (kind ∷ body.now) ≡ Ok (result, drop (body_length kind) body.now) }
    ensures writes_back { answer_bytes result ++ drop (body_length kind) body.now ≡ kind ∷ body.now }
{
    match (kind, body) {
        (17, &[t1, t0, ..]) => Answer::Opened { t: pair(t1, t0) },
        (18, &[t1, t0, i1, i0, v3, v2, v1, v0, ..]) => Answer::Value {
            t: pair(t1, t0),
            item: pair(i1, i0),
            value: i32::from_be_bytes([v3, v2, v1, v0]),
        },
        (19, &[t1, t0, i1, i0, ..]) => Answer::Written {
            t: pair(t1, t0),
            item: pair(i1, i0),
        },
        (20, &[t1, t0, ..]) => Answer::Committed { t: pair(t1, t0) },
        (21, &[t1, t0, ..]) => Answer::Aborted { t: pair(t1, t0) },
        (22, &[t1, t0, b1, b0, ..]) => Answer::Wait {
            t: pair(t1, t0),
            blocker: pair(b1, b0),
        },
        (23, &[t1, t0, ..]) => Answer::Deadlock { t: pair(t1, t0) },
        (24, &[layer, number, p3, p2, p1, p0, ..]) => Answer::Refused {
            layer,
            number,
            place: u32::from_be_bytes([p3, p2, p1, p0]),
        },
        (25, &[t1, t0, 0, ..]) => Answer::StillOpen {
            t: pair(t1, t0),
            state: Activity::Active,
        },
        (25, &[t1, t0, 1, ..]) => Answer::StillOpen {
            t: pair(t1, t0),
            state: Activity::Waiting,
        },
        (26, &[i1, i0, v3, v2, v1, v0, ..]) => Answer::Holds {
            item: pair(i1, i0),
            value: i32::from_be_bytes([v3, v2, v1, v0]),
        },
        _ => unreachable!(),
    }
}

// How long the body of an answer is.
fn body_length(kind: u8) -> usize
    ensures { result ≡ body_length kind }
{
    match kind {
        17 | 20 | 21 | 23 => 2,
        25 => 3,
        19 | 22 => 4,
        24 | 26 => 6,
        18 => 8,
        _ => 0,
    }
}
