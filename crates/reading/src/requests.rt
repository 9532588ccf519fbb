// The requests of a file, one after the other.
ghost use Rattle.std.specs.Prelude.{◌≡◌, IfOk};
ghost use Rattle.reading.specs.Held.{requests_in};

use crate::file::{Ending, Placed};
use records::read::read_request;
use records::refusal::{Layer, Reason};
use std::alloc::{AllocError, Global};

/// The longest file that is read, in bytes.
pub const LIMIT: usize = 60_000;

/// The requests that `input` holds, up to its end or to the first refusal. An `Err` says that memory ran out.
pub fn requests_in(heap: Global, input: &[u8]) -> Result<(Vec<Placed>, Ending), AllocError>
    ensures { IfOk result (λ p. (p.0.items, p.1) ≡ requests_in input.now) }
{
    let mut found = Vec::new(heap);
    if input.len() > LIMIT {
        let refusal = Layer::Records.refusal(Reason::InputTooLong);
        return Ok((found, Ending::Refused { refusal, place: 0 }));
    }
    let mut rest = input;
    // A loop and no iterator: that would hold all of this body, and its caller the two arms again.
    while !rest.is_empty() {
        // `as` is proved to lose nothing here, where `TryFrom` would give a `Result` to take apart.
        let place = (input.len() - rest.len()) as u32;
        match read_request(rest) {
            Ok((request, behind)) => {
                found.push(Placed { place, request })?;
                rest = behind;
            }
            Err(refusal) => return Ok((found, Ending::Refused { refusal, place })),
        }
    }
    Ok((found, Ending::Whole))
}
