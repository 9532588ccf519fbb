// The bytes of a request file.
ghost use Rattle.std.specs.Prelude.{◌≡◌, take, IfOk, IfSome};

use crate::requests::LIMIT;
use std::alloc::Global;
use std::io;
use std::io::Read;

/// All that the source has, but no more than a file may be long and one byte: the byte more tells that it is too long.
pub fn read_input<R: Read + Drop>(heap: Global, source: R) -> io::Result<Vec<u8>>
    ensures { IfOk result (λ input. IfSome (R.remaining source) (λ all. input.items ≡ take 60001 all)) }
{
    let mut input = Vec::new(heap);
    source.take(LIMIT as u64 + 1).read_to_end(&mut input)?;
    Ok(input)
}
