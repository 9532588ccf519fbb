// The two servers: a store, and the lock rule that suits it.
ghost use Rattle.std.specs.Prelude.{IfOk};
ghost use Rattle.cases.specs.Servers.{in_place_server, private_server};
ghost use Rattle.server.specs.Output.{Outputs};

use crate::serve::serve;
use cases::starting_values;
use scheduler::rule::{DeferredUpdates, WritersPassReaders};
use std::alloc::{AllocError, Global};
use store::in_place::InPlace;
use store::private::Private;

// Each says which store and which rule; a trait cannot name a store for every lifetime of its slice, so they are not one function.

/// Serves an input over 1,024 zeros that are written in place; writers pass readers and exclude each other.
pub fn serve_in_place(heap: Global, input: &[u8]) -> Result<Vec<u8>, AllocError>
    ensures { IfOk result (λ out. Outputs in_place_server input.now out.items) }
{
    let mut values = starting_values();
    let store = InPlace::open(&mut values);
    serve(heap, store, WritersPassReaders, input)
}

/// Serves an input over 1,024 zeros, with pending writes kept apart until the commit; a write waits for nobody.
pub fn serve_beside(heap: Global, input: &[u8]) -> Result<Vec<u8>, AllocError>
    ensures { IfOk result (λ out. Outputs private_server input.now out.items) }
{
    let mut values = starting_values();
    let store = Private::open(&mut values);
    serve(heap, store, DeferredUpdates, input)
}
