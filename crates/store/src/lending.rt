// A slice lent to a store for a while: what the lender finds in it afterwards.
ghost use Rattle.std.specs.Prelude.{◌≡◌, true, false};
ghost use Rattle.store.specs.Meaning.{nothing};
ghost use Rattle.store.specs.Rehearsals.{accepted};
ghost use Rattle.store.specs.Slices.{items};

use crate::in_place::InPlace;
use crate::on_slice::OnSlice;
use crate::private::Private;
use crate::rehearsal::{Write, rehearse};

/// Rehearses writes in a store on the slice, and gives the slice back as it was.
pub fn rehearse_on<'a, S: OnSlice<'a>>(
    values: &'a mut [i32],
    t: u16,
    writes: &[Write],
) -> (usize, &'a mut [i32])
    ensures accepted { result.0 ≡ accepted S.private S.room S.share (items values.old) nothing t writes.now }
    ensures slice { result.1.now ≡ values.old }
    ensures home { result.1.ghost_name ≡ values.entry.ghost_name }
{
    let mut store = S::open(values);
    let count = rehearse(&mut store, t, writes);
    (count, store.close())
}

/// Rehearses writes in place, in the caller's slice, and leaves the slice as it was.
pub fn rehearse_in_place(values: &mut [i32], t: u16, writes: &[Write]) -> usize
    ensures accepted { result ≡ accepted false 512 512 (items values.old) nothing t writes.now }
    ensures slice { values.new ≡ values.old }
{
    rehearse_on::<InPlace<'_>>(values, t, writes).0
}

/// Rehearses writes in a private store, beside the caller's slice, and leaves the slice as it was.
pub fn rehearse_beside(values: &mut [i32], t: u16, writes: &[Write]) -> usize
    ensures accepted { result ≡ accepted true 512 64 (items values.old) nothing t writes.now }
    ensures slice { values.new ≡ values.old }
{
    rehearse_on::<Private<'_>>(values, t, writes).0
}
