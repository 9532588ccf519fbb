// Which places lead to a place.
ghost use Rattle.std.specs.Prelude.{ℕ, ◌<◌, Decides};
ghost use Rattle.scheduler.specs.Bits.{has};
ghost use Rattle.scheduler.specs.Ways.{Way, Widened, back};

use crate::places::Places;

/// Where `rows` has for each place the places that it waits for: the marked places, and those that wait for one of
/// them.
fn widened(rows: &[Places; 64], marked: Places) -> Places
    ensures { Widened rows.now marked.bits result.bits }
{
    let mut wider = marked;
    for (place, row) in rows.iter().enumerate() {
        if row.meets(marked) {
            wider = wider.with(place);
        }
    }
    wider
}

/// Where `rows` has for each place the places that it waits for: the places from which a way leads to `to`.
pub(crate) fn leading_to(rows: &[Places; 64], to: usize) -> Places
    requires { to < 64 }
    ensures { (p : ℕ) → Decides (has result.bits p) (Way (back rows.now) to p) }
{
    let mut marked = Places::NONE.with(to);
    loop {
        let wider = widened(rows, marked);
        if wider == marked {
            return marked;
        }
        marked = wider;
    }
}
