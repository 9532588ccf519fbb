// The closing records: the open transactions, and the values.
ghost use Rattle.std.specs.Prelude.{◌≡◌, ◌++◌, map, OnOk};
ghost use Rattle.store.specs.Meaning.{laid};
ghost use Rattle.scheduler.specs.Recorded.{still_open};
ghost use Rattle.server.specs.Told.{bytes_of, held, holding};

use crate::output::push_record;
use records::answer::Answer;
use scheduler::transaction::{NOBODY, Transaction};
use std::alloc::AllocError;
use store::store::Store;

pub(crate) fn push_open(out: &mut Vec<u8>, transactions: &[Transaction]) -> Result<(), AllocError>
    ensures { OnOk result (out.new.items ≡ out.old.items ++ bytes_of (map still_open transactions.now)) }
{
    for transaction in transactions {
        push_record(out, Answer::from(*transaction))?;
    }
    Ok(())
}

/// The item's value, unless it is 0.
fn push_value(out: &mut Vec<u8>, item: u16, value: i32) -> Result<(), AllocError>
    ensures { OnOk result (out.new.items ≡ out.old.items ++ bytes_of (held item value)) }
{
    if value == 0 {
        return Ok(());
    }
    push_record(out, Answer::Holds { item, value })
}

/// Each value other than 0, by rising item.
pub(crate) fn push_values<S: Store>(out: &mut Vec<u8>, store: &S) -> Result<(), AllocError>
    ensures { OnOk result (out.new.items ≡ out.old.items ++ bytes_of (holding 0 (laid (S.pending store.now 0) (S.committed store.now)))) }
{
    // A store has no list of its items to go through, and `as` loses nothing: no store has more than 65,536.
    for index in 0..store.size() {
        let item = index as u16;
        let value = store.look(NOBODY, item).unwrap();
        push_value(out, item, value)?;
    }
    Ok(())
}
