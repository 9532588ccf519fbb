// What belongs to transactions, and goes with them.
ghost use Rattle.std.specs.Prelude.{◌≡◌, ◌≤◌, ℕ, length, take, filter};
ghost use Rattle.arrayvec.specs.ArrayVec.{array_vec_len};
ghost use Rattle.store.specs.Belonging.{of_others};

use arrayvec::ArrayVec;

/// What belongs to a transaction.
pub trait Belongs: Copy + Default + Drop {
    ghost owner: { Self → ℕ };

    /// The number of its transaction.
    fn owner(self) -> u16
        ensures { result ≡ owner self };
}

/// Moves what belongs to other transactions to the front, in its order, and tells how much that is.
// By number: `retain` of the vector exchanges two elements at each step, and takes up to twice as long.
fn move_up<T: Belongs>(items: &mut [T], t: u16) -> usize
    ensures front { take result items.new ≡ filter (of_others T.owner t) items.old }
    ensures bound { result ≤ length items.old }
{
    let mut kept = 0;
    for i in 0..items.len() {
        let one = items[i];
        if one.owner() != t {
            items[kept] = one;
            kept += 1;
        }
    }
    kept
}

/// Takes out what belongs to the transaction, and leaves the rest in its order.
pub fn let_go<T: Belongs, const CAP: usize>(list: &mut ArrayVec<T, CAP>, t: u16)
    ensures items { list.new.items ≡ filter (of_others T.owner t) list.old.items }
    ensures bound { array_vec_len list.new ≤ array_vec_len list.old }
{
    let kept = move_up(list.as_mut_slice(), t);
    list.truncate(kept);
}
