// Checks of each element of a table.
ghost use Rattle.std.specs.Prelude.{◌≡◌, ℕ, Bool, ◌≤◌, length};
ghost use Rattle.std.specs.Fn.{FnReturnsAt};
ghost use Rattle.refusals.specs.Codes.{refusal_of, first_fault};
ghost use Rattle.refusals.specs.Checks.{Tells, Names};

use crate::Refusal;

// Refuses the first element at fault, by its index.
pub fn check_each<T, F: Fn(&T) -> bool, N: FnOnce(u16) -> Refusal>(
    items: &[T],
    is_at_fault: F,
    refusal_at: N,
) -> Result<(), Refusal>
    requires few { length items.now ≤ 65536 }
    requires tells { F.IsAlwaysCallable is_at_fault }
    requires names { N.IsAlwaysCallable refusal_at }
    ensures { (bad : T → Bool) (number : ℕ)
        → Tells (FnReturnsAt F.Fn is_at_fault) bad
        → Names (N.post refusal_at) number (length items.now)
        → refusal_of result ≡ first_fault bad number 0 items.now }
{
    match items.iter().position(is_at_fault) {
        Some(i) => Err(refusal_at(i as u16)),
        None => Ok(()),
    }
}
