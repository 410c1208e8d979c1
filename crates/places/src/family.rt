// Families: one list for each job, in a lent slice.
ghost use Rattle.std.specs.Prelude.{◌≡◌, ℕ, false};

use crate::set::PlaceSet;

// Strikes every place: no kind holds the largest number.
pub fn empty<L: PlaceSet>(list: &mut L)
    ensures { (p : ℕ) → L.has list.new p ≡ false }
{
    list.fix(u16::MAX);
}
