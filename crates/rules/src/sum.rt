// The places of jobs a and b add up to that of c.
ghost use Rattle.std.specs.Prelude.{◌≡◌, ℕ, ◌+◌, ◌<◌, ◌↔◌, Bool, IsTrue};
ghost use Rattle.rules.specs.Triples.{is_sum, Meets};

use crate::triple::{Relation, Triple, any_place};
use places::PlaceSet;

#[derive(Clone, Copy)]
pub struct Addition;

pub type Sum = Triple<Addition>;

impl Relation for Addition {
    ghost relates = { is_sum };

    fn completes_first<L: PlaceSet>(p: u16, second: &L, third: &L) -> bool {
        any_place(second, |q| third.contains(p + q))
    }

    fn completes_second<L: PlaceSet>(p: u16, first: &L, third: &L) -> bool {
        any_place(first, |q| third.contains(q + p))
    }

    fn completes_third<L: PlaceSet>(p: u16, first: &L, second: &L) -> bool {
        any_place(first, |q| q <= p && second.contains(p - q))
    }
}
