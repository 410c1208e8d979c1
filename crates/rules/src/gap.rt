// The places of jobs a and b differ by that of c.
ghost use Rattle.std.specs.Prelude.{◌≡◌, ℕ, ◌+◌, ◌<◌, ◌↔◌, Bool, IsTrue};
ghost use Rattle.rules.specs.Triples.{is_gap, Meets};

use crate::triple::{Relation, Triple, any_place};
use places::PlaceSet;

#[derive(Clone, Copy)]
pub struct Distance;

pub type Gap = Triple<Distance>;

impl Relation for Distance {
    ghost relates = { is_gap };

    fn completes_first<L: PlaceSet>(p: u16, second: &L, third: &L) -> bool {
        any_place(second, |q| third.contains(p.abs_diff(q)))
    }

    fn completes_second<L: PlaceSet>(p: u16, first: &L, third: &L) -> bool {
        any_place(first, |q| third.contains(p.abs_diff(q)))
    }

    // The larger place is p more than the smaller, which may be of either list.
    fn completes_third<L: PlaceSet>(p: u16, first: &L, second: &L) -> bool {
        any_place(first, |q| second.contains(p + q)) || any_place(second, |q| first.contains(p + q))
    }
}
