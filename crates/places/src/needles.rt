// A set of at most eight places below 2,048, as numbers in a lent table. The numbers carry no invariant: their longest
// front part that a making would pass is the set.
ghost use Rattle.std.specs.Prelude.{◌≡◌, ℕ, ◌≤◌, length, is_ok, IfOk};
ghost use Rattle.theory.specs.Lists.{member};
ghost use Rattle.places.specs.Needles.{front_part, makes_list, needles_have};
ghost use Rattle.places.specs.Rising.{rising_rest};
ghost use Rattle.places.specs.Fronts.{member_within, front_rises};
ghost use Rattle.std.proofs.Common.{rules};

use crate::rising::{
    Rising, first_from, has_place, how_many, is_rising, stored, stored_only, stored_without,
};
use crate::set::{NoList, PlaceSet};

#[derive(Clone, Copy)]
pub struct NeedleList {
    pub places: [u16; 8],
}

impl NeedleList {
    // The list of exactly the named needles; refused for more than eight, for needles that do not rise, and for one of
    // 2,048 or more.
    pub fn new(named: &[u16]) -> Result<NeedleList, NoList>
        ensures accepts { is_ok result ≡ makes_list named.now }
        ensures holds { IfOk result (λ l. (q : ℕ) → needles_have l.places q ≡ member named.now q) }
    {
        if named.len() > 8 || !is_rising(named) {
            return Err(NoList);
        }
        Ok(NeedleList {
            places: stored(named.iter().copied()),
        })
    }

    // The stored numbers that count: the places held, rising.
    fn front(&self) -> Rising<'_>
        ensures value { rising_rest result ≡ front_part 0 self.now.places }
        ensures few { length (rising_rest result) ≤ 8 }
    {
        Rising::of(&self.places)
    }
}

impl PlaceSet for NeedleList {
    const LIMIT: usize = 2048;

    ghost LIMIT = { 2048 };

    ghost has = { λ x. needles_have x.places };

    ghost bounded = { Prim.search rules };

    ghost within = { λ x p held. (member_within 0 (front_part 0 x.places) p (front_rises 0 x.places) held).1 };

    fn contains(&self, place: u16) -> bool {
        has_place(self.front(), place)
    }

    fn count(&self) -> u16 {
        how_many(self.front())
    }

    fn next_from(&self, place: u16) -> Option<u16> {
        first_from(self.front(), place)
    }

    fn strike(&mut self, place: u16) {
        self.places = stored_without(self.front(), place);
    }

    fn fix(&mut self, place: u16) {
        self.places = stored_only(self.front(), place);
    }
}
