// What every list kind offers: a set of places below the kind's own limit.
ghost use Rattle.std.specs.Prelude.{◌≡◌, ℕ, ◌+◌, ◌-◌, ◌<◌, ◌≤◌, Bool, true, ⊤, MatchOption};
ghost use Rattle.std.specs.Iterator.{at_most};
ghost use Rattle.theory.specs.Counts.{count};
ghost use Rattle.places.specs.Sets.{without, only, First};

pub trait PlaceSet: Sized {
    // Places are below this number.
    const LIMIT: usize;

    ghost LIMIT: { ℕ };

    // Whether the list holds a place.
    ghost has: { Self → ℕ → Bool };

    fn contains(&self, place: u16) -> bool
        ensures value { result ≡ has self.now place };

    // How many places are held.
    fn count(&self) -> u16
        ensures value { result ≡ count (has self.now) LIMIT };

    // The smallest held place at or above `place`.
    fn next_from(&self, place: u16) -> Option<u16>
        ensures first { First (has self.now) place result };

    // Takes `place` out.
    fn strike(&mut self, place: u16)
        ensures after { (q : ℕ) → has self.new q ≡ without (has self.old) place q };

    // Leaves `place` alone if it was held, and nothing otherwise.
    fn fix(&mut self, place: u16)
        ensures after { (q : ℕ) → has self.new q ≡ only (has self.old) place q };

    // The held places, rising.
    final fn places(&self) -> Places<'_, Self>
        ensures list { result.list.now ≡ self.now }
        ensures first { result.from ≡ 0 }
    {
        Places {
            list: self,
            from: 0,
        }
    }

    ghost bounded: { (0 < LIMIT) × (LIMIT ≤ 2048) };

    ghost within: { (x : Self) (p : ℕ) → has x p ≡ true → p < LIMIT };
}

// The places of a list from `from` on, rising.
#[derive(Drop)]
pub struct Places<'a, L> {
    list: &'a L,
    from: u16,
}

impl<'a, L: PlaceSet> Iterator for Places<'a, L> {
    type Item = u16;

    ghost next_gives = { λ s r t. (t.list.now ≡ s.list.now) × First (L.has s.list.now) s.from r × MatchOption r ⊤ (λ p. t.from ≡ p + 1) };

    ghost remaining = { λ s. at_most (L.LIMIT - s.from) };

    fn next(&mut self) -> Option<u16> {
        let place = self.list.next_from(self.from)?;
        self.from = place + 1;
        Some(place)
    }
}

// The places named make no list of the kind.
#[derive(Clone, Copy, Debug)]
pub struct NoList;
