// Rules over three jobs, by the relation that the three places stand in.
ghost use Rattle.std.specs.Prelude.{◌≡◌, ℕ, ◌+◌, ◌*◌, ◌<◌, ◌≤◌, ◌↔◌, Bool, true, false, List, length, IsTrue, None, slice_index};
ghost use Rattle.places.specs.Families.{family};
ghost use Rattle.rules.specs.Narrowing.{Scope, Support};
ghost use Rattle.rules.specs.Triples.{triple, three_jobs, apart, Meets};
ghost use Rattle.std.proofs.Common.{rules};

use crate::progression::Progression;
use crate::rule::Rule;
use crate::sweep::sweep;
use places::PlaceSet;

// What is asked of three places, and how two lists are searched for the places that complete a third.
pub trait Relation {
    // Whether three places stand in the relation.
    ghost relates: { ℕ → ℕ → ℕ → Bool };

    // Whether p is the first of three such places, with the others in the lists.
    fn completes_first<L: PlaceSet>(p: u16, second: &L, third: &L) -> bool
        requires { p < L.LIMIT }
        ensures { IsTrue result ↔ Meets (λ q r. relates p q r) (L.has second.now) (L.has third.now) };

    // Whether p is the second of three such places.
    fn completes_second<L: PlaceSet>(p: u16, first: &L, third: &L) -> bool
        requires { p < L.LIMIT }
        ensures { IsTrue result ↔ Meets (λ q r. relates q p r) (L.has first.now) (L.has third.now) };

    // Whether p is the third of three such places.
    fn completes_third<L: PlaceSet>(p: u16, first: &L, second: &L) -> bool
        requires { p < L.LIMIT }
        ensures { IsTrue result ↔ Meets (λ q r. relates q r p) (L.has first.now) (L.has second.now) };
}

// The places of jobs a, b and c, in this order, stand in a relation.
#[derive(Clone, Copy)]
pub struct Triple<K> {
    pub a: u16,
    pub b: u16,
    pub c: u16,
    pub by: K,
}

impl<K: Relation> Triple<K> {
    pub(crate) fn jobs(&self) -> [u16; 3]
        ensures { result ≡ three_jobs self.now }
    {
        [self.a, self.b, self.c]
    }

    // Whether place p of the job at position k has a support.
    #[tactic(auto, using(crate::proofs::Triples::below_three))]
    pub(crate) fn supports<L: PlaceSet>(&self, lists: &[L], k: usize, p: u16) -> bool
        requires position { k < 3 }
        requires scope { Scope (length lists.now) (three_jobs self.now) }
        requires held { family L.has lists.now (slice_index (three_jobs self.now) k) p ≡ true }
        ensures { IsTrue result ↔ Support (three_jobs self.now) (triple K.relates) (family L.has lists.now) k p }
    {
        // A `match`: closures in a table would be no plainer, since each place is completed from other lists.
        match k {
            0 => K::completes_first(p, &lists[self.b as usize], &lists[self.c as usize]),
            1 => K::completes_second(p, &lists[self.a as usize], &lists[self.c as usize]),
            _ => K::completes_third(p, &lists[self.a as usize], &lists[self.b as usize]),
        }
    }
}

impl<K: Relation> Rule for Triple<K> {
    ghost scope = { three_jobs };

    ghost admits = { λ _. triple K.relates };

    ghost lawful = { λ s n. apart n s.a s.b s.c };

    ghost names = { λ _. None };

    ghost scoped = { Prim.search rules };

    ghost named = { Prim.search rules };

    // Three different jobs below n are named.
    fn is_lawful(&self, n: usize) -> bool {
        let below = self.jobs().iter().all(|&job| (job as usize) < n);
        below && self.a != self.b && self.a != self.c && self.b != self.c
    }

    fn involves(&self, job: u16) -> bool {
        self.jobs().contains(&job)
    }

    fn first_job(&self) -> u16 {
        self.a
    }

    fn names_distinct(&self) -> Option<Progression> {
        None
    }

    fn narrow<L: PlaceSet + Copy>(&self, lists: &mut [L], numbers: &mut [u16]) {
        let _ = numbers;
        sweep(self, lists);
    }
}

// Whether some place of the list passes a test.
// A loop: of `list.places().any(passes)` it stayed unproved that `passes` may be called at each item, and both clauses.
pub fn any_place<L: PlaceSet, F: Fn(u16) -> bool>(list: &L, passes: F) -> bool
    requires { (q : ℕ) → q < L.LIMIT → F.pre passes q }
    ensures found { result ≡ true → (q : ℕ) × (L.has list.now q ≡ true) × F.post passes q true }
    ensures none { result ≡ false → (q : ℕ) → L.has list.now q ≡ true → F.post passes q false }
{
    for q in list.places() {
        if passes(q) {
            return true;
        }
    }
    false
}
