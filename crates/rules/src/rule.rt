// What every rule kind offers.
ghost use Rattle.std.specs.Prelude.{◌≡◌, ℕ, ◌+◌, ◌*◌, ◌≤◌, Bool, true, List, length, Some, Option, slice_index};
ghost use Rattle.theory.specs.Lists.{member};
ghost use Rattle.places.specs.Families.{family};
ghost use Rattle.rules.specs.Narrowing.{Narrowed, Scope};
ghost use Rattle.rules.specs.Progressions.{Names};
ghost use Rattle.rules.specs.declared.progression.Progression.{Progression as NamedJobs};

use crate::progression::Progression;
use places::PlaceSet;

// A constraint on the places of a row of jobs.
pub trait Rule {
    // The row of jobs.
    ghost scope: { Self → List ℕ };

    // The rows of places that it admits, one place for each job of the scope.
    ghost admits: { Self → List ℕ → Bool };

    // Whether it may stand for n jobs.
    ghost lawful: { Self → ℕ → Bool };

    // The distinct rule that it is, if it is one.
    ghost names: { Self → Option NamedJobs };

    fn is_lawful(&self, n: usize) -> bool
        ensures value { result ≡ lawful self.now n };

    // Whether the scope names a job.
    fn involves(&self, job: u16) -> bool
        ensures value { result ≡ member (scope self.now) job };

    // The first job of the scope.
    fn first_job(&self) -> u16
        ensures value { result ≡ slice_index (scope self.now) 0 };

    fn names_distinct(&self) -> Option<Progression>
        ensures value { result ≡ names self.now };

    // Leaves in the lists of the scope exactly the places with a support.
    fn narrow<L: PlaceSet + Copy>(&self, lists: &mut [L], numbers: &mut [u16])
        requires few { length lists.old ≤ 256 }
        requires lawful { lawful self.now (length lists.old) ≡ true }
        requires memory { 7 * (length lists.old + L.LIMIT) ≤ length numbers.old }
        ensures narrowed { Narrowed (scope self.now) (admits self.now) (family L.has lists.old) (family L.has lists.new) };

    ghost scoped: { (r : Self) (n : ℕ) → lawful r n ≡ true → Scope n (scope r) };

    ghost named: { (r : Self) (d : NamedJobs) → names r ≡ Some d → Names (scope r) (admits r) d };
}
