// Strikes places from the lists of a progression's jobs.
ghost use Rattle.std.specs.Prelude.{◌≡◌, ℕ, ◌+◌, ◌*◌, ◌<◌, false, ◌&&◌, length};
ghost use Rattle.places.specs.Families.{family};
ghost use Rattle.rules.specs.Narrowing.{Scope};
ghost use Rattle.rules.specs.Progressions.{jobs_of};
ghost use Rattle.distinct.specs.Scopes.{Sifted};
ghost use Rattle.distinct.specs.Divisions.{stays_in, Covers};

use matching::NONE;
use places::{PlaceSet, empty};
use rules::Progression;

// What was found of a full matching: the jobs' places, the places' holders, the components, and the marks of the jobs that reach a free place.
#[derive(Drop)]
pub struct Division<'a, 'b> {
    pub places: &'a [u16],
    pub holders: &'a [u16],
    pub labels: &'b [u16],
    pub marks: &'b [u16],
}

impl<'a, 'b> Division<'a, 'b> {
    // Whether a place stays in the list of a job.
    fn keeps(&self, job: usize, place: u16) -> bool
        requires job { (job < length self.now.places.now) × (job < length self.now.labels.now) }
        requires place { (w m : ℕ) × (place < w) × Covers m w self.now }
        ensures { result ≡ stays_in self.now job place }
    {
        // `NONE` and the mark 1 are read as they lie in the tables: a closure over an `Option` of the holder would owe its bounds again.
        let holder = self.holders[place as usize];
        self.places[job] == place
            || holder == NONE
            || self.marks[holder as usize] == 1
            || self.labels[holder as usize] == self.labels[job]
    }
}

// Strikes from the list of a job the places that do not stay.
fn sift<L: PlaceSet + Copy>(list: &mut L, division: &Division, job: usize)
    requires { (m : ℕ) × (job < m) × Covers m L.LIMIT division.now }
    ensures { (q : ℕ) → L.has list.new q ≡ (L.has list.old q && stays_in division.now job q) }
{
    let whole = *list;
    for place in whole.places() {
        if !division.keeps(job, place) {
            list.strike(place);
        }
    }
}

// Strikes from each list of the progression the places that do not stay.
pub fn sift_all<L: PlaceSet + Copy>(jobs: &Progression, lists: &mut [L], division: &Division)
    requires scope { Scope (length lists.old) (jobs_of jobs.now) }
    requires tables { Covers jobs.now.count L.LIMIT division.now }
    ensures { Sifted (jobs_of jobs.now) jobs.now.count (stays_in division.now) (family L.has lists.old) (family L.has lists.new) }
{
    for (i, job) in jobs.iter().enumerate() {
        sift(&mut lists[job], division, i);
    }
}

// Strikes every place from each list of the progression.
pub fn empty_all<L: PlaceSet>(jobs: &Progression, lists: &mut [L])
    requires scope { Scope (length lists.old) (jobs_of jobs.now) }
    ensures { Sifted (jobs_of jobs.now) jobs.now.count (λ k q. false) (family L.has lists.old) (family L.has lists.new) }
{
    for job in jobs.iter() {
        empty(&mut lists[job]);
    }
}
