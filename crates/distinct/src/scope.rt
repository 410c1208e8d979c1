// The lists of a progression's jobs.
ghost use Rattle.std.specs.Prelude.{◌≡◌, ◌+◌, ◌-◌, ◌*◌, ◌<◌, ◌≤◌, length, slice_index};
ghost use Rattle.places.specs.Families.{family};
ghost use Rattle.rules.specs.Progressions.{jobs_of};
ghost use Rattle.distinct.specs.Scopes.{scoped};

use matching::Bipartite;
use places::PlaceSet;
use rules::Progression;

// A progression with the lists of a family.
#[derive(Drop)]
pub struct Scoped<'a, L> {
    pub lists: &'a [L],
    pub jobs: Progression,
    ghost few: { jobs.count ≤ 256 },
    ghost fits: { jobs.first + (jobs.count - 1) * jobs.step < length lists.now },
}

impl<'a, L> Scoped<'a, L> {
    // Which list is that of the job at position `i`.
    fn index(&self, i: usize) -> usize
        requires { i < self.now.jobs.count }
        ensures value { result ≡ slice_index (jobs_of self.now.jobs) i }
        ensures within { result < length self.now.lists.now }
    {
        self.jobs.job_at(i)
    }
}

impl<'a, L: PlaceSet> Bipartite for Scoped<'a, L> {
    ghost jobs = { λ s. s.jobs.count };

    ghost width = { λ _. L.LIMIT };

    ghost holds = { λ s. scoped (jobs_of s.jobs) (family L.has s.lists.now) };

    fn next_from(&self, job: usize, place: u16) -> Option<u16> {
        self.lists[self.index(job)].next_from(place)
    }
}
