// Which places each of some jobs can take.
ghost use Rattle.std.specs.Prelude.{◌≡◌, ℕ, ◌+◌, ◌-◌, ◌<◌, ◌≤◌, Bool, ⊤, IfSome, MatchOption};
ghost use Rattle.std.specs.Iterator.{at_most};
ghost use Rattle.places.specs.Sets.{First};

// A trait without laws: an impl with a lifetime cannot answer one.
pub trait Bipartite {
    // How many jobs there are.
    ghost jobs: { Self → ℕ };

    // Places are below this number.
    ghost width: { Self → ℕ };

    // Whether a job can take a place.
    ghost holds: { Self → ℕ → ℕ → Bool };

    // The smallest place at or above `place` that the job can take. No list is asked for, so that places may be worked out as well as stored.
    fn next_from(&self, job: usize, place: u16) -> Option<u16>
        requires { job < jobs self.now }
        ensures first { First (holds self.now job) place result }
        ensures within { IfSome result (λ p. p < width self.now) };
}

// The places that a job can take from `from` on, rising.
#[derive(Drop)]
pub struct JobPlaces<'a, J: Bipartite> {
    jobs: &'a J,
    job: usize,
    from: u16,
    ghost known: { job < J.jobs jobs.now },
    ghost narrow: { J.width jobs.now ≤ 2048 },
}

impl<'a, J: Bipartite> JobPlaces<'a, J> {
    // All places that a job can take.
    pub fn of(jobs: &'a J, job: usize) -> JobPlaces<'a, J>
        requires job { job < J.jobs jobs.now }
        requires narrow { J.width jobs.now ≤ 2048 }
        ensures jobs { result.jobs.now ≡ jobs.now }
        ensures job { result.job ≡ job }
        ensures first { result.from ≡ 0 }
    {
        JobPlaces { jobs, job, from: 0 }
    }
}

impl<'a, J: Bipartite> Iterator for JobPlaces<'a, J> {
    type Item = u16;

    ghost next_gives = { λ s r t. (t.jobs.now ≡ s.jobs.now) × (t.job ≡ s.job) × First (J.holds s.jobs.now s.job) s.from r × MatchOption r ⊤ (λ p. (p < J.width s.jobs.now) × (t.from ≡ p + 1)) };

    ghost remaining = { λ s. at_most (J.width s.jobs.now - s.from) };

    fn next(&mut self) -> Option<u16> {
        let place = self.jobs.next_from(self.job, self.from)?;
        self.from = place + 1;
        Some(place)
    }
}
