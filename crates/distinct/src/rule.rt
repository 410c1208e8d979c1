// The distinct rule.
ghost use Rattle.std.specs.Prelude.{◌≡◌, Some};
ghost use Rattle.rules.specs.Progressions.{jobs_of, lawful, no_place_twice};
ghost use Rattle.rules.proofs.Progressions.{lawful_scope};
ghost use Rattle.std.proofs.Common.{rules};

use crate::narrow::narrow_jobs;
use places::PlaceSet;
use rules::{Progression, Rule};

// No two of the jobs may have one place.
#[derive(Clone, Copy)]
pub struct Distinct {
    pub jobs: Progression,
}

impl Rule for Distinct {
    ghost scope = { λ s. jobs_of s.jobs };

    ghost admits = { λ _. no_place_twice };

    ghost lawful = { λ s. lawful s.jobs };

    ghost names = { λ s. Some s.jobs };

    ghost scoped = { λ r. lawful_scope r.jobs };

    ghost named = { Prim.search rules };

    fn is_lawful(&self, n: usize) -> bool {
        self.jobs.is_lawful(n)
    }

    fn involves(&self, job: u16) -> bool {
        self.jobs.contains(job)
    }

    fn first_job(&self) -> u16 {
        self.jobs.first_job()
    }

    fn names_distinct(&self) -> Option<Progression> {
        Some(self.jobs)
    }

    fn narrow<L: PlaceSet + Copy>(&self, lists: &mut [L], numbers: &mut [u16]) {
        narrow_jobs(&self.jobs, lists, numbers);
    }
}
