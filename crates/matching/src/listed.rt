// Jobs whose places stand in lists of one list kind.
ghost use Rattle.std.specs.Prelude.{◌≡◌, ℕ, ◌<◌, Bool};

use crate::bipartite::Bipartite;
use places::PlaceSet;

// Jobs that lend their lists, so that each question of the list kind can be asked. A trait without laws, as `Bipartite`.
pub trait Listed {
    type List: PlaceSet;

    // How many jobs there are.
    ghost jobs: { Self → ℕ };

    // Whether a job can take a place.
    ghost holds: { Self → ℕ → ℕ → Bool };

    // The places that a job can take.
    fn list(&self, job: usize) -> &Self::List
        requires { job < jobs self.now }
        ensures { Self.List.has result.now ≡ holds self.now job };
}

// Such jobs to be matched: their lists are asked for one place after the other.
#[derive(Drop)]
pub struct ByLists<'a, J> {
    pub jobs: &'a J,
}

impl<'a, J: Listed> Bipartite for ByLists<'a, J> {
    ghost jobs = { λ b. J.jobs b.jobs.now };

    ghost width = { λ _. J.List.LIMIT };

    ghost holds = { λ b. J.holds b.jobs.now };

    fn next_from(&self, job: usize, place: u16) -> Option<u16> {
        self.jobs.list(job).next_from(place)
    }
}
