// A largest matching: first each job takes what is free, then jobs move to make room for the others.
ghost use Rattle.std.specs.Prelude.{◌≡◌, ◌≤◌, length};
ghost use Rattle.matching.specs.Matched.{Stalled};

use crate::bipartite::Bipartite;
use crate::matching::{Matching, MatchingMut, NONE};
use crate::search::search;

// A largest matching: the place of each job and the holder of each place. The parents tell which jobs those without a place reach.
// The four tables come one by one: callers go on with them as other things, and would make a struct of them to take it apart.
pub fn match_jobs<J: Bipartite>(
    jobs: &J,
    places: &mut [u16],
    holders: &mut [u16],
    parents: &mut [u16],
    slots: &mut [u16],
)
    requires few { (J.jobs jobs.now ≤ 65535) × (J.width jobs.now ≤ 2048) }
    requires places { length places.old ≡ J.jobs jobs.now }
    requires holders { J.width jobs.now ≤ length holders.old }
    requires parents { length parents.old ≡ J.jobs jobs.now }
    requires slots { J.jobs jobs.now ≤ length slots.old }
    ensures { Stalled (J.jobs jobs.now) (J.width jobs.now) (J.holds jobs.now) places.new holders.new parents.new }
{
    places.fill(NONE);
    holders.fill(NONE);
    let mut matching = MatchingMut {
        jobs,
        places,
        holders,
    };
    matching.take_free();
    while let Some(opening) = search(&matching.shared(), parents, slots) {
        matching.shift(parents, opening);
    }
}
