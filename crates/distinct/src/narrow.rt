// Narrowing the lists of a progression's jobs, which are to have different places.
ghost use Rattle.std.specs.Prelude.{◌≡◌, ◌+◌, ◌*◌, ◌<◌, ◌≤◌, length};
ghost use Rattle.places.specs.Families.{family};
ghost use Rattle.rules.specs.Narrowing.{Narrowed, Scope};
ghost use Rattle.rules.specs.Progressions.{jobs_of, no_place_twice};
ghost use Rattle.components.specs.Walks.{setting, FullMatching};
ghost use Rattle.distinct.specs.Scopes.{scoped};

use crate::group::count_none;
use crate::scope::Scoped;
use crate::sift::{Division, empty_all, sift_all};
use components::{Scratch, components};
use matching::{Matching, match_jobs};
use places::PlaceSet;
use rules::Progression;

// Leaves in the lists of the jobs the places that some full matching gives them, by one full matching. The tables come one by one: a
// `Matching` holds the lists, which the sifting writes.
fn narrow_full<'x, L: PlaceSet + Copy>(
    jobs: &Progression,
    lists: &mut [L],
    places: &'x [u16],
    holders: &'x [u16],
    cursors: &mut [u16],
    marks: &mut [u16],
    numbers: &mut [u16],
)
    requires few { jobs.now.count ≤ 256 }
    requires scope { Scope (length lists.old) (jobs_of jobs.now) }
    requires tables { (length places.now ≡ jobs.now.count) × (length cursors.old ≡ jobs.now.count) × (length marks.old ≡ jobs.now.count) × (4 * jobs.now.count ≤ length numbers.old) }
    requires full { FullMatching (setting jobs.now.count L.LIMIT (scoped (jobs_of jobs.now) (family L.has lists.old)) places.now holders.now) }
    ensures { Narrowed (jobs_of jobs.now) no_place_twice (family L.has lists.old) (family L.has lists.new) }
{
    let m = jobs.count as usize;
    let (labels, rest) = numbers.split_at_mut(m);
    let (nodes, rest) = rest.split_at_mut(m);
    let (cuts, rest) = rest.split_at_mut(m);
    let (path, _) = rest.split_at_mut(m);
    components(
        &Matching {
            jobs: &Scoped { lists, jobs: *jobs },
            places,
            holders,
        },
        marks,
        labels,
        Scratch {
            cursors,
            nodes,
            cuts,
            path,
        },
    );
    sift_all(
        jobs,
        lists,
        &Division {
            places,
            holders,
            labels,
            marks,
        },
    );
}

// Leaves in the lists of the jobs exactly the places that some choice of different places gives them.
pub fn narrow_jobs<L: PlaceSet + Copy>(jobs: &Progression, lists: &mut [L], numbers: &mut [u16])
    requires few { jobs.now.count ≤ 256 }
    requires scope { Scope (length lists.old) (jobs_of jobs.now) }
    requires memory { 7 * jobs.now.count + L.LIMIT ≤ length numbers.old }
    ensures { Narrowed (jobs_of jobs.now) no_place_twice (family L.has lists.old) (family L.has lists.new) }
{
    let m = jobs.count as usize;
    // Split here and in the other call that matches: a function that gave the parts back would have to say how each lies in the numbers.
    let (places, rest) = numbers.split_at_mut(m);
    let (holders, rest) = rest.split_at_mut(L::LIMIT);
    let (parents, rest) = rest.split_at_mut(m);
    let (slots, rest) = rest.split_at_mut(m);
    match_jobs(
        &Scoped { lists, jobs: *jobs },
        places,
        holders,
        parents,
        slots,
    );
    if count_none(places) > 0 {
        empty_all(jobs, lists);
        return;
    }
    narrow_full(jobs, lists, places, holders, parents, slots, rest);
}
