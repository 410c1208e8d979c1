// A breadth-first search from all jobs without a place for one that can be given a place.
ghost use Rattle.std.specs.Prelude.{◌≡◌, ℕ, ◌<◌, ◌≤◌, true, [], ◌∷◌, ◌++◌, length, MatchOption, slice_set};
ghost use Rattle.matching.specs.Tables.{at, filled};
ghost use Rattle.matching.specs.Matching.{HasOpening, IsSearched, IsStalled};
ghost use Rattle.matching.specs.Searching.{left, Rooted};

use crate::bipartite::{Bipartite, JobPlaces};
use crate::matching::{Matching, NONE, Opening};
use queue::WaitingLine;

// How far a search has come: the job from which each job was first seen, or NONE, and the jobs that are still to be scanned.
#[derive(Drop)]
struct Frontier<'a, 'b> {
    parents: &'a mut [u16],
    // Lent too: a struct that owned it would leave the proof of `search` without what the parents are in the end.
    waiting: &'a mut WaitingLine<'b, u16>,
}

impl<'a, 'b> Frontier<'a, 'b> {
    // Parents are numbers of a lent table, so one that is missing is `NONE`, as the place of a job is in `start`.
    fn has_seen(&self, job: u16) -> bool
        requires { job < length self.now.parents.now }
        ensures { result ≡ filled self.now.parents.now job }
    {
        self.parents[job as usize] != NONE
    }

    // Marks a job as seen from `parent`, and lets it wait behind the others.
    fn visit(&mut self, job: u16, parent: u16)
        requires job { job < length self.old.parents.now }
        requires room { length self.old.waiting.now.entries < self.old.waiting.now.capacity }
        ensures same { self.new.parents.ghost_name ≡ self.old.parents.ghost_name }
        ensures marks { self.new.parents.now ≡ slice_set self.old.parents.now job parent }
        ensures waits { self.new.waiting.now.entries ≡ self.old.waiting.now.entries ++ job ∷ [] }
        ensures capacity { self.new.waiting.now.capacity ≡ self.old.waiting.now.capacity }
    {
        self.parents[job as usize] = parent;
        self.waiting.push_back(job).unwrap();
    }

    // Marks the jobs without a place alone, and lets them wait.
    fn start<J: Bipartite>(&mut self, matching: &Matching<J>)
        requires parents { length self.old.parents.now ≡ J.jobs matching.now.jobs.now }
        requires empty { self.old.waiting.now.entries ≡ [] }
        requires room { J.jobs matching.now.jobs.now ≤ self.old.waiting.now.capacity }
        ensures same { self.new.parents.ghost_name ≡ self.old.parents.ghost_name }
        ensures size { length self.new.parents.now ≡ length self.old.parents.now }
        ensures rooted { Rooted (J.jobs matching.now.jobs.now) matching.now.places.now self.new.parents.now self.new.waiting.now.entries }
        ensures capacity { self.new.waiting.now.capacity ≡ self.old.waiting.now.capacity }
    {
        self.parents.fill(NONE);
        for (job, place) in matching.places.iter().enumerate() {
            if *place == NONE {
                self.visit(job as u16, job as u16);
            }
        }
    }

    // Looks through the places of a job for a free one, and lets the holders wait that were not seen.
    fn scan<J: Bipartite>(&mut self, matching: &Matching<J>, job: u16) -> Option<u16>
        requires room { J.jobs matching.now.jobs.now ≤ self.old.waiting.now.capacity }
        requires job { job < J.jobs matching.now.jobs.now }
        requires seen { filled self.old.parents.now job ≡ true }
        requires state { IsSearched matching.now self.old.parents.now self.old.waiting.now.entries job 0 }
        ensures same { self.new.parents.ghost_name ≡ self.old.parents.ghost_name }
        ensures capacity { self.new.waiting.now.capacity ≡ self.old.waiting.now.capacity }
        ensures less { left (J.jobs matching.now.jobs.now) self.new.parents.now self.new.waiting.now.entries ≤ left (J.jobs matching.now.jobs.now) self.old.parents.now self.old.waiting.now.entries }
        ensures state { MatchOption result (IsSearched matching.now self.new.parents.now self.new.waiting.now.entries (J.jobs matching.now.jobs.now) 0) (λ p. HasOpening matching.now self.new.parents.now job p) }
    {
        for place in JobPlaces::of(matching.jobs, job as usize) {
            let Some(holder) = matching.holder_of(place) else {
                return Some(place);
            };
            if !self.has_seen(holder) {
                self.visit(holder, job);
            }
        }
        None
    }
}

// A job that can be given a free place along the parents, or none where the matching is a largest one.
pub fn search<J: Bipartite>(
    matching: &Matching<J>,
    parents: &mut [u16],
    slots: &mut [u16],
) -> Option<Opening>
    requires parents { length parents.old ≡ J.jobs matching.now.jobs.now }
    requires slots { J.jobs matching.now.jobs.now ≤ length slots.old }
    ensures { MatchOption result (IsStalled matching.now parents.new) (λ o. HasOpening matching.now parents.new o.job o.place) }
{
    let mut waiting = WaitingLine::new(slots);
    let mut frontier = Frontier {
        parents,
        waiting: &mut waiting,
    };
    frontier.start(matching);
    while let Some(job) = frontier.waiting.pop_front() {
        if let Some(place) = frontier.scan(matching, job) {
            return Some(Opening { job, place });
        }
    }
    None
}
