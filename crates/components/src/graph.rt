// A matching in which every job has a place.
ghost use Rattle.components.specs.Walks.{setting, FullMatching};

use matching::{Bipartite, Matching};

// A full matching as a graph: a step leads from a job to the holder of a place in its list.
#[derive(Drop)]
pub struct Graph<'g, 'm, J: Bipartite> {
    pub full: &'g Matching<'m, J>,
    ghost every: { FullMatching (setting (J.jobs full.now.jobs.now) (J.width full.now.jobs.now) (J.holds full.now.jobs.now) full.now.places.now full.now.holders.now) },
}
