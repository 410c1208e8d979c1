// Largest matchings of jobs to places.
#![tactic(auto)]

mod bipartite;
mod jobs;
mod listed;
mod matching;
mod search;

pub use bipartite::{Bipartite, JobPlaces};
pub use jobs::match_jobs;
pub use listed::{ByLists, Listed};
pub use matching::{Matching, NONE, entry};
