// Rules over jobs, narrowing by one rule, and the rules on three jobs.
#![tactic(auto)]

mod check;
mod gap;
mod narrow;
mod progression;
mod rule;
mod sum;
mod sweep;
mod triple;

pub use check::{check_job_count, check_offered, check_rules};
pub use gap::{Distance, Gap};
pub use narrow::narrow_family;
pub use progression::{Jobs, Progression};
pub use rule::Rule;
pub use sum::{Addition, Sum};
pub use triple::{Relation, Triple};
