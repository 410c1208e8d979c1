// One rule of any of the three kinds.
#![tactic(auto)]

mod record;

pub use record::RuleRecord;
