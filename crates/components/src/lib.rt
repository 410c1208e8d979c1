// Strongly connected components of a full matching: which jobs can pass places on among themselves, and which reach a free place.
#![tactic(auto)]

mod graph;
mod stack;
mod walk;

pub use walk::{Scratch, components};
