// Examples at the edges of every call of a board.
#![tactic(auto)]

#[cfg(test)]
mod asking_tests;
#[cfg(test)]
mod cutting_tests;
#[cfg(test)]
mod filling_tests;
#[cfg(test)]
mod settling_tests;
#[cfg(test)]
mod tables;
