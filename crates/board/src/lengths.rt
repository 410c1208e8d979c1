// How long the tables are that a call is lent; 0 for one that it does not take.
#[derive(Clone, Copy)]
pub struct Lengths {
    pub opened: usize,
    pub rules: usize,
    pub log: usize,
    pub standing: usize,
    pub group: usize,
    pub working: usize,
    pub numbers: usize,
    pub wakes: usize,
}
