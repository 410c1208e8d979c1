// What a cut does to the list of its job: data that the log keeps, so no closure.
#[derive(Clone, Copy, PartialEq, Eq, Debug)]
pub enum Action {
    Strike,
    Fix,
}

// One cut as the log keeps it.
#[derive(Clone, Copy, PartialEq, Eq, Debug)]
pub struct Cut {
    pub action: Action,
    pub job: u8,
    pub place: u16,
}
