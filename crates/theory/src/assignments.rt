// Assignments of jobs to places with capacities.
ghost use Rattle.theory.specs.Theorems.{Bounded, Unsupported, Augments, MovesStart, MovesGoOn, MovesEnd, ForestGrows, Supported, Grouped, NoneFull, OneGroup, Narrows, Rows, RowSupports};

// A set's deficiency is at most the number of jobs without a place.
pub fn bounded()
    ensures { Bounded }
{}

// A closed set that comes to no spare place rules a place out.
pub fn unsupported()
    ensures { Unsupported }
{}

// A walk to a spare place assigns one job more.
pub fn augments()
    ensures { Augments }
{}

// The moves along a search forest start,
pub fn moves_start()
    ensures { MovesStart }
{}

// go on,
pub fn moves_go_on()
    ensures { MovesGoOn }
{}

// and end.
pub fn moves_end()
    ensures { MovesEnd }
{}

// A search forest grows.
pub fn forest_grows()
    ensures { ForestGrows }
{}

// What makes room at a place gives a support.
pub fn supported()
    ensures { Supported }
{}

// A stuck assignment gives the group,
pub fn grouped()
    ensures { Grouped }
{}

// and shows that there is no full one.
pub fn none_full()
    ensures { NoneFull }
{}

// There is one group.
pub fn one_group()
    ensures { OneGroup }
{}

// The test of narrowing is right.
pub fn narrows()
    ensures { Narrows }
{}

// Full assignments of single places are rows with no place twice.
pub fn rows()
    ensures { Rows }
{}

// Admitted rows are full assignments.
pub fn row_supports()
    ensures { RowSupports }
{}
