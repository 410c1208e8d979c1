// A path-based search for strongly connected components, which follows steps forward only.
ghost use Rattle.theory.specs.TrailTheorems.{Pushes, Follows, Joins, Pops, Closes, Found, Loosens};

// A new number comes on the stack.
pub fn pushes()
    ensures { Pushes }
{}

// A step was followed.
pub fn follows()
    ensures { Follows }
{}

// A step back on the stack joins segments.
pub fn joins()
    ensures { Joins }
{}

// A number without steps left leaves the path.
pub fn pops()
    ensures { Pops }
{}

// A segment becomes a component.
pub fn closes()
    ensures { Closes }
{}

// At the end the components are known.
pub fn found()
    ensures { Found }
{}

// Which components reach a number with an exit.
pub fn loosens()
    ensures { Loosens }
{}
