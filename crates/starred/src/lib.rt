// The starred sales and the printed examples as one contract.
#![tactic(auto)]

ghost use Rattle.starred.specs.Starred.{Starred};
ghost use Rattle.starred.specs.Example.{Example};

// Does nothing. Its contract has the table of the starred sales, and the printed examples.
pub fn starred_hold()
    ensures { Starred × Example }
{}
