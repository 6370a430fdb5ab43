// Values that were worked out by hand, as one statement over a table.
#![tactic(auto)]

ghost use Rattle.std.specs.List.{AllByRecursion};
ghost use Rattle.tried.specs.Cases.{Holds, cases};

// Each case of the table holds.
pub fn tried_stands()
    ensures { AllByRecursion Holds cases }
{}
