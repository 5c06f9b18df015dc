// The law over all lists of calls, on the readings and the rules of the calls.
#![tactic(auto)]

ghost use Rattle.line.specs.Runs.{Law};
ghost use Rattle.line.specs.Cases.{Cases};
ghost use Rattle.line.specs.Equation.{RevertEquation};

pub fn every_run_is_lawful()
    ensures { Law }
{}

// Short lists of calls with their answers, and capacities of small chips.
pub fn worked_cases_hold()
    ensures { Cases }
{}

// After a revert the present state is (S ∪ Domain(U)) − Range(U).
pub fn revert_is_the_equation()
    ensures { RevertEquation }
{}
