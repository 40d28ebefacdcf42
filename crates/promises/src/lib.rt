// The three demands, and what meets the conditions of theorems, as one contract.
#![tactic(auto)]

ghost use Rattle.promises.specs.Claims.{Promises};
ghost use Rattle.promises.specs.Witnesses.{Witnesses};

// Does nothing. Its contract has the three demands and the witnesses, so that none can be dropped unseen.
pub fn promises_hold()
    ensures { Promises × Witnesses }
{}
