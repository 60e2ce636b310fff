#![tactic(auto)]

// The worked examples, as statements about the definitions.
ghost use Rattle.sheets.specs.Examples.{Worked};

// All of them hold: the theorem that this function's contract names.
pub fn worked_examples()
    ensures { Worked }
{
    // the contract is all that there is
}
