// Statements about colouring: each function's contract is one.
ghost use Rattle.colouring.specs.Chosen.{ColouringByOrder, OneColouring};

// The places of colouring come from an order of removal.
pub fn colouring_by_order()
    ensures { ColouringByOrder }
{
    // the contract is all that there is
}

// Only one order of removal and one list of places can.
pub fn one_colouring()
    ensures { OneColouring }
{
    // the contract is all that there is
}
