#![tactic(auto)]

// Reading and writing an allocation's text undo each other.
ghost use Rattle.reading.specs.Laws.{WrittenBack, ReadsWell};
ghost use Rattle.roundtrip.specs.Laws.{ReadBack};

// Reading and writing undo each other.
pub fn texts_undo_each_other()
    ensures written { WrittenBack }
    ensures formed { ReadsWell }
    ensures read { ReadBack }
{
    // the contract is all that there is
}
