#![tactic(auto)]

// The plain engine has one answer to each call.
ghost use Rattle.determinacy.specs.Laws.{OneAnswerEach, OneRun};

use values::host::Host;
use values::kind::Kind;

// What a load, an offer, a placement and a write answer, and what is then held, follow from what is held and brought.
pub fn one_answer_each()
    ensures { OneAnswerEach }
{
    // the contract is all that there is
}

// So does all that a run answers and leaves.
pub fn one_run<V: Kind, H: Host<Value = V>>()
    ensures { OneRun V.Kind.arithmetic H.Host.means }
{
    // the contract is all that there is
}
