// The run of an allocation.
ghost use Rattle.std.specs.Prelude.{◌≡◌, length};
ghost use Rattle.std.specs.Result.{result_err};
ghost use Rattle.machine.specs.Laws.{Composes};
ghost use Rattle.machine.specs.Run.{code_source, code_allocation, Runnable, refusal_of, Answered};

use crate::cells::{has_cells, write_arguments};
use crate::code::Code;
use crate::outcome::{Entry, Report};
use crate::running::{Position, Running, moves_in};
use refusal::Refusal;
use values::frame::Frame;
use values::host::Host;
use values::kind::Kind;

// Whether a run may be made: refused by the first question that says no.
fn check<V: Kind, F: Frame<Value = V>>(code: &Code, args: &[V], frame: &F) -> Result<(), Refusal>
    ensures { result_err result ≡ refusal_of (code_source code.now) (code_allocation code.now) (length args.now) (length (F.Frame.cells frame.now)) }
{
    if args.len() != code.source.parameters as usize {
        return Err(Refusal::Arguments);
    }
    if !has_cells(
        frame,
        code.locations.registers as usize + code.locations.slots as usize,
    ) {
        return Err(Refusal::Cells);
    }
    Ok(())
}

// Runs an allocation on arguments, for at most `budget` nodes and as many calls as the list has room for, or refuses and
// changes nothing. The report, the host, the cells and the list are those of the allocated machine.
pub fn run<V: Kind, H: Host<Value = V>, F: Frame<Value = V>>(
    code: &Code,
    budget: u32,
    args: &[V],
    host: &mut H,
    frame: &mut F,
    list: &mut [Entry<V>],
) -> Result<Report<V>, Refusal>
    requires { Runnable code.now }
    ensures answered { Answered V.Kind.arithmetic H.Host.means (code_source code.now) (code_allocation code.now) budget args.now (H.Host.state host.old) (F.Frame.cells frame.old) list.old result (H.Host.state host.new) (F.Frame.cells frame.new) list.new }
    ensures lent { H.Host.lent host.new ≡ H.Host.lent host.old }
{
    check(code, args, frame)?;
    write_arguments(args, code.locations.registers, frame);
    let at = Position {
        node: 0,
        nodes: 0,
        moves: 0,
        entries: 0,
    };
    let mut running = Running {
        code: *code,
        at,
        host,
        frame,
        list,
    };
    running.make_moves(moves_in(code.moves, 0, code.entry));
    let outcome = running.drive(budget);
    Ok(running.at.report(outcome))
}

// A run that is spent and goes on from there is one run.
pub fn runs_compose<V: Kind, H: Host<Value = V>>()
    ensures { Composes V.Kind.arithmetic H.Host.means }
{
    // the contract is all that there is
}
