// The calls that change nothing that is held.
ghost use Rattle.std.specs.Prelude.{◌≡◌, length};
ghost use Rattle.engine.specs.Held.{held};
ghost use Rattle.engine.specs.Calls.{RunMade, WriteMade};

use crate::state::Engine;
use machine::code::Code;
use machine::outcome::{Entry, Report};
use machine::run::run;
use refusal::Refusal;
use values::frame::Frame;
use values::host::Host;
use values::kind::Kind;
use writer::write;

impl Engine {
    // Runs the standing allocation, with at most `budget` nodes and as many calls as the list has room for.
    pub fn run<V: Kind, H: Host<Value = V>, F: Frame<Value = V>>(
        &self,
        budget: u32,
        args: &[V],
        host: &mut H,
        frame: &mut F,
        list: &mut [Entry<V>],
    ) -> Result<Report<V>, Refusal>
        ensures ran { RunMade V.Kind.arithmetic H.Host.means budget args.now (H.Host.state host.old) (F.Frame.cells frame.old) list.old (held self.now).standing result (H.Host.state host.new) (F.Frame.cells frame.new) list.new }
        ensures lent { H.Host.lent host.new ≡ H.Host.lent host.old }
    {
        let Some(standing) = self.standing else {
            return Err(Refusal::NothingStands);
        };
        let code = Code {
            source: standing.source,
            locations: self.tables.heading(),
            entry: self.tables.count_entry(),
            nodes: self.source.nodes(),
            rows: self.tables.rows(),
            moves: self.tables.moves(),
        };
        run(&code, budget, args, host, frame, list)
    }

    // Writes the text of the standing allocation from place `at` of the buffer on.
    pub fn write(&self, out: &mut [u8], at: usize) -> Result<usize, Refusal>
        ensures { WriteMade (held self.now).standing at out.old result out.new }
    {
        let Some(_) = self.standing else {
            return Err(Refusal::Unwritten);
        };
        write(&self.tables, out, at)
    }
}
