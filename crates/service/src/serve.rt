// A list of the five calls, made on one new engine.
ghost use Rattle.std.specs.Prelude.{◌≡◌, OnErr, OnOk};
ghost use Rattle.service.specs.Served.{Served};

use crate::call::Call;
use crate::mixed::serve_all;
use places::placer::Placer;
use std::alloc::{AllocError, Global};
use values::frame::Frame;
use values::host::Host;
use values::kind::Kind;

// Makes the calls in order on one new engine; without memory for the engine none is made.
pub fn serve<V: Kind, H: Host<Value = V>, F: Frame<Value = V>, P: Placer>(
    heap: Global,
    calls: &mut Vec<Call<V, H, F, P>>,
) -> Result<(), AllocError>
    ensures served { OnOk result (Served V.Kind.arithmetic H.Host.means H.Host.state H.Host.lent F.Frame.cells P.Placer.places calls.old.items calls.new.items) }
    ensures refused { OnErr result (calls.new.items ≡ calls.old.items) }
{
    serve_all(heap, calls)
}
