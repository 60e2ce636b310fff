// How each call is made on an engine.
ghost use Rattle.engine.specs.Held.{held};
ghost use Rattle.engine.specs.Plain.{Plain};
ghost use Rattle.service.specs.Served.{LoadServed, OfferServed, PlaceServed, RunServed, WriteServed, Made as CallMade};

use crate::call::{Call, Load, Offer, Place, Run, Write};
use engine::state::Engine;
use places::placer::Placer;
use values::frame::Frame;
use values::host::Host;
use values::kind::Kind;

// One call: what it is before it is made, after it, and what is held then.
pub trait Step {
    ghost Made: { Plain → Self → Self → Plain → Type 0 };

    fn make(&mut self, engine: &mut Engine)
        ensures { Made (held engine.old) self.old self.new (held engine.new) };
}

impl Step for Load {
    ghost Made = { LoadServed };

    fn make(&mut self, engine: &mut Engine) {
        self.answer = Some(engine.load(&self.text));
    }
}

impl Step for Offer {
    ghost Made = { OfferServed };

    fn make(&mut self, engine: &mut Engine) {
        self.answer = Some(engine.offer(&self.text, &mut self.memory));
    }
}

impl<P: Placer> Step for Place<P> {
    ghost Made = { PlaceServed P.Placer.places };

    fn make(&mut self, engine: &mut Engine) {
        self.answer = Some(engine.place(&self.placer, self.registers, &mut self.memory));
    }
}

impl<V: Kind, H: Host<Value = V>, F: Frame<Value = V>> Run<V, H, F> {
    // A run changes no table of the engine.
    pub fn make(&mut self, engine: &Engine)
        ensures { RunServed V.Kind.arithmetic H.Host.means H.Host.state H.Host.lent F.Frame.cells (held engine.now) self.old self.new (held engine.now) }
    {
        self.answer = Some(engine.run(
            self.budget,
            &self.args,
            &mut self.host,
            &mut self.frame,
            &mut self.list,
        ));
    }
}

impl<V: Kind, H: Host<Value = V>, F: Frame<Value = V>> Step for Run<V, H, F> {
    ghost Made = { RunServed V.Kind.arithmetic H.Host.means H.Host.state H.Host.lent F.Frame.cells };

    fn make(&mut self, engine: &mut Engine) {
        self.make(engine);
    }
}

impl Write {
    // A call of this kind changes no table of the engine.
    pub fn make(&mut self, engine: &Engine)
        ensures { WriteServed (held engine.now) self.old self.new (held engine.now) }
    {
        self.answer = Some(engine.write(&mut self.buffer, self.at));
    }
}

impl Step for Write {
    ghost Made = { WriteServed };

    fn make(&mut self, engine: &mut Engine) {
        self.make(engine);
    }
}

// A call of any of the five.
impl<V: Kind, H: Host<Value = V>, F: Frame<Value = V>, P: Placer> Step for Call<V, H, F, P> {
    ghost Made = { CallMade V.Kind.arithmetic H.Host.means H.Host.state H.Host.lent F.Frame.cells P.Placer.places };

    fn make(&mut self, engine: &mut Engine) {
        match self {
            Call::Load(call) => call.make(engine),
            Call::Offer(call) => call.make(engine),
            Call::Place(call) => call.make(engine),
            Call::Run(call) => call.make(engine),
            Call::Write(call) => call.make(engine),
        }
    }
}
