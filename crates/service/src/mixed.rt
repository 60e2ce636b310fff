// A list of calls, of one type or of a type each, made on one new engine.
ghost use Rattle.std.specs.Prelude.{◌≡◌, OnErr, OnOk};
ghost use Rattle.engine.specs.Held.{held};
ghost use Rattle.engine.specs.Plain.{Plain, new};
ghost use Rattle.service.specs.Served.{Lived};
ghost use Rattle.service.specs.Mixed.{ThenLived};

use crate::making::Step;
use engine::state::Engine;
use std::alloc::{AllocError, Global};

// A list of calls, made in order.
pub trait Steps {
    ghost Lived: { Plain → Self → Self → Plain → Type 0 };

    fn make_all(&mut self, engine: &mut Engine)
        ensures { Lived (held engine.old) self.old self.new (held engine.new) };
}

// Calls of one type.
impl<C: Step> Steps for Vec<C> {
    ghost Lived = { λ p b a q. Lived C.Step.Made p b.items a.items q };

    fn make_all(&mut self, engine: &mut Engine) {
        for call in self.iter_mut() {
            call.make(engine);
        }
    }
}

// Calls of a type each: `End`, or a call and `Then` the rest.
#[derive(Drop)]
pub struct End;

impl Steps for End {
    ghost Lived = { λ p _ _ q. q ≡ p };

    fn make_all(&mut self, _engine: &mut Engine) {}
}

#[derive(Drop)]
pub struct Then<C, R> {
    pub call: C,
    pub rest: R,
}

impl<C: Step, R: Steps> Steps for Then<C, R> {
    ghost Lived = { λ p b a q. ThenLived C.Step.Made R.Steps.Lived p b.call a.call b.rest a.rest q };

    fn make_all(&mut self, engine: &mut Engine) {
        self.call.make(engine);
        self.rest.make_all(engine);
    }
}

// Makes the calls in order on one new engine; without memory for the engine none is made.
pub fn serve_all<S: Steps>(heap: Global, steps: &mut S) -> Result<(), AllocError>
    ensures served { OnOk result ((q : Plain) × S.Steps.Lived new steps.old steps.new q) }
    ensures refused { OnErr result (steps.new ≡ steps.old) }
{
    let mut engine = Engine::new(heap)?;
    steps.make_all(&mut engine);
    Ok(())
}
