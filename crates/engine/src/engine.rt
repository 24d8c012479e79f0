// The struct alone: what its fact imports must not name it.
ghost use Rattle.model.specs.State.{state_of};
ghost use Rattle.model.specs.Sound.{Sound};

use model::state::EngineState;

pub mod calls;

// The engine. No engine exists whose state is not sound, so every call is safe on every engine.
#[derive(Clone, Copy)]
pub struct Engine {
    state: EngineState,
    ghost sound: { ∥ Sound (state_of state) ∥₁ },
}
