ghost use Rattle.std.specs.Prelude.{◌≡◌};
ghost use Rattle.model.specs.State.{state_of};
ghost use Rattle.model.specs.Republish.{republish, filled, accepted};

use answers::fault::ServiceFault;
use messages::message::Message;
use model::state::EngineState;

// Fills `message` with a kept message, as it was sent.
pub fn republish(
    state: &mut EngineState,
    subscription: u32,
    number: u32,
    message: &mut Message,
) -> Result<(), ServiceFault>
    ensures after { state_of state.new ≡ (republish (state_of state.old) subscription number).state }
    ensures value { result ≡ accepted (republish (state_of state.old) subscription number).answer }
    ensures filled { message.new ≡ filled (republish (state_of state.old) subscription number).answer message.old }
{
    let owner = state.live_subscription(subscription)?;
    *message = state
        .kept
        .find(subscription, number)
        .ok_or(ServiceFault::MessageNotAvailable(number))?;
    state.reset_idle(owner);
    Ok(())
}
