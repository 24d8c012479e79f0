ghost use Rattle.std.specs.Prelude.{◌≡◌};
ghost use Rattle.model.specs.State.{state_of};
ghost use Rattle.model.specs.Subscribing.{set_publishing_mode};

use answers::fault::ServiceFault;
use model::state::EngineState;

// Enables or disables publishing.
pub fn set_publishing_mode(
    state: &mut EngineState,
    id: u32,
    enabled: bool,
) -> Result<(), ServiceFault>
    ensures after { state_of state.new ≡ (set_publishing_mode (state_of state.old) id enabled).state }
    ensures value { result ≡ (set_publishing_mode (state_of state.old) id enabled).answer }
{
    let mut subscription = state.live_subscription(id)?;
    subscription.set_publishing(enabled);
    state.subscriptions.replace(subscription);
    Ok(())
}
