ghost use Rattle.std.specs.Prelude.{◌≡◌};
ghost use Rattle.model.specs.State.{state_of};
ghost use Rattle.model.specs.Monitoring.{set_monitoring_mode};

use answers::fault::ServiceFault;
use items::item::Mode;
use model::state::EngineState;

// Another mode of an item.
pub fn set_monitoring_mode(
    state: &mut EngineState,
    subscription: u32,
    item: u32,
    mode: u32,
) -> Result<(), ServiceFault>
    ensures after { state_of state.new ≡ (set_monitoring_mode (state_of state.old) subscription item mode).state }
    ensures value { result ≡ (set_monitoring_mode (state_of state.old) subscription item mode).answer }
{
    let owner = state.live_subscription(subscription)?;
    let mut found = state.item(subscription, item)?;
    let mode = Mode::check(mode, item)?;
    found.set_mode(mode);
    state.items.replace(found);
    state.reset_idle(owner);
    Ok(())
}
