ghost use Rattle.std.specs.Prelude.{◌≡◌};
ghost use Rattle.values.specs.Check.{checked};
ghost use Rattle.model.specs.State.{state_of};
ghost use Rattle.model.specs.Monitoring.{modify_item, of_item};

use crate::settings::settings;
use answers::fault::ServiceFault;
use items::fault::ItemFault;
use model::parameters::MonitoringParameters;
use model::revised::RevisedItem;
use model::state::EngineState;
use values::check::RequestedFilter;
use values::checked::CheckedFilter;
use values::value::Kind;

// The filter for values of the kind, checked for the item with this id.
fn check_filter(filter: &RequestedFilter, kind: Kind, item: u32) -> Result<CheckedFilter, ItemFault>
    ensures { result ≡ of_item (checked filter.now kind item) }
{
    let filter = filter.check(kind, item)?;
    Ok(filter)
}

// Other settings of an item, which starts again; returns its revised parameters.
pub fn modify_item(
    state: &mut EngineState,
    subscription: u32,
    item: u32,
    parameters: &MonitoringParameters,
) -> Result<RevisedItem, ServiceFault>
    ensures after { state_of state.new ≡ (modify_item (state_of state.old) subscription item parameters.now).state }
    ensures value { result ≡ (modify_item (state_of state.old) subscription item parameters.now).answer }
{
    let owner = state.live_subscription(subscription)?;
    let mut found = state.item(subscription, item)?;
    let filter = check_filter(&parameters.filter, found.identity.kind, item)?;
    found.modify(settings(parameters, filter, &owner), parameters.queue_size);
    state.items.replace(found);
    state.reset_idle(owner);
    Ok(RevisedItem::of(&found))
}
