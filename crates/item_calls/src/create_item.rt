ghost use Rattle.std.specs.Prelude.{◌≡◌, true, ◌≤◌};
ghost use Rattle.item_table.specs.Table.{items_of, all_below};
ghost use Rattle.model.specs.State.{state_of};
ghost use Rattle.model.specs.Monitoring.{create_item};

use crate::settings::settings;
use answers::fault::ServiceFault;
use items::fault::check_item;
use items::item::{Identity, MonitoredItem};
use model::parameters::MonitoringParameters;
use model::revised::{CreatedItem, RevisedItem};
use model::state::EngineState;
use sources::source::{Source, Standing};

// A new item on a node that the source knows; returns its id and its revised parameters.
pub fn create_item<S: Source>(
    state: &mut EngineState,
    source: &S,
    subscription: u32,
    node: u32,
    mode: u32,
    parameters: &MonitoringParameters,
) -> Result<CreatedItem, ServiceFault>
    requires below { all_below state.old.next_id (items_of state.old.items) ≡ true }
    requires given { 1 ≤ state.old.next_id }
    ensures after { state_of state.new ≡ (create_item (S.Source.stands source.now) (state_of state.old) subscription node mode parameters.now).state }
    ensures value { result ≡ (create_item (S.Source.stands source.now) (state_of state.old) subscription node mode parameters.now).answer }
{
    let owner = state.live_subscription(subscription)?;
    if state.items.is_full() {
        return Err(ServiceFault::TooManyMonitoredItems);
    }
    let id = u32::try_from(state.next_id).map_err(|_| ServiceFault::IdsUsedUp)?;
    let Standing { kind, .. } = source.query(node).ok_or(ServiceFault::NodeIdUnknown(node))?;
    let (mode, filter) = check_item(mode, &parameters.filter, kind, node)?;
    let item = MonitoredItem::new(
        Identity {
            id,
            subscription,
            node,
            kind,
        },
        settings(parameters, filter, &owner),
        parameters.queue_size,
        mode,
    );
    state.next_id += 1;
    state.items.add(item);
    state.reset_idle(owner);
    Ok(CreatedItem {
        id,
        revised: RevisedItem::of(&item),
    })
}
