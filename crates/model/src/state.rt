ghost use Rattle.std.specs.Prelude.{◌≡◌};
ghost use Rattle.model.specs.State.{state_of, new_state};

use item_table::table::ItemTable;
use numbers::numbers::Numbers;
use retransmission::kept::RetransmissionTable;
use subscription_table::table::Table;

// The engine between two calls: the next id, the subscriptions and items by rising id, the kept messages, the handles of
// the queued requests, oldest first, and the ids on the late list, in order.
#[derive(Clone, Copy)]
pub struct EngineState {
    pub next_id: u64,
    pub subscriptions: Table,
    pub items: ItemTable,
    pub kept: RetransmissionTable,
    pub requests: Numbers,
    pub late: Numbers,
}

impl EngineState {
    // A new engine, whose first id is `first_id`, or 1 where that is 0.
    pub fn new(first_id: u32) -> Self
        ensures { state_of result ≡ new_state first_id }
    {
        EngineState {
            next_id: u64::from(first_id.max(1)),
            subscriptions: Table::new(),
            items: ItemTable::new(),
            kept: RetransmissionTable::new(),
            requests: Numbers::new(),
            late: Numbers::new(),
        }
    }
}
