use fifo::bounded::BoundedList;
use subscriptions::subscription::Subscription;

pub mod methods;

// The four slots: those in use are occupied, in the order of creation and so by rising id. Methods of its own and
// not the functions of `tables` at each call: callers would name the figures and their key each time.
#[derive(Clone, Copy)]
pub struct Table {
    rows: BoundedList<Subscription, 4>,
}
