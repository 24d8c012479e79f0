use fifo::bounded::BoundedList;
use messages::message::Message;

mod queue;
mod table;

// The messages kept of one subscription, at most eight, oldest first. A type of its own: how room is made for a message is said
// of it alone.
#[derive(Clone, Copy)]
pub(crate) struct RetransmissionQueue {
    messages: BoundedList<Message, 8>,
}

// A subscription and the messages kept of it.
#[derive(Clone, Copy)]
pub(crate) struct Retransmission {
    subscription: u32,
    queue: RetransmissionQueue,
}

// The kept messages of at most four subscriptions, a row for each.
#[derive(Clone, Copy)]
pub struct RetransmissionTable {
    rows: BoundedList<Retransmission, 4>,
}
