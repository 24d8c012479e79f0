ghost use Rattle.std.specs.Prelude.{◌≡◌, ◌<◌, ◌≤◌, true, [], ◌∷◌, ◌++◌, map, length, take, is_some, nat_lt};
ghost use Rattle.numbers.specs.Items.{items};
ghost use Rattle.fifo.specs.Lists.{lookup, without};
ghost use Rattle.messages.specs.Messages.{number_of};
ghost use Rattle.retransmission.specs.Kept.{keeping};
ghost use Rattle.retransmission.specs.Rows.{Kept, shown, subscription_of, row_with, rows, kept_of, opening, keeping_for, acknowledging};
ghost use Rattle.std.proofs.Common.{rules};

use crate::kept::{Retransmission, RetransmissionQueue, RetransmissionTable};
use fifo::bounded::BoundedList;
use fifo::keyed::Keyed;
use messages::message::Message;
use numbers::numbers::Numbers;
use tables::Row;

impl Keyed for Retransmission {
    ghost tag = { λ r. subscription_of (shown r) };

    fn key(&self) -> u32 {
        self.subscription
    }
}

impl Row for Retransmission {
    ghost Plain = { Kept };

    ghost plain = { shown };

    ghost key_of = { subscription_of };

    ghost keyed = { Prim.search rules };
}

impl Retransmission {
    fn new(subscription: u32) -> Self
        ensures { shown result ≡ row_with subscription [] }
    {
        Retransmission {
            subscription,
            queue: RetransmissionQueue::new(),
        }
    }

    fn keep(&mut self, message: &Message)
        ensures { shown self.new ≡ row_with (shown self.old).subscription (keeping message.now (shown self.old).messages) }
    {
        self.queue.keep(message);
    }

    fn acknowledge(&mut self, number: u32) -> bool
        ensures value { result ≡ is_some (lookup number_of number (shown self.old).messages) }
        ensures after { shown self.new ≡ row_with (shown self.old).subscription (without number_of number (shown self.old).messages) }
    {
        self.queue.acknowledge(number)
    }
}

impl RetransmissionTable {
    pub fn new() -> Self
        ensures { rows result ≡ [] }
    {
        let blank = Retransmission::new(0);
        RetransmissionTable {
            rows: BoundedList::with_blank(blank),
        }
    }

    fn has_room(&self) -> bool
        ensures value { result ≡ nat_lt (length (rows self.now)) 4 }
        ensures room { result ≡ true → length (rows self.now) < 4 }
    {
        !self.rows.is_full()
    }

    fn push(&mut self, subscription: u32)
        requires { length (rows self.old) < 4 }
        ensures { rows self.new ≡ rows self.old ++ row_with subscription [] ∷ [] }
    {
        tables::push(&mut self.rows, Retransmission::new(subscription));
    }

    // A row for a new subscription, of which nothing is kept; false where four have one. A plain answer to a question, as in
    // `acknowledge`: no value stands beside it.
    pub fn open(&mut self, subscription: u32) -> bool
        ensures value { result ≡ nat_lt (length (rows self.old)) 4 }
        ensures after { rows self.new ≡ opening subscription (rows self.old) }
    {
        if self.has_room() {
            self.push(subscription);
            return true;
        }
        false
    }

    // All messages of the subscription go, with its row.
    pub fn close(&mut self, subscription: u32)
        ensures { rows self.new ≡ without subscription_of subscription (rows self.old) }
    {
        tables::remove(&mut self.rows, subscription);
    }

    // Keeps one more message of the subscription.
    pub fn keep(&mut self, subscription: u32, message: &Message)
        ensures { rows self.new ≡ keeping_for subscription message.now (rows self.old) }
    {
        if let Some(i) = self.rows.find(subscription) {
            self.rows.change(i, |row| row.keep(message));
        }
    }

    // Drops an acknowledged message; false where none of the subscription has the number.
    pub fn acknowledge(&mut self, subscription: u32, number: u32) -> bool
        ensures value { result ≡ is_some (lookup number_of number (kept_of subscription (rows self.old))) }
        ensures after { rows self.new ≡ acknowledging subscription number (rows self.old) }
    {
        match self.rows.find(subscription) {
            Some(i) => self.rows.change(i, |row| row.acknowledge(number)),
            None => false,
        }
    }

    // The subscription's message with this number.
    pub fn find(&self, subscription: u32, number: u32) -> Option<Message>
        ensures { result ≡ lookup number_of number (kept_of subscription (rows self.now)) }
    {
        let row = tables::get(&self.rows, subscription)?;
        row.queue.find(number)
    }

    // The numbers of the subscription's messages, oldest first.
    pub fn numbers(&self, subscription: u32) -> Numbers
        ensures { items result ≡ map number_of (kept_of subscription (rows self.now)) }
    {
        match tables::get(&self.rows, subscription) {
            Some(row) => row.queue.numbers(),
            None => Numbers::new(),
        }
    }
}
