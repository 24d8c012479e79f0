ghost use Rattle.std.specs.Prelude.{◌≡◌, ◌<◌, [], map, length, is_some};
ghost use Rattle.numbers.specs.Items.{items};
ghost use Rattle.fifo.specs.Lists.{lookup, without};
ghost use Rattle.messages.specs.Messages.{number_of};
ghost use Rattle.retransmission.specs.Kept.{kept_in, room_for, keeping};

use crate::kept::RetransmissionQueue;
use fifo::bounded::BoundedList;
use messages::message::Message;
use numbers::numbers::Numbers;

impl RetransmissionQueue {
    pub(crate) fn new() -> Self
        ensures { kept_in result ≡ [] }
    {
        RetransmissionQueue {
            messages: BoundedList::new(),
        }
    }

    // The message with this number.
    pub(crate) fn find(&self, number: u32) -> Option<Message>
        ensures { result ≡ lookup number_of number (kept_in self.now) }
    {
        self.messages.lookup(number)
    }

    // The numbers of the messages, oldest first.
    pub(crate) fn numbers(&self) -> Numbers
        ensures { items result ≡ map number_of (kept_in self.now) }
    {
        let mut numbers = Numbers::new();
        for message in self.messages.as_slice() {
            numbers.push(message.number);
        }
        numbers
    }

    // Drops an acknowledged message; false where none has the number.
    pub(crate) fn acknowledge(&mut self, number: u32) -> bool
        ensures value { result ≡ is_some (lookup number_of number (kept_in self.old)) }
        ensures after { kept_in self.new ≡ without number_of number (kept_in self.old) }
    {
        self.messages.remove(number).is_some()
    }

    // An earlier message of the number goes, or else the oldest of eight.
    fn make_room(&mut self, number: u32)
        ensures after { kept_in self.new ≡ room_for number (kept_in self.old) }
        ensures room { length (kept_in self.new) < 8 }
    {
        if let Some(i) = self.messages.find(number) {
            let _ = self.messages.remove_at(i);
        } else if self.messages.is_full() {
            let _ = self.messages.pop();
        }
    }

    // Keeps one more message.
    pub(crate) fn keep(&mut self, message: &Message)
        ensures { kept_in self.new ≡ keeping message.now (kept_in self.old) }
    {
        self.make_room(message.number);
        self.messages.push(*message);
    }
}
