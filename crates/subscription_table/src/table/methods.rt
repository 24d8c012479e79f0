ghost use Rattle.std.specs.Prelude.{◌≡◌, ◌<◌, ◌≤◌, false, [], ◌∷◌, ◌++◌, length, ◌==◌, slice_index_or, slice_set};
ghost use Rattle.std.specs.Option.{option_map};
ghost use Rattle.fifo.specs.Lists.{none, lookup, replaced, without};
ghost use Rattle.subscriptions.specs.Keys.{figures_of, id_of};
ghost use Rattle.subscription_table.specs.Slots.{slots, blank};

use crate::table::Table;
use fifo::bounded::BoundedList;
use subscriptions::parameters::SubscriptionParameters;
use subscriptions::subscription::Subscription;

impl Table {
    pub fn new() -> Self
        ensures { slots result ≡ [] }
    {
        let blank = Subscription::new(0, SubscriptionParameters::default(), false);
        Table {
            rows: BoundedList::with_blank(blank),
        }
    }

    pub fn len(&self) -> usize
        ensures value { result ≡ length (slots self.now) }
        ensures bound { result ≤ 4 }
    {
        tables::in_use(&self.rows).len()
    }

    // Whether no slot is occupied.
    pub fn is_empty(&self) -> bool
        ensures { result ≡ none (slots self.now) }
    {
        self.len() == 0
    }

    // Whether all four slots are occupied.
    pub fn is_full(&self) -> bool
        ensures value { result ≡ (length (slots self.now) == 4) }
        ensures room { result ≡ false → length (slots self.now) < 4 }
    {
        self.rows.is_full()
    }

    // The subscription in the slot at `i`.
    pub fn at(&self, i: usize) -> Subscription
        requires { i < length (slots self.now) }
        ensures { result.figures ≡ slice_index_or (slots self.now) i blank }
    {
        tables::at(&self.rows, i)
    }

    // Puts `s` into the slot at `i`.
    pub fn put(&mut self, i: usize, s: Subscription)
        requires { i < length (slots self.old) }
        ensures { slots self.new ≡ slice_set (slots self.old) i s.figures }
    {
        tables::put(&mut self.rows, i, s);
    }

    // Occupies one more slot.
    pub fn push(&mut self, s: Subscription)
        requires { length (slots self.old) < 4 }
        ensures { slots self.new ≡ slots self.old ++ s.figures ∷ [] }
    {
        tables::push(&mut self.rows, s);
    }

    // The subscription with this id.
    pub fn lookup(&self, id: u32) -> Option<Subscription>
        ensures { option_map figures_of result ≡ lookup id_of id (slots self.now) }
    {
        tables::lookup(&self.rows, id)
    }

    // Puts `s` in the place of the subscription with its id, if there is one.
    pub fn replace(&mut self, s: Subscription)
        ensures { slots self.new ≡ replaced id_of s.figures (slots self.old) }
    {
        tables::replace(&mut self.rows, s);
    }

    // Frees the slot of the subscription with this id, if there is one.
    pub fn remove(&mut self, id: u32)
        ensures { slots self.new ≡ without id_of id (slots self.old) }
    {
        tables::remove(&mut self.rows, id);
    }
}
