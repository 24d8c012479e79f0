ghost use Rattle.std.specs.Prelude.{◌≡◌};
ghost use Rattle.subscriptions.specs.Facts.{live};
ghost use Rattle.subscriptions.specs.Revision.{answer_of, revision};
ghost use Rattle.subscriptions.specs.Changes.{created, modified, publishing, named, number_used, served_last, messaged, joined, counted_down, runs};

use crate::figures::{Figures, Phase};
use crate::parameters::{RevisedSubscription, SubscriptionParameters};
use crate::revision::revise;
use crate::subscription::Subscription;

impl Subscription {
    pub fn new(id: u32, parameters: SubscriptionParameters, enabled: bool) -> Self
        ensures { result.figures ≡ created id (revision parameters) enabled }
    {
        let revised = revise(parameters);
        Subscription {
            figures: Figures {
                id,
                revised,
                enabled,
                countdown: revised.interval,
                phase: Phase::Fresh,
                quiet: 0,
                idle: 0,
                number: 1,
                served: 0,
            },
        }
    }

    pub fn is_live(&self) -> bool
        ensures { result ≡ live self.now.figures.phase }
    {
        self.figures.phase != Phase::Ended
    }

    // Replaces the four figures; the answer is what a client is told.
    pub fn modify(&mut self, parameters: SubscriptionParameters) -> RevisedSubscription
        ensures after { self.new.figures ≡ modified (revision parameters) self.old.figures }
        ensures value { result ≡ answer_of (revision parameters) }
    {
        let revised = revise(parameters);
        self.reset_idle();
        self.figures.revised = revised;
        self.figures.countdown = self.figures.countdown.min(revised.interval);
        revised.answer()
    }

    // Publishing is enabled or disabled.
    pub fn set_publishing(&mut self, enabled: bool)
        ensures { self.new.figures ≡ publishing enabled self.old.figures }
    {
        self.figures.enabled = enabled;
        self.reset_idle();
    }

    // A call named the subscription.
    pub fn reset_idle(&mut self)
        ensures { self.new.figures ≡ named self.old.figures }
    {
        self.figures.idle = 0;
    }

    // The sequence number of a message that carries notifications; the next one follows it.
    pub fn use_number(&mut self) -> u32
        ensures after { self.new.figures ≡ number_used self.old.figures }
        ensures value { result ≡ self.old.figures.number }
    {
        let number = self.figures.number;
        self.figures.number = number.checked_add(1).unwrap_or(1);
        number
    }

    // The item with this id was served last.
    pub fn set_served(&mut self, id: u32)
        ensures { self.new.figures ≡ served_last id self.old.figures }
    {
        self.figures.served = id;
    }

    // A message goes out.
    pub fn message_sent(&mut self)
        ensures { self.new.figures ≡ messaged self.old.figures }
    {
        self.reset_idle();
        self.figures.phase = Phase::Quiet;
        self.figures.quiet = 0;
    }

    // On the late list; an ended subscription stays ended.
    pub fn join_late_list(&mut self)
        ensures { self.new.figures ≡ joined self.old.figures }
    {
        if self.is_live() {
            self.figures.phase = Phase::Late;
        }
    }

    // One tick; true where the countdown came to 0, so that a cycle runs.
    pub fn count_down(&mut self) -> bool
        ensures after { self.new.figures ≡ counted_down self.old.figures }
        ensures value { result ≡ runs self.old.figures }
    {
        self.figures.countdown -= 1;
        if self.figures.countdown > 0 {
            return false;
        }
        self.figures.countdown = self.figures.revised.interval;
        true
    }
}
