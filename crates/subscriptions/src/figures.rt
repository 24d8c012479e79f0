ghost use Rattle.std.specs.Prelude.{◌≡◌};
ghost use Rattle.subscriptions.specs.Cycle.{due};
ghost use Rattle.subscriptions.specs.Revision.{answer_of};

use crate::parameters::RevisedSubscription;

// Where a subscription stands: nothing sent yet, between messages, on the late list, or ended and still there.
#[derive(Clone, Copy, PartialEq, Eq)]
pub enum Phase {
    Fresh,
    Quiet,
    Late,
    Ended,
}

// What comes of a publishing cycle: nothing, a message with the oldest request, a place on the late list, the end.
#[derive(Clone, Copy, PartialEq, Eq)]
pub enum Outcome {
    Rests,
    Sends,
    Joins,
    Ends,
}

// What a client asked for, revised: the publishing interval in ticks, the keep-alive and lifetime counts in publishing
// cycles, and how many notifications a message may carry.
#[derive(Clone, Copy)]
pub struct Revised {
    pub interval: u32,
    pub keep_alive: u32,
    pub lifetime: u32,
    pub limit: u32,
}

// The plain figures of a subscription: ticks until the next cycle, cycles since the last message, cycles in a row that
// found no request, the sequence number of the next message, and the item that was served last.
#[derive(Clone, Copy)]
pub struct Figures {
    pub id: u32,
    pub revised: Revised,
    pub enabled: bool,
    pub countdown: u32,
    pub phase: Phase,
    pub quiet: u32,
    pub idle: u32,
    pub number: u32,
    pub served: u32,
}

impl Revised {
    // The interval and the two counts, as a client is told them.
    pub fn answer(&self) -> RevisedSubscription
        ensures { result ≡ answer_of self.now }
    {
        RevisedSubscription {
            interval: self.interval,
            keep_alive: self.keep_alive,
            lifetime: self.lifetime,
        }
    }
}

impl Figures {
    // Whether a message is due, where something waits or not.
    pub fn is_due(&self, waiting: bool) -> bool
        ensures { result ≡ due waiting self.now }
    {
        self.phase == Phase::Fresh
            || self.quiet >= self.revised.keep_alive
            || self.enabled && waiting
    }
}
