ghost use Rattle.std.specs.Prelude.{◌≡◌};
ghost use Rattle.subscriptions.specs.Cycle.{cycle};

use crate::figures::{Outcome, Phase};
use crate::subscription::Subscription;

impl Subscription {
    // One publishing cycle, which finds a request queued or not, and something waiting or not. Where a message comes of it,
    // the record is as that message leaves it. Off the late list idle is below the keep-alive count, so that only a late
    // subscription can end.
    pub fn cycle(&mut self, request: bool, waiting: bool) -> Outcome
        ensures after { self.new.figures ≡ (cycle request waiting self.old.figures).after }
        ensures value { result ≡ (cycle request waiting self.old.figures).outcome }
    {
        match (self.figures.phase, request) {
            (Phase::Ended, _) => Outcome::Rests,
            (Phase::Late, true) => {
                self.figures.idle = 0;
                Outcome::Rests
            }
            (Phase::Late, false) => {
                self.figures.idle += 1;
                if self.figures.idle < self.figures.revised.lifetime {
                    return Outcome::Rests;
                }
                self.figures.phase = Phase::Ended;
                Outcome::Ends
            }
            (_, true) => {
                self.figures.idle = 0;
                self.figures.quiet += 1;
                if !self.figures.is_due(waiting) {
                    return Outcome::Rests;
                }
                self.figures.phase = Phase::Quiet;
                self.figures.quiet = 0;
                Outcome::Sends
            }
            (_, false) => {
                self.figures.idle += 1;
                self.figures.quiet += 1;
                if !self.figures.is_due(waiting) {
                    return Outcome::Rests;
                }
                self.figures.phase = Phase::Late;
                Outcome::Joins
            }
        }
    }
}
