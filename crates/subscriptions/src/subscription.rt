// The struct alone: what its facts import must not name it.
ghost use Rattle.subscriptions.specs.Facts.{Timely, Lasting, Numbered, Counted};

use crate::figures::Figures;

// A subscription: no record exists whose lifetime count is below three keep-alive counts.
#[derive(Clone, Copy)]
pub struct Subscription {
    pub figures: Figures,
    ghost timely: { Timely figures },
    ghost lasting: { Lasting figures },
    ghost numbered: { Numbered figures },
    ghost counted: { Counted figures },
}
