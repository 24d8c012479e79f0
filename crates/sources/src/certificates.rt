// The struct alone: what its facts import must not name it.
ghost use Rattle.std.specs.Prelude.{◌≡◌, ◌≤◌, true};
ghost use Rattle.fifo.specs.Bounded.{items};
ghost use Rattle.sources.specs.Table.{every};
ghost use Rattle.sources.specs.Rows.{day_fits};

use crate::rows::Expiry;
use fifo::bounded::BoundedList;

pub mod methods;

// The certificates: the day on which each of at most 64 nodes' certificate ends, and today's day.
#[derive(Clone, Copy)]
pub struct Certificates {
    rows: BoundedList<Expiry, 64>,
    today: u32,
    ghost day: { today ≤ 1000000 },
    ghost fit: { every day_fits (items rows) ≡ true },
}
