// The struct alone: what its facts import must not name it.
ghost use Rattle.std.specs.Prelude.{◌≡◌, true};
ghost use Rattle.fifo.specs.Bounded.{items};
ghost use Rattle.sources.specs.Table.{every};
ghost use Rattle.sources.specs.Rows.{row_fits};

use crate::rows::Row;
use fifo::bounded::BoundedList;

pub mod methods;

// The process image: the last sample written for each of at most 64 nodes.
#[derive(Clone, Copy)]
pub struct ProcessImage {
    rows: BoundedList<Row, 64>,
    ghost fit: { every row_fits (items rows) ≡ true },
}
