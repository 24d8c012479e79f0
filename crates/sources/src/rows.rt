ghost use Rattle.sources.specs.Rows.{node_of_row, node_of_expiry};

use fifo::keyed::Keyed;
use values::value::{Kind, Sample};

// A row of the process image.
#[derive(Clone, Copy)]
pub struct Row {
    pub node: u32,
    pub kind: Kind,
    pub sample: Sample,
}

// A row of the certificates: the day on which the node's certificate ends.
#[derive(Clone, Copy, Default)]
pub struct Expiry {
    pub node: u32,
    pub end_day: u32,
}

impl Keyed for Row {
    ghost tag = { node_of_row };

    fn key(&self) -> u32 {
        self.node
    }
}

impl Keyed for Expiry {
    ghost tag = { node_of_expiry };

    fn key(&self) -> u32 {
        self.node
    }
}
