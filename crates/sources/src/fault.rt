ghost use Rattle.std.specs.Prelude.{◌≡◌, Some};
ghost use Rattle.sources.specs.Faults.{source_refusal, source_fault_name};

use std::fmt;
use values::fault::{Layer, Refusal};

// Why a source refuses a row, at the row's node, or a day, at 0.
// Its `refusal` and `name` stand under no trait: each fault enum has a table of its own, and only tests take any fault.
#[derive(Clone, Copy)]
pub enum SourceFault {
    TableFull(u32),
    TypeMismatch(u32),
    OutOfRange(u32),
}

impl SourceFault {
    pub fn refusal(&self) -> Refusal
        ensures { result ≡ source_refusal self.now }
    {
        let (number, place) = match *self {
            SourceFault::TableFull(place) => (14, place),
            SourceFault::TypeMismatch(place) => (15, place),
            SourceFault::OutOfRange(place) => (16, place),
        };
        Refusal {
            number,
            layer: Layer::Source,
            place,
        }
    }

    // The status name of OPC UA Part 4 where there is one.
    pub fn name(&self) -> &'static str
        ensures { result.now ≡ source_fault_name self.now }
    {
        match self {
            SourceFault::TableFull(_) => "table_full",
            SourceFault::TypeMismatch(_) => "Bad_TypeMismatch",
            SourceFault::OutOfRange(_) => "Bad_OutOfRange",
        }
    }
}

impl fmt::Display for SourceFault {
    ghost output = { λ e. Some (source_fault_name e) };

    fn fmt<W: fmt::Write>(&self, f: &mut fmt::Formatter<W>) -> fmt::Result {
        f.write_str(self.name())
    }
}
