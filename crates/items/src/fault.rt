ghost use Rattle.std.specs.Prelude.{◌≡◌, Some};
ghost use Rattle.items.specs.declared.fault.ItemFault.TheVariants.{Filter};
ghost use Rattle.items.specs.Faults.{item_refusal, item_fault_name, mode_of, checked_mode, checked_item};
ghost use Rattle.values.specs.Codes.{known_code};

use crate::item::Mode;
use std::fmt;
use values::check::RequestedFilter;
use values::checked::CheckedFilter;
use values::code::UnknownCode;
use values::fault::{FilterFault, Layer, Refusal};
use values::value::Kind;

// What is wrong with an item: its id or its mode, or its filter's fault as it came.
// Its `refusal` and `name` stand under no trait: each fault enum has a table of its own, and only tests take any fault.
#[derive(Clone, Copy)]
pub enum ItemFault {
    MonitoredItemIdInvalid(u32),
    MonitoringModeInvalid(u32),
    Filter(FilterFault),
}

// By hand: a derived `From` has no contract, and clauses name the error that `?` makes.
impl From<FilterFault> for ItemFault {
    ghost from_gives = { λ e r. r ≡ Filter e };

    fn from(filter: FilterFault) -> ItemFault
        ensures { result ≡ ItemFault.Filter filter }
    {
        ItemFault::Filter(filter)
    }
}

impl ItemFault {
    pub fn refusal(&self) -> Refusal
        ensures { result ≡ item_refusal self.now }
    {
        match self {
            ItemFault::MonitoredItemIdInvalid(id) => Refusal {
                number: 4,
                layer: Layer::Item,
                place: *id,
            },
            ItemFault::MonitoringModeInvalid(place) => Refusal {
                number: 10,
                layer: Layer::Item,
                place: *place,
            },
            ItemFault::Filter(fault) => fault.refusal(),
        }
    }

    // The status name of OPC UA Part 4.
    pub fn name(&self) -> &'static str
        ensures { result.now ≡ item_fault_name self.now }
    {
        match self {
            ItemFault::MonitoredItemIdInvalid(_) => "Bad_MonitoredItemIdInvalid",
            ItemFault::MonitoringModeInvalid(_) => "Bad_MonitoringModeInvalid",
            ItemFault::Filter(fault) => fault.name(),
        }
    }
}

impl fmt::Display for ItemFault {
    ghost output = { λ e. Some (item_fault_name e) };

    fn fmt<W: fmt::Write>(&self, f: &mut fmt::Formatter<W>) -> fmt::Result {
        f.write_str(self.name())
    }
}

impl TryFrom<u32> for Mode {
    type Error = UnknownCode;

    ghost try_from_gives = { λ code r. r ≡ known_code (mode_of code) code };

    fn try_from(code: u32) -> Result<Self, UnknownCode> {
        match code {
            0 => Ok(Mode::Disabled),
            1 => Ok(Mode::Sampling),
            2 => Ok(Mode::Reporting),
            _ => Err(UnknownCode(code)),
        }
    }
}

impl Mode {
    // A requested mode, at the node or the item id that it was given for.
    pub fn check(code: u32, place: u32) -> Result<Mode, ItemFault>
        ensures { result ≡ checked_mode (mode_of code) place }
    {
        Mode::try_from(code).map_err(|_| ItemFault::MonitoringModeInvalid(place))
    }
}

// A requested mode and filter for values of the kind: the mode is looked at first.
pub fn check_item(
    mode: u32,
    filter: &RequestedFilter,
    kind: Kind,
    place: u32,
) -> Result<(Mode, CheckedFilter), ItemFault>
    ensures { result ≡ checked_item mode filter.now kind place }
{
    let mode = Mode::check(mode, place)?;
    let filter = filter.check(kind, place)?;
    Ok((mode, filter))
}
