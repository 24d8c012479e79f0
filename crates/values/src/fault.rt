ghost use Rattle.std.specs.Prelude.{◌≡◌, Some};
ghost use Rattle.values.specs.Refusals.{filter_refusal, filter_fault_name, layer_name};

use std::fmt;

// The layer that a refusal names.
#[derive(Clone, Copy)]
pub enum Layer {
    Engine,
    Subscription,
    Item,
    Filter,
    Source,
}

impl Layer {
    pub fn name(self) -> &'static str
        ensures { result.now ≡ layer_name self }
    {
        match self {
            Layer::Engine => "engine",
            Layer::Subscription => "subscription",
            Layer::Item => "item",
            Layer::Filter => "filter",
            Layer::Source => "source",
        }
    }
}

impl fmt::Display for Layer {
    ghost output = { λ l. Some (layer_name l) };

    fn fmt<W: fmt::Write>(&self, f: &mut fmt::Formatter<W>) -> fmt::Result {
        f.write_str(self.name())
    }
}

// What a host is told of a refused call: the refusal's number, its layer, and the place: an id, a node or 0. The number is
// what hosts, logs and tests know a refusal by; the code tells refusals apart by the fault enums.
#[derive(Clone, Copy)]
pub struct Refusal {
    pub number: u32,
    pub layer: Layer,
    pub place: u32,
}

// What is wrong with a requested filter, at the node or the item id that it was given for.
// Its `refusal` and `name` stand under no trait: each fault enum has a table of its own, and only tests take any fault.
#[derive(Clone, Copy)]
pub enum FilterFault {
    MonitoredItemFilterInvalid(u32),
    DeadbandFilterInvalid(u32),
    FilterNotAllowed(u32),
}

impl FilterFault {
    pub fn refusal(&self) -> Refusal
        ensures { result ≡ filter_refusal self.now }
    {
        let (number, place) = match *self {
            FilterFault::MonitoredItemFilterInvalid(place) => (11, place),
            FilterFault::DeadbandFilterInvalid(place) => (12, place),
            FilterFault::FilterNotAllowed(place) => (13, place),
        };
        Refusal {
            number,
            layer: Layer::Filter,
            place,
        }
    }

    // The status name of OPC UA Part 4.
    pub fn name(&self) -> &'static str
        ensures { result.now ≡ filter_fault_name self.now }
    {
        match self {
            FilterFault::MonitoredItemFilterInvalid(_) => "Bad_MonitoredItemFilterInvalid",
            FilterFault::DeadbandFilterInvalid(_) => "Bad_DeadbandFilterInvalid",
            FilterFault::FilterNotAllowed(_) => "Bad_FilterNotAllowed",
        }
    }
}

impl fmt::Display for FilterFault {
    ghost output = { λ e. Some (filter_fault_name e) };

    fn fmt<W: fmt::Write>(&self, f: &mut fmt::Formatter<W>) -> fmt::Result {
        write!(f, "{}", self.name())
    }
}
