ghost use Rattle.std.specs.Prelude.{◌≡◌, Some};
ghost use Rattle.answers.specs.declared.fault.ServiceFault.TheVariants.{Item, Source};
ghost use Rattle.answers.specs.Faults.{service_refusal, service_status, fault_name};

use items::fault::ItemFault;
use sources::fault::SourceFault;
use std::fmt;
use values::fault::{FilterFault, Layer, Refusal};

// Why a call is refused: a fault of the service itself, or an item's or a source's fault as it came. Each fault enum has a
// `refusal` and a `name` of its own, and no trait stands over them: each is a table, and only tests take a fault of any kind.
#[derive(Clone, Copy)]
pub enum ServiceFault {
    ListTooShort,
    TooManyOperations,
    SubscriptionIdInvalid(u32),
    MessageNotAvailable(u32),
    TooManySubscriptions,
    TooManyMonitoredItems,
    IdsUsedUp,
    NodeIdUnknown(u32),
    Item(ItemFault),
    Source(SourceFault),
}

// Both by hand: a derived `From` has no contract, and clauses name the error that `?` makes.
impl From<ItemFault> for ServiceFault {
    ghost from_gives = { λ e r. r ≡ Item e };

    fn from(item: ItemFault) -> ServiceFault
        ensures { result ≡ ServiceFault.Item item }
    {
        ServiceFault::Item(item)
    }
}

impl From<SourceFault> for ServiceFault {
    ghost from_gives = { λ e r. r ≡ Source e };

    fn from(source: SourceFault) -> ServiceFault
        ensures { result ≡ ServiceFault.Source source }
    {
        ServiceFault::Source(source)
    }
}

impl ServiceFault {
    pub fn refusal(&self) -> Refusal
        ensures { result ≡ service_refusal self.now }
    {
        let (number, layer, place) = match self {
            ServiceFault::ListTooShort => (1, Layer::Engine, 0),
            ServiceFault::TooManyOperations => (2, Layer::Engine, 0),
            ServiceFault::SubscriptionIdInvalid(id) => (3, Layer::Subscription, *id),
            ServiceFault::MessageNotAvailable(number) => (5, Layer::Subscription, *number),
            ServiceFault::TooManySubscriptions => (6, Layer::Engine, 0),
            ServiceFault::TooManyMonitoredItems => (7, Layer::Engine, 0),
            ServiceFault::IdsUsedUp => (8, Layer::Engine, 0),
            ServiceFault::NodeIdUnknown(node) => (9, Layer::Source, *node),
            ServiceFault::Item(fault) => return fault.refusal(),
            ServiceFault::Source(fault) => return fault.refusal(),
        };
        Refusal {
            number,
            layer,
            place,
        }
    }

    // The OPC UA status code, where there is one.
    pub fn status(&self) -> Option<u32>
        ensures { result ≡ service_status self.now }
    {
        match self {
            ServiceFault::ListTooShort => None,
            ServiceFault::TooManyOperations => Some(0x8010_0000),
            ServiceFault::SubscriptionIdInvalid(_) => Some(0x8028_0000),
            ServiceFault::MessageNotAvailable(_) => Some(0x807B_0000),
            ServiceFault::TooManySubscriptions => Some(0x8077_0000),
            ServiceFault::TooManyMonitoredItems => Some(0x80DB_0000),
            ServiceFault::IdsUsedUp => None,
            ServiceFault::NodeIdUnknown(_) => Some(0x8034_0000),
            ServiceFault::Item(ItemFault::MonitoredItemIdInvalid(_)) => Some(0x8042_0000),
            ServiceFault::Item(ItemFault::MonitoringModeInvalid(_)) => Some(0x8041_0000),
            ServiceFault::Item(ItemFault::Filter(FilterFault::MonitoredItemFilterInvalid(_))) => {
                Some(0x8043_0000)
            }
            ServiceFault::Item(ItemFault::Filter(FilterFault::DeadbandFilterInvalid(_))) => {
                Some(0x808E_0000)
            }
            ServiceFault::Item(ItemFault::Filter(FilterFault::FilterNotAllowed(_))) => {
                Some(0x8045_0000)
            }
            ServiceFault::Source(SourceFault::TableFull(_)) => None,
            ServiceFault::Source(SourceFault::TypeMismatch(_)) => Some(0x8074_0000),
            ServiceFault::Source(SourceFault::OutOfRange(_)) => Some(0x803C_0000),
        }
    }

    // The status name of OPC UA Part 4, where there is one.
    pub fn name(&self) -> &'static str
        ensures { result.now ≡ fault_name self.now }
    {
        match self {
            ServiceFault::ListTooShort => "list_too_short",
            ServiceFault::TooManyOperations => "Bad_TooManyOperations",
            ServiceFault::SubscriptionIdInvalid(_) => "Bad_SubscriptionIdInvalid",
            ServiceFault::MessageNotAvailable(_) => "Bad_MessageNotAvailable",
            ServiceFault::TooManySubscriptions => "Bad_TooManySubscriptions",
            ServiceFault::TooManyMonitoredItems => "Bad_TooManyMonitoredItems",
            ServiceFault::IdsUsedUp => "ids_used_up",
            ServiceFault::NodeIdUnknown(_) => "Bad_NodeIdUnknown",
            ServiceFault::Item(fault) => fault.name(),
            ServiceFault::Source(fault) => fault.name(),
        }
    }
}

impl fmt::Display for ServiceFault {
    ghost output = { λ e. Some (fault_name e) };

    fn fmt<W: fmt::Write>(&self, f: &mut fmt::Formatter<W>) -> fmt::Result {
        f.write_str(self.name())
    }
}
