ghost use Rattle.std.specs.Prelude.{◌≡◌};
ghost use Rattle.replay.specs.Lists.{room_of, places_of};

use answers::acknowledgement::Acknowledgement;
use model::parameters::MonitoringParameters;
use subscriptions::parameters::SubscriptionParameters;

// A call with its arguments. `room` is how many places its list of responses has, and `places` its list of results.
#[derive(Drop)]
pub enum Call {
    CreateSubscription {
        parameters: SubscriptionParameters,
        enabled: bool,
    },
    ModifySubscription {
        id: u32,
        parameters: SubscriptionParameters,
    },
    SetPublishingMode {
        id: u32,
        enabled: bool,
    },
    DeleteSubscription {
        id: u32,
        room: usize,
    },
    CreateItem {
        subscription: u32,
        node: u32,
        mode: u32,
        parameters: MonitoringParameters,
    },
    ModifyItem {
        subscription: u32,
        item: u32,
        parameters: MonitoringParameters,
    },
    DeleteItem {
        subscription: u32,
        item: u32,
    },
    SetMonitoringMode {
        subscription: u32,
        item: u32,
        mode: u32,
    },
    Publish {
        handle: u32,
        acknowledgements: Vec<Acknowledgement>,
        room: usize,
        places: usize,
    },
    Republish {
        subscription: u32,
        number: u32,
    },
    Tick {
        room: usize,
    },
}

impl Call {
    // How many places its list of responses has: none where it writes no responses.
    pub(crate) fn room(&self) -> usize
        ensures { result ≡ room_of self.now }
    {
        match self {
            Call::DeleteSubscription { room, .. }
            | Call::Publish { room, .. }
            | Call::Tick { room } => *room,
            _ => 0,
        }
    }

    // The same for its list of results.
    pub(crate) fn places(&self) -> usize
        ensures { result ≡ places_of self.now }
    {
        match self {
            Call::Publish { places, .. } => *places,
            _ => 0,
        }
    }
}

// A call, and the source as it is when the call is made.
#[derive(Drop)]
pub struct Scene<S> {
    pub source: S,
    pub call: Call,
}
