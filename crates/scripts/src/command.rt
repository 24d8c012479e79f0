use answers::acknowledgement::Acknowledgement;
use model::parameters::MonitoringParameters;
use subscriptions::parameters::SubscriptionParameters;
use values::value::Sample;

// What a line of a script asks for. It holds no `Call` of `replay`, though cases are alike: a script says once how long the
// lists are, and a call says it each time.
#[derive(Drop)]
pub enum Command {
    New(u32),
    Split(u32),
    Write {
        node: u32,
        code: u32,
        sample: Sample,
    },
    Certificate {
        node: u32,
        day: u32,
    },
    Today(u32),
    Room(u32),
    // The length of the result list, none for that of the acknowledgements.
    Results(Option<u32>),
    CreateSubscription {
        parameters: SubscriptionParameters,
        enabled: bool,
    },
    ModifySubscription {
        id: u32,
        parameters: SubscriptionParameters,
    },
    DeleteSubscription(u32),
    SetPublishing {
        id: u32,
        enabled: bool,
    },
    CreateItem {
        subscription: u32,
        node: u32,
        mode: u32,
        parameters: MonitoringParameters,
    },
    ModifyItem {
        subscription: u32,
        item: u32,
        parameters: MonitoringParameters,
    },
    DeleteItem {
        subscription: u32,
        item: u32,
    },
    SetMode {
        subscription: u32,
        item: u32,
        mode: u32,
    },
    Publish {
        handle: u32,
        acknowledgements: Vec<Acknowledgement>,
    },
    Republish {
        subscription: u32,
        number: u32,
    },
    Tick(u32),
    Queued,
    Kept(u32),
    Waiting {
        subscription: u32,
        item: u32,
    },
}
