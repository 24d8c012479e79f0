// A fixed load for measuring: four subscriptions with eight items each over a process image whose values rise at random.
// Argument: the number of ticks. Prints how many responses and notifications the ticks sent, and a checksum of them.
#![tactic(auto)]

ghost use Rattle.std.specs.Prelude.{◌≤◌};

use answers::acknowledgement::{Acknowledgement, AcknowledgementResult};
use answers::fault::ServiceFault;
use anyhow::anyhow;
use engine::engine::Engine;
use messages::response::{Response, ResponseKind};
use model::parameters::MonitoringParameters;
use sources::image::ProcessImage;
use std::num::f64_to_bits_with_nan;
use std::{array, env};
use subscriptions::parameters::SubscriptionParameters;
use values::check::RequestedFilter;
use values::notification::Notification;
use values::value::{Sample, Value};

// The nodes are FIRST_NODE and those after it; the items on them have the client handles 0, 1 and so on.
const FIRST_NODE: u32 = 1000;

const END_NODE: u32 = 1032;

// A xorshift generator.
#[derive(Clone, Copy)]
struct Generator {
    state: u64,
}

fn high_bits(x: u64) -> u32 {
    (x >> 32) as u32
}

impl Generator {
    fn next(&mut self) -> u32 {
        let mut x = self.state;
        x ^= x << 13;
        x ^= x >> 7;
        x ^= x << 17;
        self.state = x;
        high_bits(x)
    }
}

// What the ticks sent.
#[derive(Clone, Copy)]
struct Totals {
    responses: u64,
    notifications: u64,
    checksum: u64,
}

impl Totals {
    fn add_notification(&mut self, notification: &Notification) {
        let bits = match notification.sample.value {
            Value::Double(x) => f64_to_bits_with_nan(x),
            _ => 0,
        };
        // Wrapping, since nothing bounds how many a run sends.
        self.notifications = self.notifications.wrapping_add(1);
        self.checksum = self
            .checksum
            .wrapping_add(bits ^ u64::from(notification.client_handle));
    }

    fn add(&mut self, response: &Response) {
        self.responses = self.responses.wrapping_add(1);
        let shown = u64::from(response.subscription) << 32 | u64::from(response.number);
        self.checksum = self
            .checksum
            .wrapping_mul(1_099_511_628_211)
            .wrapping_add(shown)
            .wrapping_add(u64::from(response.handle))
            .wrapping_add(response.count as u64)
            .wrapping_add(u64::from(response.more));
        for notification in response.shown_notifications() {
            self.add_notification(notification);
        }
    }
}

// A subscription, and the number to acknowledge: that of its last response in a tick where this was a notification.
#[derive(Clone, Copy)]
struct Subscriber {
    id: u32,
    number: Option<u32>,
}

// The values of the nodes, and the image that shows them.
#[derive(Clone, Copy)]
struct Plant {
    image: ProcessImage,
    values: [f64; 32],
}

// Shows a node's value with a time.
fn show(image: &mut ProcessImage, node: u32, value: f64, time: i64) -> Result<(), ServiceFault> {
    image.write(node, 11, Sample::good(Value::Double(value), time))?;
    Ok(())
}

impl Plant {
    fn new() -> Result<Plant, ServiceFault> {
        let mut image = ProcessImage::new();
        let values = array::from_fn(|n| n as f64);
        for (node, value) in (FIRST_NODE..END_NODE).zip(&values) {
            show(&mut image, node, *value, 0)?;
        }
        Ok(Plant { image, values })
    }

    // The values of the nodes whose bit is set rise by 1.
    fn raise(&mut self, mut bits: u32, time: i64) -> Result<(), ServiceFault> {
        for (node, value) in (FIRST_NODE..END_NODE).zip(&mut self.values) {
            if bits & 1 == 1 {
                *value += 1.0;
                show(&mut self.image, node, *value, time)?;
            }
            bits >>= 1;
        }
        Ok(())
    }
}

fn parameters(client_handle: u32) -> MonitoringParameters {
    MonitoringParameters {
        client_handle,
        filter: RequestedFilter {
            trigger: 1,
            deadband: 1,
            deadband_value: 0.5,
        },
        sampling_interval: 50,
        queue_size: 2,
        discard_oldest: true,
    }
}

// A subscription and its eight items, with the client handles from `first` on.
fn subscribe(
    engine: &mut Engine,
    image: &ProcessImage,
    first: u32,
) -> Result<Subscriber, ServiceFault>
    requires { first ≤ 24 }
{
    let requested = SubscriptionParameters {
        milliseconds: 50,
        keep_alive: 10,
        lifetime: 30,
        limit: 16,
    };
    let id = engine.create_subscription(requested, true)?.id;
    for handle in first..first + 8 {
        engine.create_item(image, id, FIRST_NODE + handle, 2, &parameters(handle))?;
    }
    Ok(Subscriber { id, number: None })
}

// Publish, which acknowledges the subscriber's number where there is one.
fn publish(
    engine: &mut Engine,
    subscriber: Subscriber,
    handle: u32,
    responses: &mut [Response],
) -> Result<usize, ServiceFault> {
    let Some(number) = subscriber.number else {
        return engine.publish(handle, &[], &mut [], responses);
    };
    let acknowledgement = Acknowledgement {
        subscription: subscriber.id,
        number,
    };
    let mut results = [AcknowledgementResult::Good];
    engine.publish(handle, &[acknowledgement], &mut results, responses)
}

// The number to acknowledge after a response to the subscriber.
fn note(subscribers: &mut [Subscriber], response: &Response) {
    for subscriber in subscribers {
        if subscriber.id == response.subscription {
            subscriber.number = (response.kind == ResponseKind::Notifications).then_some(
                response.number,
            );
        }
    }
}

// The engine under load.
#[derive(Clone, Copy)]
struct Load {
    engine: Engine,
    plant: Plant,
    generator: Generator,
    subscribers: [Subscriber; 4],
    handle: u32,
    totals: Totals,
}

impl Load {
    fn new() -> Result<Load, ServiceFault> {
        let mut engine = Engine::new(100);
        let plant = Plant::new()?;
        let subscribers = [
            subscribe(&mut engine, &plant.image, 0)?,
            subscribe(&mut engine, &plant.image, 8)?,
            subscribe(&mut engine, &plant.image, 16)?,
            subscribe(&mut engine, &plant.image, 24)?,
        ];
        Ok(Load {
            engine,
            plant,
            generator: Generator {
                state: 88_172_645_463_325_252,
            },
            subscribers,
            handle: 1,
            totals: Totals {
                responses: 0,
                notifications: 0,
                checksum: 0,
            },
        })
    }

    // One tick: values rise, each subscriber asks once, the engine's tick answers.
    fn tick(&mut self, t: u32, responses: &mut [Response]) -> Result<(), ServiceFault> {
        let bits = self.generator.next();
        self.plant.raise(bits, i64::from(t))?;
        for subscriber in self.subscribers {
            publish(&mut self.engine, subscriber, self.handle, responses)?;
            // Wrapping: a request may have any handle.
            self.handle = self.handle.wrapping_add(1);
        }
        let count = self.engine.tick(&self.plant.image, responses)?;
        for response in responses.iter().take(count) {
            self.totals.add(response);
            note(&mut self.subscribers, response);
        }
        Ok(())
    }
}

fn run(ticks: u32, responses: &mut [Response]) -> Result<Totals, ServiceFault> {
    let mut load = Load::new()?;
    for t in 0..ticks {
        load.tick(t, responses)?;
    }
    Ok(load.totals)
}

// The number of ticks.
fn argument(rt: &HostRuntime) -> Option<u32> {
    let mut args = env::args(rt).ok()?.skip(1);
    let ticks = args.next()?.parse::<u32>().ok()?;
    if args.next().is_some() {
        return None;
    }
    Some(ticks)
}

fn main(rt: HostRuntime) -> anyhow::Result<()> {
    let Some(ticks) = argument(&rt) else {
        eprintln!(rt; "usage: load TICKS")?;
        return Err(anyhow!("the argument is not a number of ticks"));
    };
    let mut responses = [Response::no_subscription(0); 8];
    let totals = run(ticks, &mut responses).map_err(|_| anyhow!("a call was refused"))?;
    let count = totals.responses;
    let notifications = totals.notifications;
    let checksum = totals.checksum;
    println!(rt;
        "ticks={ticks} responses={count} notifications={notifications} checksum={checksum:016x}"
    )?;
    Ok(())
}
