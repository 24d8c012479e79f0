// The responses to a short fixed run of the engine, one on a line: kind, handle, subscription, sequence number, more and the
// number of notifications.
#![tactic(auto)]

use answers::fault::ServiceFault;
use anyhow::anyhow;
use messages::response::Response;
use model::parameters::MonitoringParameters;
use replay::replay::replay;
use replay::scene::{Call, Scene};
use sources::image::ProcessImage;
use std::alloc::{AllocError, Global};
use std::io;
use subscriptions::parameters::SubscriptionParameters;
use values::check::RequestedFilter;
use values::value::{Sample, Value};

// Two nodes with a number each.
fn plant() -> Result<ProcessImage, ServiceFault> {
    let mut image = ProcessImage::new();
    for node in [1, 2] {
        image.write(node, 6, Sample::good(Value::Int32(20), 0))?;
    }
    Ok(image)
}

// A subscription of one tick with a notification in each message.
fn create_subscription() -> Call {
    Call::CreateSubscription {
        parameters: SubscriptionParameters {
            milliseconds: 50,
            keep_alive: 2,
            lifetime: 6,
            limit: 1,
        },
        enabled: true,
    }
}

// A reporting item on the node.
fn create_item(node: u32) -> Call {
    Call::CreateItem {
        subscription: 100,
        node,
        mode: 2,
        parameters: MonitoringParameters {
            client_handle: node,
            filter: RequestedFilter {
                trigger: 1,
                deadband: 0,
                deadband_value: 0.0,
            },
            sampling_interval: 0,
            queue_size: 1,
            discard_oldest: true,
        },
    }
}

// A request that acknowledges nothing.
fn publish(handle: u32, heap: Global) -> Call {
    Call::Publish {
        handle,
        acknowledgements: Vec::new(heap),
        room: 8,
        places: 0,
    }
}

// The calls in order.
fn calls(heap: Global) -> Result<Vec<Call>, AllocError> {
    let mut calls = Vec::new(heap);
    calls.push(create_subscription())?;
    for node in [1, 2] {
        calls.push(create_item(node))?;
    }
    for handle in [1, 2, 3] {
        calls.push(publish(handle, heap))?;
    }
    for _ in 0..5 {
        calls.push(Call::Tick { room: 8 })?;
    }
    calls.push(publish(4, heap))?;
    calls.push(Call::DeleteSubscription { id: 100, room: 8 })?;
    calls.push(publish(5, heap))?;
    Ok(calls)
}

// The calls over one source that stays as it is.
fn scenes(source: ProcessImage, heap: Global) -> Result<Vec<Scene<ProcessImage>>, AllocError> {
    let mut scenes = Vec::new(heap);
    for call in calls(heap)? {
        scenes.push(Scene { source, call })?;
    }
    Ok(scenes)
}

// As the script program begins its line; one text for both would want a crate for six fields.
fn show(rt: &HostRuntime, response: &Response) -> io::Result<()> {
    let kind = response.kind.letter();
    let handle = response.handle;
    let subscription = response.subscription;
    let number = response.number;
    let more = u8::from(response.more);
    let notifications = response.count;
    println!(rt; "{kind} {handle} {subscription} {number} {more} {notifications}")
}

fn run(rt: &HostRuntime, image: ProcessImage) -> anyhow::Result<()> {
    let heap = rt.alloc();
    let scenes = scenes(image, heap)?;
    let (_, log) = replay(100, &scenes, heap)?;
    for response in &log {
        show(rt, response)?;
    }
    Ok(())
}

fn main(rt: HostRuntime) -> anyhow::Result<()> {
    let image = plant().map_err(|_| anyhow!("a write was refused"))?;
    run(&rt, image)
}
