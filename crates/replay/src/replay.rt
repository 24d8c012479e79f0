ghost use Rattle.std.specs.Prelude.{◌≡◌, ◌++◌, map, length, IfOk, OnOk};
ghost use Rattle.item_table.specs.Turn.{over};
ghost use Rattle.laws.specs.Runs.{called};
ghost use Rattle.engine.specs.State.{state_in};
ghost use Rattle.replay.specs.Lists.{room_of, places_of};
ghost use Rattle.replay.specs.Replay.{scene_of, Replayed};

use crate::scene::{Call, Scene};
use answers::acknowledgement::AcknowledgementResult;
use engine::engine::Engine;
use messages::message::Message;
use messages::response::Response;
use sources::source::Source;
use std::alloc::{AllocError, Global};

// Makes the call, and returns how many responses it wrote.
fn perform<S: Source>(
    engine: &mut Engine,
    scene: &Scene<S>,
    responses: &mut [Response],
    results: &mut [AcknowledgementResult],
) -> usize
    requires room { length responses.old ≡ room_of scene.now.call }
    requires places { length results.old ≡ places_of scene.now.call }
    ensures after { state_in engine.new ≡ (called (state_in engine.old) (scene_of S.Source.stands scene.now)).state }
    ensures value { result ≡ length (called (state_in engine.old) (scene_of S.Source.stands scene.now)).responses }
    ensures responses { responses.new ≡ over (called (state_in engine.old) (scene_of S.Source.stands scene.now)).responses responses.old }
{
    match &scene.call {
        Call::CreateSubscription {
            parameters,
            enabled,
        } => {
            let _ = engine.create_subscription(*parameters, *enabled);
            0
        }
        Call::ModifySubscription { id, parameters } => {
            let _ = engine.modify_subscription(*id, *parameters);
            0
        }
        Call::SetPublishingMode { id, enabled } => {
            let _ = engine.set_publishing_mode(*id, *enabled);
            0
        }
        Call::DeleteSubscription { id, .. } => {
            engine.delete_subscription(*id, responses).unwrap_or(0)
        }
        Call::CreateItem {
            subscription,
            node,
            mode,
            parameters,
        } => {
            let _ = engine.create_item(&scene.source, *subscription, *node, *mode, parameters);
            0
        }
        Call::ModifyItem {
            subscription,
            item,
            parameters,
        } => {
            let _ = engine.modify_item(*subscription, *item, parameters);
            0
        }
        Call::DeleteItem { subscription, item } => {
            let _ = engine.delete_item(*subscription, *item);
            0
        }
        Call::SetMonitoringMode {
            subscription,
            item,
            mode,
        } => {
            let _ = engine.set_monitoring_mode(*subscription, *item, *mode);
            0
        }
        Call::Publish {
            handle,
            acknowledgements,
            ..
        } => engine
            .publish(*handle, acknowledgements, results, responses)
            .unwrap_or(0),
        Call::Republish {
            subscription,
            number,
        } => {
            let mut message = Message::default();
            let _ = engine.republish(*subscription, *number, &mut message);
            0
        }
        Call::Tick { .. } => engine.tick(&scene.source, responses).unwrap_or(0),
    }
}

// One call, its responses appended to the log.
fn apply<S: Source>(
    engine: &mut Engine,
    scene: &Scene<S>,
    log: &mut Vec<Response>,
    heap: Global,
) -> Result<(), AllocError>
    ensures after { OnOk result (state_in engine.new ≡ (called (state_in engine.old) (scene_of S.Source.stands scene.now)).state) }
    ensures log { OnOk result (log.new.items ≡ log.old.items ++ (called (state_in engine.old) (scene_of S.Source.stands scene.now)).responses) }
{
    let mut responses = vec![in heap; Response::no_subscription(0); scene.call.room()]?;
    let mut results = vec![in heap; AcknowledgementResult::Good; scene.call.places()]?;
    let count = perform(engine, scene, &mut responses, &mut results);
    log.extend_from_slice(&responses[..count])
}

// Runs the scenes on a new engine, and answers it with all responses in order.
pub fn replay<S: Source>(
    first_id: u32,
    scenes: &[Scene<S>],
    heap: Global,
) -> Result<(Engine, Vec<Response>), AllocError>
    ensures { IfOk result (λ p. Replayed first_id (map (scene_of S.Source.stands) scenes.now) (state_in p.0) p.1.items) }
{
    let mut engine = Engine::new(first_id);
    let mut log = Vec::new(heap);
    for scene in scenes {
        apply(&mut engine, scene, &mut log, heap)?;
    }
    Ok((engine, log))
}
