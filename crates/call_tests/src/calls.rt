// The engine's calls, as a host makes them.
use answers::acknowledgement::{Acknowledgement, AcknowledgementResult};
use answers::fault::ServiceFault;
use engine::engine::Engine;
use messages::message::Message;
use messages::response::Response;
use model::parameters::MonitoringParameters;
use sources::image::ProcessImage;
use subscriptions::parameters::SubscriptionParameters;
use values::check::RequestedFilter;
use values::value::{Sample, Value};

// Node 1 shows an Int32, node 2 a Boolean.
fn plant() -> ProcessImage {
    let mut image = ProcessImage::new();
    let _ = image.write(1, 6, Sample::good(Value::Int32(5), 0));
    let _ = image.write(2, 1, Sample::good(Value::Boolean(true), 0));
    image
}

// A subscription of one tick with a notification in each message.
fn subscription() -> SubscriptionParameters {
    SubscriptionParameters {
        milliseconds: 50,
        keep_alive: 2,
        lifetime: 6,
        limit: 1,
    }
}

fn parameters(trigger: u32, deadband: u32, deadband_value: f64) -> MonitoringParameters {
    MonitoringParameters {
        client_handle: 7,
        filter: RequestedFilter {
            trigger,
            deadband,
            deadband_value,
        },
        sampling_interval: 0,
        queue_size: 2,
        discard_oldest: true,
    }
}

// The number and place of the refusal, if there is one. Not shared with the crate `tests`: a crate for four lines.
fn refused<T: Drop>(res: Result<T, ServiceFault>) -> Option<(u32, u32)> {
    let refusal = res.err()?.refusal();
    Some((refusal.number, refusal.place))
}

// An engine with the subscription 100 and the reporting item 101 on node 1.
fn subscribed(image: &ProcessImage) -> Engine {
    let mut engine = Engine::new(100);
    let _ = engine.create_subscription(subscription(), true);
    let _ = engine.create_item(image, 100, 1, 2, &parameters(1, 0, 0.0));
    engine
}

#[test]
fn item_refusals(rt: HostRuntime) {
    let image = plant();
    let mut engine = subscribed(&image);
    let plain = parameters(1, 0, 0.0);
    assert!(rt; refused(engine.create_item(&image, 99, 1, 2, &plain)) == Some((3, 99)));
    assert!(rt; refused(engine.create_item(&image, 100, 9, 3, &plain)) == Some((9, 9)));
    assert!(rt; refused(engine.create_item(&image, 100, 1, 3, &plain)) == Some((10, 1)));
    assert!(rt;
        refused(engine.create_item(&image, 100, 1, 2, &parameters(256, 0, 0.0))) == Some((11, 1))
    );
    assert!(rt;
        refused(engine.create_item(&image, 100, 1, 2, &parameters(1, 1, -1.0))) == Some((12, 1))
    );
    assert!(rt;
        refused(engine.create_item(&image, 100, 2, 2, &parameters(0, 1, 1.0))) == Some((13, 2))
    );
    assert!(rt; refused(engine.modify_item(100, 102, &plain)) == Some((4, 102)));
    assert!(rt; refused(engine.set_monitoring_mode(100, 101, 3)) == Some((10, 101)));
    assert!(rt; refused(engine.delete_item(100, 101)).is_none());
    assert!(rt; refused(engine.delete_item(100, 101)) == Some((4, 101)));
}

#[test]
fn engine_refusals(rt: HostRuntime) {
    let image = plant();
    let mut engine = Engine::new(4_294_967_293);
    for _ in 0..3 {
        assert!(rt; refused(engine.create_subscription(subscription(), true)).is_none());
    }
    assert!(rt; refused(engine.create_subscription(subscription(), true)) == Some((8, 0)));
    let mut full = Engine::new(1);
    for _ in 0..4 {
        let _ = full.create_subscription(subscription(), true);
    }
    assert!(rt; refused(full.create_subscription(subscription(), true)) == Some((6, 0)));
    for _ in 0..32 {
        let _ = full.create_item(&image, 1, 1, 2, &parameters(1, 0, 0.0));
    }
    assert!(rt; refused(full.create_item(&image, 1, 1, 2, &parameters(1, 0, 0.0))) == Some((7, 0)));
}

#[test]
fn list_refusals(rt: HostRuntime) {
    let image = plant();
    let mut engine = subscribed(&image);
    let mut short = [Response::no_subscription(0); 7];
    let mut responses = [Response::no_subscription(0); 8];
    let acknowledgements = [Acknowledgement {
        subscription: 100,
        number: 1,
    }; 9];
    let mut results = [AcknowledgementResult::Good; 9];
    assert!(rt; refused(engine.tick(&image, &mut short)) == Some((1, 0)));
    assert!(rt; refused(engine.publish(1, &[], &mut [], &mut short)) == Some((1, 0)));
    assert!(rt;
        refused(engine.publish(1, &acknowledgements, &mut [], &mut responses)) == Some((1, 0))
    );
    assert!(rt;
        refused(engine.publish(1, &acknowledgements, &mut results, &mut responses)) == Some((2, 0))
    );
    assert!(rt; engine.queued_handles().is_empty());
}

#[test]
fn sent_kept_and_acknowledged(rt: HostRuntime) {
    let image = plant();
    let mut engine = subscribed(&image);
    let mut responses = [Response::no_subscription(0); 8];
    assert!(rt; refused(engine.publish(1, &[], &mut [], &mut responses)).is_none());
    assert!(rt; matches!(engine.tick(&image, &mut responses), Ok(1)));
    let response = responses[0];
    assert!(rt; response.kind.letter() == 'N' && response.handle == 1 && response.number == 1);
    assert!(rt; response.shown_notifications().len() == 1 && response.shown_numbers().len() == 1);
    let mut message = Message::default();
    assert!(rt; refused(engine.republish(100, 1, &mut message)).is_none());
    assert!(rt; message.number == 1 && message.carried().len() == 1);
    let acknowledgements = [
        Acknowledgement {
            subscription: 100,
            number: 1,
        },
        Acknowledgement {
            subscription: 100,
            number: 1,
        },
        Acknowledgement {
            subscription: 101,
            number: 1,
        },
    ];
    let mut results = [AcknowledgementResult::Good; 3];
    let answer = engine.publish(2, &acknowledgements, &mut results, &mut responses);
    assert!(rt; matches!(answer, Ok(0)));
    assert!(rt; results[0].status() == 0);
    assert!(rt; results[1].status() == 0x807A_0000 && results[2].status() == 0x8028_0000);
    assert!(rt; refused(engine.republish(100, 1, &mut message)) == Some((5, 1)));
    assert!(rt; engine.queued_handles() == [2].as_slice());
}

// Whether a tick sends nothing.
fn silent_tick(engine: &mut Engine, image: &ProcessImage) -> bool {
    let mut responses = [Response::no_subscription(0); 8];
    matches!(engine.tick(image, &mut responses), Ok(0))
}

#[test]
fn late_and_ended(rt: HostRuntime) {
    let image = plant();
    let mut engine = subscribed(&image);
    for _ in 0..6 {
        assert!(rt; silent_tick(&mut engine, &image));
    }
    assert!(rt; refused(engine.set_publishing_mode(100, false)) == Some((3, 100)));
    let mut responses = [Response::no_subscription(0); 8];
    assert!(rt; matches!(engine.publish(1, &[], &mut [], &mut responses), Ok(1)));
    assert!(rt; responses[0].kind.letter() == 'S' && responses[0].subscription == 100);
    assert!(rt; matches!(engine.publish(2, &[], &mut [], &mut responses), Ok(1)));
    assert!(rt; responses[0].kind.letter() == 'O' && responses[0].handle == 2);
}
