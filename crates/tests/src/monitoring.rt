// An item over a process image: samples are compared with the last one queued.
use crate::common::{good, requested};
use items::item::{Identity, Mode, MonitoredItem, Settings};
use sources::image::ProcessImage;
use std::test::Fail;
use values::value::{Kind, Value};

#[test]
fn samples(rt: HostRuntime) -> Result<(), Fail> {
    let filter = requested(1, 1, 10.0)
        .check(Kind::Int32, 1)
        .map_err(|_| "refused")?;
    let settings = Settings {
        client_handle: 7,
        filter,
        interval: 1,
        discard_oldest: true,
    };
    let identity = Identity {
        id: 5,
        subscription: 1,
        node: 1,
        kind: Kind::Int32,
    };
    let mut item = MonitoredItem::new(identity, settings, 2, Mode::Reporting);
    let mut image = ProcessImage::new();
    for value in [100, 106, 112] {
        assert!(rt; image.write(1, 6, good(Value::Int32(value))).is_ok());
        item.tick(&image);
    }
    let first = item.take_oldest().ok_or("nothing waits")?;
    let second = item.take_oldest().ok_or("one waited")?;
    assert!(rt; matches!(first.sample.value, Value::Int32(100)));
    assert!(rt; matches!(second.sample.value, Value::Int32(112)));
    assert!(rt; !item.reports());
    Ok(())
}
