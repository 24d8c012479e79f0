// The sources, their refusals, and joined nodes on both sides of the split.
use crate::common::{good, refused};
use sources::certificates::Certificates;
use sources::image::ProcessImage;
use sources::joined::{Joined, plant_sample};
use values::value::Value;

#[test]
fn source_refusals(rt: HostRuntime) {
    let mut image = ProcessImage::new();
    for node in 0..64 {
        assert_eq!(rt; refused(image.write(node, 6, good(Value::Empty))), None);
    }
    assert_eq!(rt;
        refused(image.write(64, 0, good(Value::Empty))),
        Some((14, 64))
    );
    assert_eq!(rt;
        refused(image.write(5, 0, good(Value::Empty))),
        Some((15, 5))
    );
    assert_eq!(rt;
        refused(image.write(5, 6, good(Value::Boolean(true)))),
        Some((15, 5))
    );
    let mut certificates = Certificates::new();
    assert_eq!(rt; refused(certificates.enter(3, 1_000_001)), Some((16, 3)));
    assert_eq!(rt; refused(certificates.set_today(1_000_001)), Some((16, 0)));
}

#[test]
fn joined_nodes(rt: HostRuntime) {
    let mut plant = Joined {
        first: ProcessImage::new(),
        second: Certificates::new(),
        split: 1000,
    };
    assert_eq!(rt;
        refused(plant.first.write(999, 1, good(Value::Boolean(true)))),
        None
    );
    assert_eq!(rt; refused(plant.second.enter(0, 90)), None);
    assert_eq!(rt; refused(plant.second.set_today(100)), None);
    assert!(rt; matches!(plant_sample(&plant, 999).value, Value::Boolean(true)));
    assert!(rt; matches!(plant_sample(&plant, 1000).value, Value::Int32(-10)));
    assert_eq!(rt; plant_sample(&plant, 1001).status, 0x8034_0000);
}
