// Filters and their refusals, and deadbands.
use crate::common::{good, refused, requested};
use std::test::Fail;
use values::value::{Kind, Sample, Value};

#[test]
fn filter_refusals(rt: HostRuntime) {
    assert_eq!(rt;
        refused(requested(3, 2, -1.0).check(Kind::Boolean, 7)),
        Some((11, 7))
    );
    assert_eq!(rt;
        refused(requested(256, 0, 0.0).check(Kind::Int32, 7)),
        Some((11, 7))
    );
    assert_eq!(rt;
        refused(requested(1, 2, 0.0).check(Kind::Int32, 7)),
        Some((12, 7))
    );
    assert_eq!(rt;
        refused(requested(1, 1, f64::INFINITY).check(Kind::Int32, 7)),
        Some((12, 7))
    );
    assert_eq!(rt;
        refused(requested(1, 1, -0.5).check(Kind::Boolean, 7)),
        Some((12, 7))
    );
    assert_eq!(rt;
        refused(requested(0, 1, 0.5).check(Kind::Boolean, 7)),
        Some((13, 7))
    );
    assert_eq!(rt; refused(requested(1, 1, -0.0).check(Kind::Double, 7)), None);
    assert_eq!(rt;
        refused(requested(2, 0, f64::NAN).check(Kind::Boolean, 7)),
        None
    );
}

#[test]
fn deadbands(rt: HostRuntime) -> Result<(), Fail> {
    let ten = requested(1, 1, 10.0)
        .check(Kind::Int32, 1)
        .map_err(|_| "refused")?;
    assert!(rt; !ten.is_change(&good(Value::Int32(100)), &good(Value::Int32(110))));
    assert!(rt; ten.is_change(&good(Value::Int32(100)), &good(Value::Int32(111))));
    assert!(rt; ten.is_change(&good(Value::Empty), &good(Value::Int32(100))));
    let time = requested(2, 0, 10.0)
        .check(Kind::Double, 1)
        .map_err(|_| "refused")?;
    let later = Sample::good(Value::Double(1.0), 1);
    assert!(rt; time.is_change(&good(Value::Double(1.0)), &later));
    Ok(())
}
