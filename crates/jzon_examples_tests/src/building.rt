//! Tests of `cookbook::building`.

use crate::common::Tested;
use jzon_examples::cookbook::building::{
    Profile, Shape, from_float, headers, numbered, order, renamed, reply, with_tax,
};

#[test]
fn builds(rt: HostRuntime) -> Tested {
    let alloc = rt.alloc();
    assert_eq!(rt;
        reply(alloc, 7, &["a", "b"])?.dump(alloc)?.as_str(),
        r#"{"id":7,"names":["a","b"],"next":null,"range":{"from":0,"to":[1,2]}}"#
    );
    Ok(())
}

#[test]
fn builds_an_object_of_names(rt: HostRuntime) -> Tested {
    let alloc = rt.alloc();
    assert_eq!(rt;
        numbered(alloc, &["x", "y"])?.dump(alloc)?.as_str(),
        r#"{"x":0,"y":1}"#
    );
    Ok(())
}

#[test]
fn builds_headers(rt: HostRuntime) -> Tested {
    let alloc = rt.alloc();
    let pairs = vec![in alloc; ("Host", "a"), ("Accept", "*/*"), ("Host", "b")]?;
    assert_eq!(rt;
        headers(alloc, pairs)?.dump(alloc)?.as_str(),
        r#"{"Host":"b","Accept":"*/*"}"#
    );
    Ok(())
}

#[test]
fn builds_an_order(rt: HostRuntime) -> Tested {
    let alloc = rt.alloc();
    assert_eq!(rt;
        order(alloc, 1999)?.dump(alloc)?.as_str(),
        r#"{"price":19.99}"#
    );
    Ok(())
}

#[test]
fn builds_numbers(rt: HostRuntime) -> Tested {
    let alloc = rt.alloc();
    for (price, expected) in [("19.99", "20.9895"), ("20.00", "21"), ("-0.1", "-0.105")] {
        let price = jzon::parse(alloc, price)?.as_number().ok_or("no number")?;
        let taxed = with_tax(price).ok_or("too many digits")?;
        assert_eq!(rt; jzon::stringify(alloc, taxed)?.as_str(), expected);
    }
    Ok(())
}

#[test]
fn builds_from_floats(rt: HostRuntime) -> Tested {
    let alloc = rt.alloc();
    for (float, expected) in [(3.25f64, "3.25"), (0.1, "0.1"), (-2.0, "-2")] {
        assert_eq!(rt; from_float(alloc, float)?.dump(alloc)?.as_str(), expected);
    }
    Ok(())
}

#[test]
fn refuses_other_floats(rt: HostRuntime) {
    let alloc = rt.alloc();
    assert!(rt; from_float(alloc, f64::NAN).is_err());
    assert!(rt; from_float(alloc, f64::INFINITY).is_err());
}

#[test]
fn builds_shapes(rt: HostRuntime) -> Tested {
    let alloc = rt.alloc();
    let rows = [
        (
            Shape::Circle { radius: 2 },
            r#"{"type":"circle","radius":2}"#,
        ),
        (
            Shape::Rectangle {
                width: 3,
                height: 4,
            },
            r#"{"type":"rectangle","width":3,"height":4}"#,
        ),
    ];
    for (shape, text) in rows {
        assert_eq!(rt; jzon::stringify(alloc, shape)?.as_str(), text);
    }
    Ok(())
}

#[test]
fn clones(rt: HostRuntime) -> Tested {
    let alloc = rt.alloc();
    let first = Profile {
        name: String::from_str(alloc, "a")?,
        settings: jzon::parse(alloc, r#"{"x": [1]}"#)?,
    };
    let second = renamed(&first, String::from_str(alloc, "b")?)?;
    assert!(rt; second.settings == first.settings);
    assert!(rt; second != first);
    Ok(())
}
