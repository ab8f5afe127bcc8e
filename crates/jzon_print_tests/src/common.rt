//! What the tests share. To prove an assertion takes seconds, and a call of `expect` or `expect_eq`
//! hardly any time.

use jzon::object::Object;
use jzon::{JsonValue, Reading, Result, parse, parse_as};
pub use jzon_test_support::{EACH_KIND, Tested, Tester, each_unread, number, parts};
use std::alloc::Global;
use std::fmt::Debug;
use std::process::Abort;

/// It holds of this row.
pub fn expect(rt: &impl Abort, row: &str, holds: bool) {
    assert!(rt; holds, "{row}");
}

/// Both are equal, in this row.
pub fn expect_eq<T: Copy + PartialEq + Debug>(rt: &impl Abort, row: &str, found: T, want: T) {
    assert_eq!(rt; found, want, "{row}");
}

/// All of these values, each with its compact text.
pub fn each_value(alloc: Global) -> jzon::Result<Vec<(&'static str, JsonValue)>> {
    let mut values = Vec::new(alloc);
    for text in EACH_KIND {
        values.push((*text, parse(alloc, text)?))?;
    }
    for unread in each_unread(alloc)? {
        values.push(unread)?;
    }
    Ok(values)
}

/// Lengths that rise by a tenth, so that no call can fail in a wider band of lengths unseen; and some
/// at which room may double.
pub const LENGTHS: &[u16] = &[
    330, 363, 399, 438, 481, 512, 513, 529, 581, 639, 702, 772, 849, 933, 1024, 1025, 1026, 1128,
    1240, 1364, 1500, 1650, 1815, 1996, 2195, 2414, 2655, 2920, 3212, 3533, 3886, 4274, 4701, 5171,
    5688, 6256, 6881, 7569, 8325, 9157, 10072, 11079,
];

/// The call returned this text.
pub fn is_text(found: Result<String>, text: &str) -> bool {
    match found {
        Ok(found) => found.as_str() == text,
        Err(_) => false,
    }
}

/// The call returned a value that equals this one.
pub fn is_value(found: Result<JsonValue>, value: &JsonValue) -> bool {
    match found {
        Ok(found) => *value == found,
        Err(_) => false,
    }
}

/// What `{}` shows of the value.
pub fn display(alloc: Global, value: &JsonValue) -> Result<String> {
    Ok(format!(in alloc; "{value}")?)
}

/// What the text means, read strictly.
pub fn read_strictly(alloc: Global, text: &str) -> Result<JsonValue> {
    let strict = Reading::new(true, 512).unwrap();
    parse_as(alloc, text, &strict)
}

/// The value dumps this text.
pub fn expect_dump(rt: &impl Tester, value: &JsonValue, text: &str) {
    match value.dump(rt.alloc()) {
        Ok(dump) => expect_eq(rt, text, dump.as_str(), text),
        Err(_) => expect(rt, text, false),
    }
}

/// An array of these numbers.
pub fn numbers(alloc: Global, numbers: &[u64]) -> Result<JsonValue> {
    let mut items = Vec::new(alloc);
    for mantissa in numbers {
        items.push(number(*mantissa))?;
    }
    Ok(JsonValue::Array(items))
}

/// `{"a":[],"b":{}}`
pub fn empty_containers(alloc: Global) -> Result<JsonValue> {
    let mut object = Object::new(alloc);
    object.insert(alloc, "a", JsonValue::Array(Vec::new(alloc)))?;
    object.insert(alloc, "b", JsonValue::Object(Object::new(alloc)))?;
    Ok(JsonValue::Object(object))
}
