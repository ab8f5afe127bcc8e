//! What is read, copied and changed.

use crate::common::*;
use jzon::{Reading, parse_as, parse_located};
use jzon_test_support::{DOCUMENT, DUMP};

#[derive(Clone, Copy)]
enum Changed {
    Parse(&'static str),
    ParseStrictly(&'static str),
    ParseLocated(&'static str),
    ParseAndPush(&'static str),
    ParseAndInsert(&'static str),
    Clone,
    StdClone,
    Push,
    PushLongText,
    PushOnNull,
    Insert,
    InsertOnArray,
    AtMut,
    AtIndexMut(usize),
    TakeString,
}

pub fn parse_strictly(alloc: Global, text: &str) -> Result<JsonValue> {
    parse_as(alloc, text, &Reading::STRICT)
}

fn parse_at_places(alloc: Global, text: &str) -> Result<JsonValue> {
    parse_located(alloc, text, &Reading::USUAL).map_err(|located| located.error)
}

fn take_string(value: &mut JsonValue, alloc: Global) -> Result<()> {
    if let Some(text) = value.take_string(alloc)? {
        *value = JsonValue::String(text);
    }
    Ok(())
}

fn parse_and_push(alloc: Global, text: &str) -> Result<JsonValue> {
    let mut read = parse(alloc, text)?;
    read.push(alloc, true)?;
    Ok(read)
}

fn parse_and_insert(alloc: Global, text: &str) -> Result<JsonValue> {
    let mut read = parse(alloc, text)?;
    read.insert(alloc, "d", true)?;
    Ok(read)
}

fn copy(value: &mut JsonValue, alloc: Global) -> Result<()> {
    *value = value.clone(alloc)?;
    Ok(())
}

fn std_copy(value: &mut JsonValue) -> Result<()> {
    *value = Clone::clone(value)?;
    Ok(())
}

impl Call for Changed {
    fn call(self, value: &mut JsonValue, alloc: Global) -> Result<()> {
        match self {
            Changed::Parse(text) => set(value, parse(alloc, text)),
            Changed::ParseStrictly(text) => set(value, parse_strictly(alloc, text)),
            Changed::ParseLocated(text) => set(value, parse_at_places(alloc, text)),
            Changed::ParseAndPush(text) => set(value, parse_and_push(alloc, text)),
            Changed::ParseAndInsert(text) => set(value, parse_and_insert(alloc, text)),
            Changed::Clone => copy(value, alloc),
            Changed::StdClone => std_copy(value),
            Changed::Push => value.push(alloc, true),
            Changed::PushLongText => value.push(alloc, LONG_TEXT),
            Changed::PushOnNull => passed_over(value.push(alloc, LONG_TEXT)),
            Changed::Insert => value.insert(alloc, LONG_KEY, true),
            Changed::InsertOnArray => passed_over(value.insert(alloc, "a", LONG_TEXT)),
            Changed::AtMut => borrow_at(value, alloc, LONG_KEY),
            Changed::AtIndexMut(index) => borrow_at_index(value, alloc, index),
            Changed::TakeString => take_string(value, alloc),
        }
    }
}

/// The buffer for the escapes grows, and then the value is allocated.
const ESCAPED: &str = "\"\\u00e9 and a text of more than thirty bytes\\n\\uD834\\uDD1E\"";

const UNESCAPED: &str = "\"é and a text of more than thirty bytes\\n\u{1d11e}\"";

/// An object of 32 keys, and of these entries.
macro_rules! after_32_keys {
    ($more:literal) => {
        concat!(
            "{\"a\":0,\"b\":1,\"c\":2,\"d\":3,\"e\":4,\"f\":5,\"g\":6,\"h\":7,\"i\":8,\"j\":9,",
            "\"k\":10,\"l\":11,\"m\":12,\"n\":13,\"o\":14,\"p\":15,\"q\":16,\"r\":17,\"s\":18,",
            "\"t\":19,\"u\":20,\"v\":21,\"w\":22,\"x\":23,\"y\":24,\"z\":25,\"A\":26,\"B\":27,",
            "\"C\":28,\"D\":29,\"E\":30,\"F\":31",
            $more,
            "}"
        )
    };
}

/// The most keys that have no index, and are compared one by one.
const THIRTY_TWO_KEYS: &str = after_32_keys!("");

/// With another key, with which they have an index.
const THIRTY_THREE_KEYS: &str = after_32_keys!(
    ",\"0123456789abcdef0123456789abcdef01234567\":true"
);

/// With another key, whose value is null.
const THIRTY_THIRD_NULL: &str = after_32_keys!(
    ",\"0123456789abcdef0123456789abcdef01234567\":null"
);

/// More keys than are compared with each other: a filter finds which may repeat.
const TWENTY_KEYS: &str = "{\"a\":0,\"b\":1,\"c\":2,\"d\":3,\"e\":4,\"f\":5,\"g\":6,\"h\":7,\
    \"i\":8,\"j\":9,\"k\":10,\"l\":11,\"m\":12,\"n\":13,\"o\":14,\"p\":15,\"q\":16,\"r\":17,\
    \"s\":18,\"t\":19}";

/// One of them twice, and it isn't the last.
const REPEATED: &str = "{\"a\":1,\"b\":1,\"c\":2,\"d\":3,\"e\":4,\"f\":5,\"g\":6,\"h\":7,\"i\":8,\
    \"j\":9,\"k\":10,\"l\":11,\"m\":12,\"n\":13,\"o\":14,\"p\":15,\"q\":16,\"r\":17,\"s\":18,\
    \"a\":0,\"t\":19}";

/// Both arrays have a block of their length, and both objects a box and two blocks. The outermost
/// array takes the block of the stack of values; the stacks of keys and containers keep theirs.
const ALIKE: &str = "[{\"a\":[1,2]},{\"a\":[3,4]}]";

/// An object in another: a box and two blocks of its length. The other one has its box, and takes
/// the blocks of both stacks; the stack of containers is a block too.
const ONE_IN_ANOTHER: &str = "{\"z\":0,\"y\":{\"a\":1}}";

const THREE_IN_ANOTHER: &str = "{\"z\":0,\"y\":{\"a\":1,\"b\":2,\"c\":3}}";

/// Both stacks grow twice for it, and the other one leaves them, for two blocks of its length.
const SIXTEEN_IN_ANOTHER: &str = "{\"z\":0,\"y\":{\"a\":0,\"b\":1,\"c\":2,\"d\":3,\"e\":4,\"f\":5,\
    \"g\":6,\"h\":7,\"i\":8,\"j\":9,\"k\":10,\"l\":11,\"m\":12,\"n\":13,\"o\":14,\"p\":15}}";

/// An array in an object: one block.
const ARRAY_IN_OBJECT: &str = "{\"z\":0,\"y\":[1,2,3]}";

const CHANGED: &[Row<Changed>] = rows! {
    (Changed::Parse(DOCUMENT), "parse", "null", DUMP, 6)
    (Changed::Parse(ESCAPED), "parse of a long string", "null", UNESCAPED, 4)
    (Changed::Parse(LONG_DOCUMENT), "parse of a long key", "null", LONG_DOCUMENT, 11)
    (Changed::Parse(REPEATED), "parse of a repeated key among twenty", "null", TWENTY_KEYS, 8)
    (Changed::Parse(ALIKE), "parse of elements that are alike", "null", ALIKE, 11)
    (Changed::Parse(ONE_IN_ANOTHER), "parse of an object of one key in another", "null",
        ONE_IN_ANOTHER, 7)
    (Changed::Parse(THREE_IN_ANOTHER), "parse of an object of three keys in another", "null",
        THREE_IN_ANOTHER, 7)
    (Changed::Parse(SIXTEEN_IN_ANOTHER), "parse of an object of 16 keys in another", "null",
        SIXTEEN_IN_ANOTHER, 12)
    (Changed::Parse(ARRAY_IN_OBJECT), "parse of an array in an object", "null", ARRAY_IN_OBJECT, 5)
    (Changed::ParseStrictly(DOCUMENT), "strict parse_as", "null", DUMP, 7)
    (Changed::ParseLocated(DOCUMENT), "parse_located", "null", DUMP, 6)
    (Changed::ParseStrictly(TWENTY_KEYS), "strict parse_as of twenty keys", "null", TWENTY_KEYS, 6)
    // A container that is the whole text takes the blocks of the stacks, which have room for eight:
    // so nothing is allocated for what is added.
    (Changed::ParseAndPush("[1,2,3]"), "push onto what was parsed", "null", "[1,2,3,true]", 1)
    (Changed::ParseAndInsert("{\"a\":1,\"b\":2,\"c\":3}"), "insert into what was parsed", "null",
        "{\"a\":1,\"b\":2,\"c\":3,\"d\":true}", 3)
    (Changed::Clone, "clone", DOCUMENT, DUMP, 4)
    (Changed::Clone, "clone of a long key", LONG_DOCUMENT, LONG_DOCUMENT, 10)
    (Changed::StdClone, "std's Clone", LONG_DOCUMENT, LONG_DOCUMENT, 10)
    (Changed::Push, "push", "[]", "[true]", 1)
    (Changed::PushLongText, "push of a long string", "[]", "[\"abcdefghijklmnopqrstuvwxyz01234\"]",
        2)
    (Changed::PushOnNull, "push on null", "null", "null", 1)
    (Changed::Insert, "insert", "{\"a\":null}",
        "{\"a\":null,\"0123456789abcdef0123456789abcdef01234567\":true}", 3)
    (Changed::Insert, "insert of the 33rd key", THIRTY_TWO_KEYS, THIRTY_THREE_KEYS, 5)
    (Changed::InsertOnArray, "insert on an array", "[1]", "[1]", 1)
    (Changed::AtMut, "at_mut of a number", "5", KEYED, 4)
    (Changed::AtMut, "at_mut", "{}", KEYED, 4)
    (Changed::AtMut, "at_mut of the 33rd key", THIRTY_TWO_KEYS, THIRTY_THIRD_NULL, 5)
    (Changed::AtIndexMut(0), "at_index_mut of a number", "5", "[null]", 1)
    (Changed::AtIndexMut(9), "at_index_mut", "[true]", "[true,null]", 1)
    (Changed::TakeString, "take_string", "\"inline\"", "\"inline\"", 1)
};

#[test]
fn changed_under_refusals(rt: HostRuntime) -> Tested {
    fail_each(&rt, rt.alloc(), CHANGED)
}
