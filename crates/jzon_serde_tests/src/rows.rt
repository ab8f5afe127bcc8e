//! Texts, the types that they are read as, and what is written again or what the error says. To prove a
//! test of a table of 24 rows takes 2 seconds, of one of 48 rows 6, so the tables are short.

use crate::again::again;
use crate::common::{Tested, Tester, expect_eq};
use jzon_test_support::rows;

/// A type, a text, and what is written again.
type Row = (&'static str, &'static str, &'static str);

/// Unsigned integers, by their value, and what is out of their range.
const UNSIGNED: &[Row] = rows! {
    ("u8", "0", "0")
    ("u8", "255", "255")
    ("u8", " 7 ", "7")
    ("u8", "-0", "0")
    ("u8", "1e2", "100")
    ("u8", "100.0", "100")
    ("u8", "2.50e2", "250")
    ("u8", "0e9999", "0")
    ("u8", "256", "expected an integer in the range of its type, found 256 at (1:1)")
    ("u8", "-1", "expected an integer of at least 0, found -1 at (1:1)")
    ("u8", "1.5", "expected an integer of at least 0, found 1.5 at (1:1)")
    ("u8", "1e9999", "expected an integer of at most 64 bits, found 1e9999 at (1:1)")
    ("u8", "\"1\"", "expected an integer of at least 0, found \"1\" at (1:1)")
    ("u8", "null", "expected an integer of at least 0, found null at (1:1)")
    ("u8", "[1]", "expected an integer of at least 0, found an array of 1 element at (1:1)")
    ("u16", "65535", "65535")
    ("u16", "65536", "expected an integer in the range of its type, found 65536 at (1:1)")
    ("u32", "4294967295", "4294967295")
    ("u32", "4294967296", "expected an integer in the range of its type, found 4294967296 at (1:1)")
    ("u64", "18446744073709551615", "18446744073709551615")
    ("u64", "1e19", "10000000000000000000")
    ("u64", "2e19", "expected an integer of at most 64 bits, found 20000000000000000000 at (1:1)")
    ("u64", "18446744073709551616", "Number is not exact at (1:20)")
    (
        "u64",
        "1844674407370955161.0",
        "expected an integer, found 1844674407370955161.0, of which digits may be cut at (1:1)",
    )
    ("u64", "100.00000000000000000001", "Number is not exact at (1:24)")
    ("u128", "18446744073709551615", "18446744073709551615")
    ("u128", "1e38", "expected an integer of at most 64 bits, found 1e38 at (1:1)")
    ("u128", "1.50e1", "15")
    ("u128", "-1", "expected an integer of at least 0, found -1 at (1:1)")
    ("u16", "-0.0", "0")
    ("u32", "1e10", "expected an integer in the range of its type, found 10000000000 at (1:1)")
    ("u64", "false", "expected an integer of at least 0, found false at (1:1)")
};

/// Signed integers.
const SIGNED: &[Row] = rows! {
    ("i8", "127", "127")
    ("i8", "-128", "-128")
    ("i8", "-1.28e2", "-128")
    ("i8", "128", "expected an integer in the range of its type, found 128 at (1:1)")
    ("i8", "-129", "expected an integer in the range of its type, found -129 at (1:1)")
    ("i8", "0.5", "expected an integer, found 0.5 at (1:1)")
    ("i16", "-32768", "-32768")
    ("i16", "32768", "expected an integer in the range of its type, found 32768 at (1:1)")
    ("i32", "-2147483648", "-2147483648")
    ("i32", "2147483648", "expected an integer in the range of its type, found 2147483648 at (1:1)")
    ("i64", "-9223372036854775808", "-9223372036854775808")
    ("i64", "9223372036854775807", "9223372036854775807")
    (
        "i64",
        "9223372036854775808",
        "expected an integer in the range of its type, found 9223372036854775808 at (1:1)",
    )
    ("i64", "true", "expected an integer, found true at (1:1)")
    ("i128", "-18446744073709551615", "-18446744073709551615")
    ("i128", "-1e30", "expected an integer of at most 64 bits, found -1e30 at (1:1)")
    ("i128", "-0.0", "0")
    ("i8", "\"\"", "expected an integer, found \"\" at (1:1)")
    ("i32", "{}", "expected an integer, found an empty object at (1:1)")
};

/// Floats.
const FLOATS: &[Row] = rows! {
    ("f64", "0.1", "0.1")
    ("f64", "1", "1.0")
    ("f64", "-0.0", "-0")
    ("f64", "1e22", "1e22")
    ("f64", "123456789012345680", "123456789012345680")
    ("f64", "5e-324", "5e-324")
    ("f64", "1.7976931348623157e308", "1.7976931348623157e308")
    ("f64", "0.30000000000000004", "0.30000000000000004")
    ("f64", "1e-400", "0")
    ("f64", "1e400", "expected a number in a float's range, found 1e400 at (1:1)")
    ("f64", "\"1\"", "expected a number, found \"1\" at (1:1)")
    ("f64", "null", "expected a number, found null at (1:1)")
    ("f32", "0.1", "0.1")
    ("f32", "16777217", "16777216.0")
    ("f32", "3.4028235e38", "3.4028235e38")
    ("f32", "1e39", "expected a number in a float's range, found 1e39 at (1:1)")
    ("Floats", "[null, 1.5]", "[null,1.5]")
    ("f64", "-1.5e-3", "-0.0015")
    ("f64", "[]", "expected a number, found an empty array at (1:1)")
    ("f32", "true", "expected a number, found true at (1:1)")
    ("Floats", "[]", "[]")
};

/// Decimals, and any value.
const DECIMALS: &[Row] = rows! {
    ("Exact", "19.90", "19.90")
    ("Exact", "1234567890.123456789", "1234567890.123456789")
    ("Exact", "1e400", "1e400")
    ("Exact", "-0", "-0")
    ("Exact", "-5", "-5")
    ("Exact", "0.00", "0")
    ("Exact", "18446744073709551615", "18446744073709551615")
    ("Exact", "-18446744073709551615", "-18446744073709551615")
    ("Exact", "18446744073709551620", "18446744073709551620")
    ("Exact", "-1844674407370955162e1", "-18446744073709551620")
    ("Exact", "90071992547409930000", "90071992547409930000")
    ("Exact", "\"1\"", "expected a number, found \"1\" at (1:1)")
    ("Json", "null", "null")
    ("Json", "{\"b\": [1, 2.50, {\"a\": \"x\"}], \"a\": false}", "{\"b\":[1,2.50,{\"a\":\"x\"}],\"a\":false}")
    ("Json", "[1e400, -0, 0.1e-3, 12345678901234567890]", "[1e400,-0,0.0001,12345678901234567890]")
    ("Json", "[99999999999999999990, 18446744073709551620]", "[99999999999999999990,18446744073709551620]")
    ("Json", "[]", "[]")
    ("Json", "{}", "{}")
    ("Json", "[[], {}, [{}]]", "[[],{},[{}]]")
    ("Exact", "null", "expected a number, found null at (1:1)")
    ("Exact", "true", "expected a number, found true at (1:1)")
    ("Json", "\"a\"", "\"a\"")
    ("Json", "true", "true")
};

/// Other values without a name.
const SCALARS: &[Row] = rows! {
    ("bool", "true", "true")
    ("bool", "false", "false")
    ("bool", "0", "expected true or false, found 0 at (1:1)")
    ("bool", "\"true\"", "expected true or false, found \"true\" at (1:1)")
    ("char", "\"a\"", "\"a\"")
    ("char", "\"\\u00e9\"", "\"é\"")
    ("char", "\"\\ud834\\udd1e\"", "\"\u{1d11e}\"")
    ("char", "\"\"", "expected one character, found \"\" at (1:1)")
    ("char", "\"ab\"", "expected one character, found \"ab\" at (1:1)")
    ("char", "97", "expected a string, found 97 at (1:1)")
    ("String", "\"\"", "\"\"")
    ("String", "\"a\\\"\\\\\\n\"", "\"a\\\"\\\\\\n\"")
    (
        "String",
        "\"more than thirty bytes, so that it isn't inline\"",
        "\"more than thirty bytes, so that it isn't inline\"",
    )
    ("String", "5", "expected a string, found 5 at (1:1)")
    ("String", "null", "expected a string, found null at (1:1)")
    ("String", "{}", "expected a string, found an empty object at (1:1)")
    ("()", "null", "null")
    ("()", "0", "expected null, found 0 at (1:1)")
    ("()", "[]", "expected null, found an empty array at (1:1)")
    ("Option", "null", "null")
    ("Option", "5", "5")
    ("Option", "\"5\"", "expected an integer of at least 0, found \"5\" at (1:1)")
    ("Option", "300", "expected an integer in the range of its type, found 300 at (1:1)")
    ("Even", "4", "4")
    ("Even", "5", "an odd number at (1:1)")
    ("Even", "256", "expected an integer in the range of its type, found 256 at (1:1)")
    ("bool", "null", "expected true or false, found null at (1:1)")
    ("char", "\"\\n\"", "\"\\n\"")
    ("String", "\"\\ud834\\udd1e\"", "\"\u{1d11e}\"")
    ("Option", "[]", "expected an integer of at least 0, found an empty array at (1:1)")
};

/// Arrays, tuples and sets.
const LISTS: &[Row] = rows! {
    ("Vec", "[]", "[]")
    ("Vec", "[[], [1], [2, 3]]", "[[],[1],[2,3]]")
    ("Vec", "{}", "expected an array, found an empty object at (1:1)")
    ("Vec", "[[1], 2]", "/1: expected an array, found 2 at (1:7)")
    ("Vec", "[[1],\n [2, \"3\"]]", "/1/1: expected an integer of at least 0, found \"3\" at (2:6)")
    ("Vec", "[[1, 256]]", "/0/1: expected an integer in the range of its type, found 256 at (1:6)")
    ("pair", "[1, \"a\"]", "[1,\"a\"]")
    ("pair", "[1]", "expected an array of another length, found an array of 1 element at (1:1)")
    ("pair", "[]", "expected an array of another length, found an empty array at (1:1)")
    ("pair", "[1, \"a\", 2]", "expected an array of 2 elements, found an array of 3 elements at (1:1)")
    ("pair", "[\"a\", 1]", "/0: expected an integer of at least 0, found \"a\" at (1:2)")
    ("pair", "{\"0\": 1, \"1\": \"a\"}", "expected an array, found an object of 2 entries at (1:1)")
    ("array", "[1, 2, 3]", "[1,2,3]")
    ("array", "[1, 2]", "expected an array of another length, found an array of 2 elements at (1:1)")
    ("array", "[1, 2, 3, 4]", "expected an array of another length, found an array of 4 elements at (1:1)")
    ("set", "[3, 1, 3, 2]", "[1,2,3]")
    ("set", "[1, -1]", "/1: expected an integer of at least 0, found -1 at (1:5)")
    ("Wrapped", "[1, 2]", "[1,2]")
    ("Wrapped", "{\"inner\": [1]}", "expected an array, found an object of 1 entry at (1:1)")
    ("Page", "{\"items\": [[1, 2], [3, 4]], \"next\": 2}", "{\"items\":[[1,2],[3,4]],\"next\":2}")
    ("Page", "{\"items\": []}", "{\"items\":[],\"next\":null}")
    ("Page", "{\"items\": [[1]]}", "/items/0: expected an array of another length, found an array of 1 element at (1:12)")
    ("pair", "5", "expected an array, found 5 at (1:1)")
    ("array", "[]", "expected an array of another length, found an empty array at (1:1)")
    ("set", "[]", "[]")
    ("set", "{}", "expected an array, found an empty object at (1:1)")
};

/// Maps, by the type of their keys.
const MAPS: &[Row] = rows! {
    ("map", "{}", "{}")
    ("map", "{\"2\": 20, \"1\": 10}", "{\"1\":10,\"2\":20}")
    ("map", "{\"0\": 5}", "{\"0\":5}")
    ("map", "{\"01\": 5}", "/01: expected an integer of at least 0, found \"01\" at (1:2)")
    ("map", "{\"+1\": 5}", "/+1: expected an integer of at least 0, found \"+1\" at (1:2)")
    ("map", "{\"1.0\": 5}", "/1.0: expected an integer of at least 0, found \"1.0\" at (1:2)")
    ("map", "{\"256\": 5}", "/256: expected an integer in the range of its type, found \"256\" at (1:2)")
    (
        "map",
        "{\"1\": 1, \"99999999999999999999\": 5}",
        "/99999999999999999999: expected an integer in the range of its type, found \"99999999999999999999\" at (1:10)",
    )
    ("map", "{\"-1\": 5}", "/-1: expected an integer of at least 0, found \"-1\" at (1:2)")
    ("map", "{\"99999999999999999999x\": 5}", "/99999999999999999999x: expected an integer of at least 0, found \"99999999999999999999x\" at (1:2)")
    ("evens", "{\"2\": 4}", "{\"2\":4}")
    ("evens", "{\"2\": 4, \"3\": 4}", "/3: an odd number at (1:10)")
    ("evens", "{\"2\": 5}", "/2: an odd number at (1:7)")
    ("evens", "{\"256\": 4}", "/256: expected an integer in the range of its type, found \"256\" at (1:2)")
    ("lists", "{\"a\": 5}", "/a: expected a key of its type, found \"a\" at (1:2)")
    ("map", "{\"1\": 256}", "/1: expected an integer in the range of its type, found 256 at (1:7)")
    ("map", "[]", "expected an object, found an empty array at (1:1)")
    ("map", "{\"1\": 1, \"1\": 2}", "Duplicate key at (1:10)")
    ("names", "{\"b\": 1, \"a\": 2}", "{\"a\":2,\"b\":1}")
    ("names", "{\"a/b~c\": \"1\"}", "/a~1b~0c: expected an integer of at least 0, found \"1\" at (1:11)")
    ("ids", "{\"-5\": true}", "{\"-5\":true}")
    ("ids", "{\"x\": true}", "/x: expected an integer, found \"x\" at (1:2)")
    ("ids", "{\"-0\": true}", "/-0: expected an integer, found \"-0\" at (1:2)")
    ("ids", "{\"2147483648\": true}", "/2147483648: expected an integer in the range of its type, found \"2147483648\" at (1:2)")
    (
        "ids",
        "{\"-9223372036854775809\": true}",
        "/-9223372036854775809: expected an integer in the range of its type, found \"-9223372036854775809\" at (1:2)",
    )
    ("levels", "{\"warn\": 3, \"info\": 2}", "{\"info\":2,\"warn\":3}")
    ("levels", "{\"loud\": 1}", "/loud: expected one of debug, info, warn at (1:2)")
    ("flags", "{\"true\": 5, \"false\": 4}", "{\"false\":4,\"true\":5}")
    ("flags", "{\"yes\": 1}", "/yes: expected true or false, found \"yes\" at (1:2)")
    ("characters", "{\"a\": 1, \"\\u00e9\": 2}", "{\"a\":1,\"é\":2}")
    ("characters", "{\"ab\": 1}", "/ab: expected one character, found \"ab\" at (1:2)")
    ("map", "5", "expected an object, found 5 at (1:1)")
};

/// Structs.
const STRUCTS: &[Row] = rows! {
    ("Nothing", "null", "null")
    ("Nothing", "{}", "expected null, found an empty object at (1:1)")
    ("Meters", "1.5", "1.5")
    ("Meters", "[1.5]", "expected a number, found an array of 1 element at (1:1)")
    ("Point", "[1, -2]", "[1,-2]")
    ("Point", "[1]", "expected an array of another length, found an array of 1 element at (1:1)")
    ("Rgb", "{\"r\": 1, \"g\": 2, \"b\": 3}", "{\"r\":1,\"g\":2,\"b\":3}")
    ("Rgb", "{\"b\": 3, \"g\": 2, \"r\": 1}", "{\"r\":1,\"g\":2,\"b\":3}")
    ("Rgb", "{\"r\": 1, \"g\": 2, \"b\": 3, \"a\": [{}]}", "{\"r\":1,\"g\":2,\"b\":3}")
    ("Rgb", "[1, 2, 3]", "{\"r\":1,\"g\":2,\"b\":3}")
    ("Rgb", "[1, 2]", "the field b is missing at (1:1)")
    ("Rgb", "[1, 2, 3, 4]", "expected an array of 3 elements, found an array of 4 elements at (1:1)")
    ("Rgb", "{\"r\": 1, \"b\": 3}", "/g: missing, expected a value at (1:1)")
    ("Rgb", "{}", "/r: missing, expected a value at (1:1)")
    ("Rgb", "\"red\"", "expected an object, found \"red\" at (1:1)")
    ("Rgb", "{\"r\": 1, \"g\": 256, \"b\": 3}", "/g: expected an integer in the range of its type, found 256 at (1:15)")
    ("Rgb", "{\"r\": 1, \"r\": 2, \"g\": 2, \"b\": 3}", "Duplicate key at (1:10)")
    ("Camel", "{\"firstName\": \"a\", \"portNumber\": 80}", "{\"firstName\":\"a\",\"portNumber\":80}")
    ("Camel", "{\"firstName\": \"a\"}", "/portNumber: missing, expected a value at (1:1)")
    ("Camel", "{\"firstName\": \"a\", \"port_number\": 80}", "/port_number: unknown key at (1:20)")
    ("Camel", "{\"firstName\": \"a\", \"portNumber\": 80, \"x\": 1}", "/x: unknown key at (1:38)")
    ("Camel", "{\"a/b\": 1}", "/a~1b: unknown key at (1:2)")
    ("Mixed", "{\"ID\": 1, \"longName\": 2}", "{\"ID\":1,\"longName\":2,\"color\":null}")
    ("Mixed", "{\"ID\": 1, \"longName\": 2, \"color\": \"red\"}", "{\"ID\":1,\"longName\":2,\"color\":\"red\"}")
    ("Mixed", "{\"ID\": 1, \"longName\": 2, \"colour\": \"red\"}", "{\"ID\":1,\"longName\":2,\"color\":\"red\"}")
    ("Mixed", "{\"ID\": 1, \"colour\": \"red\", \"color\": \"x\"}", "/color: given twice at (1:28)")
    ("Mixed", "{\"ID\": 1}", "the field long_name is missing at (1:1)")
    ("Mixed", "{\"longName\": 1}", "the field ID is missing at (1:1)")
    ("Mixeds", "[{\"ID\": 1, \"longName\": 2}, {\"ID\": 1}]", "/1: the field long_name is missing at (1:28)")
    ("Mixeds", "[{\"ID\": 1, \"longName\": 2}, [1, 2]]", "/1: the field color is missing at (1:28)")
    ("Lists", "[[{\"firstName\": \"a\", \"portNumber\": 80}], [{\"timeout\": 5}]]", "/1/0/max-size: missing, expected a value at (1:43)")
};

/// Structs with more of serde's attributes, and structs in structs.
const ATTRIBUTES: &[Row] = rows! {
    ("Options", "{\"maxPrice\": 1}", "{\"maxPrice\":1,\"tags\":[],\"port\":80}")
    ("Options", "{\"port\": 8080, \"maxPrice\": 1, \"tags\": [\"a\"]}", "{\"maxPrice\":1,\"tags\":[\"a\"],\"port\":8080}")
    ("Options", "{\"max_price\": 1}", "/maxPrice: missing, expected a value at (1:1)")
    ("Options", "{\"tags\": null}", "/tags: expected an array, found null at (1:10)")
    ("Options", "{\"maxPrice\": 1, \"maybe\": 2}", "{\"maxPrice\":1,\"tags\":[],\"port\":80,\"maybe\":2}")
    ("Options", "{\"maxPrice\": 1, \"maybe\": null}", "{\"maxPrice\":1,\"tags\":[],\"port\":80}")
    ("Options", "{\"maxPrice\": 1, \"never\": 5}", "{\"maxPrice\":1,\"tags\":[],\"port\":80}")
    ("Limits", "{\"timeout\": 5, \"max-size\": 1}", "{\"timeout\":5,\"max-size\":1}")
    ("Limits", "{\"timeout\": 5, \"max_size\": 1}", "/max-size: missing, expected a value at (1:1)")
    (
        "Flat",
        "{\"timeout\": 5, \"max-size\": 1, \"name\": \"a\", \"logLevel\": \"info\"}",
        "{\"name\":\"a\",\"logLevel\":\"info\",\"timeout\":5,\"max-size\":1}",
    )
    ("Flat", "{\"name\": \"a\", \"logLevel\": \"info\", \"max-size\": 1}", "/timeout: missing, expected a value at (1:1)")
    ("Flat", "{\"name\": \"a\", \"logLevel\": \"info\", \"timeout\": 5}", "the field max_size is missing at (1:1)")
    ("Flat", "{\"timeout\": 5, \"max-size\": 1, \"logLevel\": \"info\"}", "/name: missing, expected a value at (1:1)")
    ("Flat", "{\"timeout\": 5, \"max-size\": 1, \"name\": \"a\"}", "the field log_level is missing at (1:1)")
    ("Flat", "{\"name\": \"a\", \"timeout\": -5}", "/timeout: expected an integer of at least 0, found -5 at (1:26)")
    ("Style", "{\"text-color\": {\"r\": 1, \"g\": 2, \"b\": 3}}", "the field font_name is missing at (1:1)")
    (
        "Extra",
        "{\"KIND\": \"k\", \"MAX_PRICE\": 19.90, \"DETAILS\": {\"z\": [1.50], \"a\": null}}",
        "{\"KIND\":\"k\",\"MAX_PRICE\":19.90,\"DETAILS\":{\"z\":[1.50],\"a\":null},\"MORE\":null}",
    )
    (
        "Extra",
        "{\"KIND\": \"k\", \"MAX_PRICE\": 1, \"DETAILS\": null, \"MORE\": [1]}",
        "{\"KIND\":\"k\",\"MAX_PRICE\":1,\"DETAILS\":null,\"MORE\":[1]}",
    )
    (
        "Extra",
        "{\"KIND\": \"k\", \"MAX_PRICE\": 1, \"DETAILS\": [], \"MORE\": null}",
        "{\"KIND\":\"k\",\"MAX_PRICE\":1,\"DETAILS\":[],\"MORE\":null}",
    )
    ("Extra", "{\"MAX_PRICE\": \"19.90\"}", "/MAX_PRICE: expected a number, found \"19.90\" at (1:15)")
    ("Extra", "{\"KIND\": \"k\", \"MAX_PRICE\": 1}", "/DETAILS: missing, expected a value at (1:1)")
    ("Extra", "{\"MAX_PRICE\": 5}", "/KIND: missing, expected a value at (1:1)")
    ("Extra", "{\"KIND\": null}", "/KIND: expected a string, found null at (1:10)")
    ("Extra", "null", "expected an object, found null at (1:1)")
    ("Config", "{\"items\": []}", "{\"items\":[],\"next\":null}")
    (
        "Config",
        "{\"items\": [\n  {\"firstName\": \"a\", \"portNumber\": 1},\n  {\"firstName\": \"b\", \"portNumber\": 65536}\n]}",
        "/items/1/portNumber: expected an integer in the range of its type, found 65536 at (3:36)",
    )
    (
        "Config",
        "{\"items\": [\n  {\"firstName\": \"a\", \"portNumber\": 1},\n  {\"firstName\": \"b\", \"prot\": 1}\n]}",
        "/items/1/prot: unknown key at (3:22)",
    )
    (
        "Config",
        "{\"items\": [\n  {\"firstName\": \"a\"}\n]}",
        "/items/0/portNumber: missing, expected a value at (2:3)",
    )
};

/// Enums that name their variant, outside, inside or beside the content.
const ENUMS: &[Row] = rows! {
    ("Level", "\"debug\"", "\"debug\"")
    ("Level", "\"warn\"", "\"warn\"")
    ("Level", "\"Warn\"", "expected one of debug, info, warn at (1:1)")
    ("Level", "\"\"", "expected one of debug, info, warn at (1:1)")
    ("Level", "{\"info\": null}", "\"info\"")
    ("Level", "{\"info\": 1}", "/info: expected null, found 1 at (1:10)")
    ("Level", "{}", "expected an object of 1 entry, found an empty object at (1:1)")
    ("Level", "{\"info\": null, \"x\": 1}", "expected an object of 1 entry, found an object of 2 entries at (1:1)")
    ("Level", "{\"x\": 1, \"info\": null}", "expected an object of 1 entry, found an object of 2 entries at (1:1)")
    ("Level", "5", "expected a string or an object, found 5 at (1:1)")
    ("Level", "[\"info\"]", "expected a string or an object, found an array of 1 element at (1:1)")
    ("Shape", "null", "expected a string or an object, found null at (1:1)")
    ("Check", "\"connect\"", "expected an object, found \"connect\" at (1:1)")
    ("Packet", "[\"C\"]", "expected an object, found an array of 1 element at (1:1)")
    ("Shape", "\"Dot\"", "\"Dot\"")
    ("Shape", "{\"Circle\": 1.25}", "{\"Circle\":1.25}")
    ("Shape", "{\"Circle\": 2}", "{\"Circle\":2.0}")
    ("Shape", "{\"Line\": [1, -2]}", "{\"Line\":[1,-2]}")
    ("Shape", "{\"Box\": {\"h\": 1, \"w\": 2}}", "{\"Box\":{\"w\":2,\"h\":1}}")
    (
        "Shape",
        "{\"Line\": [1], \"Dot\": null, \"Circle\": 1}",
        "expected an object of 1 entry, found an object of 3 entries at (1:1)",
    )
    ("Shape", "{\"Line\": [1]}", "/Line: expected an array of another length, found an array of 1 element at (1:10)")
    ("Shape", "{\"Line\": [1, 2, 3]}", "/Line: expected an array of 2 elements, found an array of 3 elements at (1:10)")
    ("Shape", "{\"Circle\": \"x\"}", "/Circle: expected a number, found \"x\" at (1:12)")
    ("Shape", "{\"Box\": {\"w\": 2}}", "/Box/h: missing, expected a value at (1:9)")
    ("Shape", "\"Line\"", "expected a value of its type, found \"Line\" at (1:1)")
    (
        "Shape",
        "{\"Boxes\": {}}",
        "/Boxes: expected one of Dot, Circle, Line, Box at (1:2)",
    )
    (
        "Shape",
        "\"Square\"",
        "expected one of Dot, Circle, Line, Box at (1:1)",
    )
    ("Check", "{\"type\": \"connect\"}", "{\"type\":\"connect\"}")
    (
        "Check",
        "{\"path\": \"/up\", \"type\": \"get_path\", \"status\": 200}",
        "{\"type\":\"get_path\",\"path\":\"/up\",\"status\":200}",
    )
    ("Check", "{\"type\": \"fly\"}", "/type: expected one of connect, get_path at (1:10)")
    ("Check", "{\"kind\": \"connect\"}", "/type: missing, expected a value at (1:1)")
    ("Check", "{\"type\": 5}", "/type: expected a string, found 5 at (1:10)")
    ("Check", "{\"type\": \"get_path\", \"path\": \"x\"}", "/status: missing, expected a value at (1:1)")
    ("Check", "{\"type\": \"get_path\", \"path\": 5}", "/path: expected a string, found 5 at (1:30)")
    ("Packet", "{\"t\": \"A\", \"c\": 5}", "{\"t\":\"A\",\"c\":5}")
    ("Packet", "{\"c\": 5, \"t\": \"A\"}", "{\"t\":\"A\",\"c\":5}")
    ("Packet", "{\"t\": \"B\", \"c\": {\"x\": true}}", "{\"t\":\"B\",\"c\":{\"x\":true}}")
    ("Packet", "{\"t\": \"C\"}", "{\"t\":\"C\"}")
    ("Packet", "{\"t\": \"D\"}", "/t: expected one of A, B, C at (1:7)")
    ("Packet", "{\"c\": 500, \"t\": \"A\"}", "/c: expected an integer in the range of its type, found 500 at (1:7)")
    ("Packet", "{\"c\": 5}", "/t: missing, expected a value at (1:1)")
    ("Packet", "{\"t\": \"A\"}", "/c: missing, expected a value at (1:1)")
};

/// Enums without a tag, with a variant for other names, and types that contain enums or themselves.
const FORMS: &[Row] = rows! {
    ("Either", "5", "5")
    ("Either", "-5", "-5")
    ("Either", "5.0", "5")
    ("Either", "\"x\"", "\"x\"")
    ("Either", "[]", "[]")
    ("Either", "[1, 2]", "[1,2]")
    ("Either", "{\"name\": \"n\"}", "{\"name\":\"n\"}")
    ("Either", "true", "expected one of the forms of its type, found true at (1:1)")
    ("Either", "[1, 256]", "expected one of the forms of its type, found an array of 2 elements at (1:1)")
    ("Either", "{\"name\": 5}", "expected one of the forms of its type, found an object of 1 entry at (1:1)")
    ("Either", "null", "expected one of the forms of its type, found null at (1:1)")
    ("Kind", "\"Known\"", "\"Known\"")
    ("Kind", "\"New\"", "\"Other\"")
    ("Kinds", "{\"key\": [\"Known\", \"New\"]}", "{\"key\":[\"Known\",\"Other\"]}")
    ("Kinds", "{\"key\":[{\"Known\":null,\"x\":1}]}", "/key/0: expected an object of 1 entry, found an object of 2 entries at (1:9)")
    ("Folder", "{\"size\": 1, \"folders\": []}", "{\"size\":1,\"folders\":[]}")
    (
        "Folder",
        "{\"size\": 1, \"folders\": [{\"size\": 2, \"folders\": [{\"size\": 3, \"folders\": []}]}]}",
        "{\"size\":1,\"folders\":[{\"size\":2,\"folders\":[{\"size\":3,\"folders\":[]}]}]}",
    )
    (
        "Folder",
        "{\"size\": 1, \"folders\": [{\"size\": 2, \"folders\": [{\"size\": \"3\"}]}]}",
        "/folders/0/folders/0/size: expected an integer of at least 0, found \"3\" at (1:58)",
    )
    (
        "Deep",
        "{\"after\": 7, \"list\": [[1, 2], {\"name\": \"n\"}, \"x\", 5], \"status\": 3, \"path\": \"/p\", \"type\": \"get_path\"}",
        "{\"list\":[[1,2],{\"name\":\"n\"},\"x\",5],\"type\":\"get_path\",\"path\":\"/p\",\"status\":3,\"after\":7}",
    )
    ("Deep", "{\"type\": \"connect\", \"list\": [], \"after\": 1}", "{\"list\":[],\"type\":\"connect\",\"after\":1}")
    (
        "Deep",
        "{\"list\": [[1], {\"name\": 5}], \"after\": 7, \"type\": \"connect\"}",
        "/list/1: expected one of the forms of its type, found an object of 1 entry at (1:16)",
    )
    ("Deep", "{\"list\": [[]], \"after\": 7, \"type\": \"get_path\", \"path\": []}", "/path: expected a string, found an empty array at (1:56)")
    ("Deep", "{\"list\": [], \"type\": \"connect\"}", "/after: missing, expected a value at (1:1)")
    ("Deep", "{\"list\": [], \"type\": \"get_path\", \"path\": \"\", \"after\": 1}", "/status: missing, expected a value at (1:1)")
    ("Deep", "{\"list\": [], \"after\": 1}", "/type: missing, expected a value at (1:1)")
};

/// Texts that are no JSON, or that a strict and exact reading rejects.
const REJECTED: &[Row] = rows! {
    ("u8", "", "Unexpected end of JSON at (1:1)")
    ("u8", "01", "Unexpected character: 1 at (1:2)")
    ("u8", "+1", "Unexpected character: + at (1:1)")
    ("u8", "1 2", "Unexpected character: 2 at (1:3)")
    ("u8", "1\u{202e}", "Unexpected character: \\u202e at (1:2)")
    ("Rgb", "{\"r\": 1,", "Unexpected end of JSON at (1:9)")
    ("Rgb", "{\"r\": 1,}", "Unexpected character: } at (1:9)")
    ("Rgb", "{r: 1}", "Unexpected character: r at (1:2)")
    ("Vec", "[[1],]", "Unexpected character: ] at (1:6)")
    ("Vec", "[[1] [2]]", "Unexpected character: [ at (1:6)")
    ("String", "\"a", "Unexpected end of JSON at (1:3)")
    ("String", "'a'", "Unexpected character: ' at (1:1)")
    ("f64", "NaN", "Unexpected character: N at (1:1)")
    ("f64", "Infinity", "Unexpected character: I at (1:1)")
    ("f64", "1.", "Unexpected end of JSON at (1:3)")
    ("bool", "True", "Unexpected character: T at (1:1)")
    ("Exact", "12345678901234567890123", "Number is not exact at (1:21)")
    ("Json", "{\"a\": 1, \"b\": {\"a\": 2, \"a\": 3}}", "Duplicate key at (1:24)")
};

/// Reads each text as its type, and writes it again.
fn expect_again(rt: &impl Tester, rows: &[Row]) -> Tested {
    for (kind, text, want) in rows {
        let found = again(rt.alloc(), *kind, *text)?;
        expect_eq(rt, *text, found.as_str(), *want);
    }
    Ok(())
}

#[test]
fn reads_and_writes_unsigned(rt: HostRuntime) -> Tested {
    expect_again(&rt, UNSIGNED)
}

#[test]
fn reads_and_writes_signed(rt: HostRuntime) -> Tested {
    expect_again(&rt, SIGNED)
}

#[test]
fn reads_and_writes_floats(rt: HostRuntime) -> Tested {
    expect_again(&rt, FLOATS)
}

#[test]
fn reads_and_writes_decimals(rt: HostRuntime) -> Tested {
    expect_again(&rt, DECIMALS)
}

#[test]
fn reads_and_writes_scalars(rt: HostRuntime) -> Tested {
    expect_again(&rt, SCALARS)
}

#[test]
fn reads_and_writes_lists(rt: HostRuntime) -> Tested {
    expect_again(&rt, LISTS)
}

#[test]
fn reads_and_writes_maps(rt: HostRuntime) -> Tested {
    expect_again(&rt, MAPS)
}

#[test]
fn reads_and_writes_structs(rt: HostRuntime) -> Tested {
    expect_again(&rt, STRUCTS)
}

#[test]
fn reads_and_writes_attributes(rt: HostRuntime) -> Tested {
    expect_again(&rt, ATTRIBUTES)
}

#[test]
fn reads_and_writes_enums(rt: HostRuntime) -> Tested {
    expect_again(&rt, ENUMS)
}

#[test]
fn reads_and_writes_forms(rt: HostRuntime) -> Tested {
    expect_again(&rt, FORMS)
}

#[test]
fn rejects_texts(rt: HostRuntime) -> Tested {
    expect_again(&rt, REJECTED)
}
