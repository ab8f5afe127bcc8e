//! Tests of `patch`.

use crate::common::{Tested, Tester, expect, expect_dump, expect_eq, expect_refused};
use Why::{Lost, Undone};
use jzon::JsonValue;
use jzon_pointer::PointerError::{self, Missing, NoSlash, WholeValue};
use jzon_pointer::Primitive;
use jzon_pointer::Reason::{NoChildren, NoMember, NotAnIndex, OutOfRange};
use jzon_pointer::error::{Cause, Error, Member, What};
use jzon_test_support::{RUNS_MAX, Refusals, joined, rows};
use jzon_tools::edit;
use jzon_tools::patch::{self, Limits};
use std::alloc::Global;
use std::test::Fail;

/// A value, a patch, and the value after it. First the examples of RFC 6902, appendix A.
const APPLIED: &[(&str, &str, &str)] = rows! {
    (r#"{"foo":"bar"}"#, r#"[{"op":"add","path":"/baz","value":"qux"}]"#, r#"{"foo":"bar","baz":"qux"}"#)
    (r#"{"foo":["bar","baz"]}"#, r#"[{"op":"add","path":"/foo/1","value":"qux"}]"#, r#"{"foo":["bar","qux","baz"]}"#)
    (r#"{"baz":"qux","foo":"bar"}"#, r#"[{"op":"remove","path":"/baz"}]"#, r#"{"foo":"bar"}"#)
    (r#"{"foo":["bar","qux","baz"]}"#, r#"[{"op":"remove","path":"/foo/1"}]"#, r#"{"foo":["bar","baz"]}"#)
    (r#"{"baz":"qux","foo":"bar"}"#, r#"[{"op":"replace","path":"/baz","value":"boo"}]"#, r#"{"baz":"boo","foo":"bar"}"#)
    (r#"{"foo":{"bar":"baz","waldo":"fred"},"qux":{"corge":"grault"}}"#, r#"[{"op":"move","from":"/foo/waldo","path":"/qux/thud"}]"#, r#"{"foo":{"bar":"baz"},"qux":{"corge":"grault","thud":"fred"}}"#)
    (r#"{"foo":["all","grass","cows","eat"]}"#, r#"[{"op":"move","from":"/foo/1","path":"/foo/3"}]"#, r#"{"foo":["all","cows","eat","grass"]}"#)
    (r#"{"baz":"qux","foo":["a",2,"c"]}"#, r#"[{"op":"test","path":"/baz","value":"qux"},{"op":"test","path":"/foo/1","value":2}]"#, r#"{"baz":"qux","foo":["a",2,"c"]}"#)
    (r#"{"foo":"bar"}"#, r#"[{"op":"add","path":"/child","value":{"grandchild":{}}}]"#, r#"{"foo":"bar","child":{"grandchild":{}}}"#)
    (r#"{"foo":"bar"}"#, r#"[{"op":"add","path":"/baz","value":"qux","xyz":123}]"#, r#"{"foo":"bar","baz":"qux"}"#)
    (r#"{"/":9,"~1":10}"#, r#"[{"op":"test","path":"/~01","value":10}]"#, r#"{"/":9,"~1":10}"#)
    (r#"{"foo":["bar"]}"#, r#"[{"op":"add","path":"/foo/-","value":["abc","def"]}]"#, r#"{"foo":["bar",["abc","def"]]}"#)
    (r#"{"a":1}"#, "[]", r#"{"a":1}"#)
    (r#"{"a":1}"#, r#"[{"op":"add","path":"","value":[2]}]"#, "[2]")
    (r#"{"a":1}"#, r#"[{"op":"replace","path":"","value":[2]}]"#, "[2]")
    (r#"{"a":1}"#, r#"[{"op":"test","path":"","value":{"a":1.0}}]"#, r#"{"a":1}"#)
    (r#"{"a":1,"b":2}"#, r#"[{"op":"test","path":"","value":{"b":2,"a":1}}]"#, r#"{"a":1,"b":2}"#)
    (r#"{"a":null}"#, r#"[{"op":"test","path":"/a","value":null},{"op":"add","path":"/a","value":null}]"#, r#"{"a":null}"#)
    ("[1,2]", r#"[{"op":"add","path":"/2","value":3}]"#, "[1,2,3]")
    (r#"{"a":{"b":1}}"#, r#"[{"op":"copy","from":"/a","path":"/a/c"}]"#, r#"{"a":{"b":1,"c":{"b":1}}}"#)
    (r#"{"a":1,"b":2}"#, r#"[{"op":"move","from":"/a","path":"/a"}]"#, r#"{"a":1,"b":2}"#)
    (r#"{"a":1}"#, r#"[{"op":"move","from":"","path":""}]"#, r#"{"a":1}"#)
    (r#"{"a":{"b":1}}"#, r#"[{"op":"move","from":"/a","path":""}]"#, r#"{"b":1}"#)
    (r#"{"a":{"b":1}}"#, r#"[{"op":"move","from":"/a","path":"/ab"}]"#, r#"{"ab":{"b":1}}"#)
    (r#"{"a":1,"b":2}"#, r#"[{"op":"copy","from":"/a","path":"/b"}]"#, r#"{"a":1,"b":1}"#)
    (r#"{"a":1,"b":2}"#, r#"[{"op":"move","from":"/a","path":"/b"}]"#, r#"{"b":1}"#)
    (r#"{"a/b":{"m~n":1}}"#, r#"[{"op":"replace","path":"/a~1b/m~0n","value":5}]"#, r#"{"a/b":{"m~n":5}}"#)
};

#[test]
fn applies(rt: HostRuntime) -> Tested {
    for (before, text, after) in APPLIED {
        let mut value = jzon::parse(rt.alloc(), before)?;
        let patch = jzon::parse(rt.alloc(), text)?;
        expect(
            &rt,
            text,
            patch::apply(rt.alloc(), &mut value, &patch).is_ok(),
        );
        expect_dump(&rt, &value, after);
    }
    Ok(())
}

/// Why a patch isn't applied: a fault of an operation, or a pointer that leads nowhere.
#[derive(Clone, Copy)]
enum Why {
    Undone(Cause),
    Lost(Member, PointerError),
}

/// The error says this.
fn expect_why(rt: &impl Tester, row: &str, error: &Error, number: Option<usize>, why: Why) {
    let (what, member) = match why {
        Undone(cause) => (What::Operation(cause), None),
        Lost(member, lost) => (What::Pointer(lost), Some(member)),
    };
    expect(rt, row, error.what() == Some(&what));
    expect_eq(rt, row, error.operation(), number);
    expect(rt, row, error.member() == member);
}

/// A value, a patch that isn't applied to it, and why. First the examples of RFC 6902, appendix A.
const REFUSED: &[(&str, &str, Option<usize>, Why)] = rows! {
    (r#"{"baz":"qux"}"#, r#"[{"op":"test","path":"/baz","value":"bar"}]"#, Some(0), Undone(Cause::TestFailed))
    (r#"{"foo":"bar"}"#, r#"[{"op":"add","path":"/baz/bat","value":"qux"}]"#, Some(0), Lost(Member::Path, Missing { start: 1, end: 4, reason: NoMember }))
    (r#"{"/":9,"~1":10}"#, r#"[{"op":"test","path":"/~01","value":"10"}]"#, Some(0), Undone(Cause::TestFailed))
    (r#"{"a":1}"#, "{}", None, Undone(Cause::NotAnArray))
    (r#"{"a":1}"#, "5", None, Undone(Cause::NotAnArray))
    (r#"{"a":1}"#, "[5]", Some(0), Undone(Cause::NotAnObject))
    (r#"{"a":1}"#, "[{}]", Some(0), Undone(Cause::Missing(Member::Op)))
    (r#"{"a":1}"#, r#"[{"op":"add"}]"#, Some(0), Undone(Cause::Missing(Member::Path)))
    (r#"{"a":1}"#, r#"[{"op":"add","path":"/b"}]"#, Some(0), Undone(Cause::Missing(Member::Value)))
    (r#"{"a":1}"#, r#"[{"op":"spam","path":"/a"}]"#, Some(0), Undone(Cause::UnknownOp))
    (r#"{"a":1}"#, r#"[{"op":1,"path":"/a"}]"#, Some(0), Undone(Cause::NotAString(Member::Op)))
    (r#"{"a":1}"#, r#"[{"op":"add","path":5,"value":1}]"#, Some(0), Undone(Cause::NotAString(Member::Path)))
    (r#"{"a":1}"#, r#"[{"op":"move","path":"/a"}]"#, Some(0), Undone(Cause::Missing(Member::From)))
    (r#"{"a":1}"#, r#"[{"op":"copy","from":5,"path":"/a"}]"#, Some(0), Undone(Cause::NotAString(Member::From)))
    (r#"{"a":1}"#, r#"[{"op":"add","path":"a","value":2}]"#, Some(0), Lost(Member::Path, NoSlash))
    (r#"{"a":1}"#, r#"[{"op":"remove","path":""}]"#, Some(0), Lost(Member::Path, WholeValue))
    ("{}", r#"[{"op":"test","path":"/a","value":null}]"#, Some(0), Lost(Member::Path, Missing { start: 1, end: 2, reason: NoMember }))
    ("{}", r#"[{"op":"replace","path":"/a","value":null}]"#, Some(0), Lost(Member::Path, Missing { start: 1, end: 2, reason: NoMember }))
    ("[1,2]", r#"[{"op":"add","path":"/3","value":0}]"#, Some(0), Lost(Member::Path, Missing { start: 1, end: 2, reason: OutOfRange { length: 2 } }))
    ("[1,2]", r#"[{"op":"add","path":"/-1","value":0}]"#, Some(0), Lost(Member::Path, Missing { start: 1, end: 3, reason: NotAnIndex }))
    ("[1,2]", r#"[{"op":"add","path":"/01","value":0}]"#, Some(0), Lost(Member::Path, Missing { start: 1, end: 3, reason: NotAnIndex }))
    ("[1,2]", r#"[{"op":"add","path":"/1e0","value":0}]"#, Some(0), Lost(Member::Path, Missing { start: 1, end: 4, reason: NotAnIndex }))
    ("[1,2]", r#"[{"op":"add","path":"/+1","value":0}]"#, Some(0), Lost(Member::Path, Missing { start: 1, end: 3, reason: NotAnIndex }))
    ("[1,2]", r#"[{"op":"add","path":"/","value":0}]"#, Some(0), Lost(Member::Path, Missing { start: 1, end: 1, reason: NotAnIndex }))
    ("[1,2]", r#"[{"op":"add","path":"/a","value":0}]"#, Some(0), Lost(Member::Path, Missing { start: 1, end: 2, reason: NotAnIndex }))
    ("[1,2]", r#"[{"op":"add","path":"/0/a","value":0}]"#, Some(0), Lost(Member::Path, Missing { start: 3, end: 4, reason: NoChildren(Primitive::Number) }))
    ("[1,2]", r#"[{"op":"remove","path":"/-"}]"#, Some(0), Lost(Member::Path, Missing { start: 1, end: 2, reason: NotAnIndex }))
    ("[1,2]", r#"[{"op":"remove","path":"/2"}]"#, Some(0), Lost(Member::Path, Missing { start: 1, end: 2, reason: OutOfRange { length: 2 } }))
    ("[1,2]", r#"[{"op":"replace","path":"/-","value":0}]"#, Some(0), Lost(Member::Path, Missing { start: 1, end: 2, reason: NotAnIndex }))
    ("[1,2]", r#"[{"op":"replace","path":"/2","value":0}]"#, Some(0), Lost(Member::Path, Missing { start: 1, end: 2, reason: OutOfRange { length: 2 } }))
    (r#"{"a":{"b":1}}"#, r#"[{"op":"move","from":"/a","path":"/a/b"}]"#, Some(0), Undone(Cause::IntoItself))
    (r#"{"a":{"b":1}}"#, r#"[{"op":"move","from":"","path":"/a"}]"#, Some(0), Undone(Cause::IntoItself))
    (r#"{"a":1}"#, r#"[{"op":"move","from":"/b","path":"/b"}]"#, Some(0), Lost(Member::From, Missing { start: 1, end: 2, reason: NoMember }))
    (r#"{"a":1}"#, r#"[{"op":"copy","from":"/b","path":"/a"}]"#, Some(0), Lost(Member::From, Missing { start: 1, end: 2, reason: NoMember }))
    (r#"{"a":1,"b":2}"#, r#"[{"op":"move","from":"/a","path":"/c/d"}]"#, Some(0), Lost(Member::Path, Missing { start: 1, end: 2, reason: NoMember }))
    (r#"{"a":1,"b":[1]}"#, r#"[{"op":"remove","path":"/a"},{"op":"add","path":"/b/0","value":0},{"op":"test","path":"/b/0","value":9}]"#, Some(2), Undone(Cause::TestFailed))
};

#[test]
fn changes_nothing_after_an_error(rt: HostRuntime) -> Tested {
    for (before, text, number, why) in REFUSED {
        let mut value = jzon::parse(rt.alloc(), before)?;
        let patch = jzon::parse(rt.alloc(), text)?;
        match patch::apply(rt.alloc(), &mut value, &patch) {
            Ok(()) => expect(&rt, text, false),
            Err(error) => expect_why(&rt, text, &error, *number, *why),
        }
        expect_dump(&rt, &value, before);
    }
    Ok(())
}

/// Appendix A.13: a member twice. The strict reading of the text refuses it.
#[test]
fn refuses_a_member_twice(rt: HostRuntime) {
    let text = r#"[{"op":"add","path":"/baz","value":"qux","op":"remove"}]"#;
    expect(
        &rt,
        text,
        jzon::parse_as(rt.alloc(), text, &jzon::Reading::STRICT).is_err(),
    );
}

/// A value, a patch, a depth, a weight of copies and of moves to a deeper place, and the result within
/// these limits and after a limit of one less. What is added isn't counted.
const LIMITED: &[(&str, &str, usize, usize, Option<Cause>)] = rows! {
    ("[]", r#"[{"op":"add","path":"/-","value":[[1]]}]"#, 3, 0, None)
    ("[]", r#"[{"op":"add","path":"/-","value":[[1]]}]"#, 2, 0, Some(Cause::TooDeep))
    ("[]", r#"[{"op":"add","path":"","value":[{"a":[]}]}]"#, 2, 0, None)
    ("[]", r#"[{"op":"add","path":"","value":[{"a":[]}]}]"#, 1, 0, Some(Cause::TooDeep))
    (r#"{"a":{}}"#, r#"[{"op":"replace","path":"/a","value":[1]}]"#, 2, 0, None)
    (r#"{"a":{}}"#, r#"[{"op":"replace","path":"/a","value":[1]}]"#, 1, 0, Some(Cause::TooDeep))
    (r#"{"a":[1],"b":{}}"#, r#"[{"op":"move","from":"/a","path":"/b/c"}]"#, 3, 96, None)
    (r#"{"a":[1],"b":{}}"#, r#"[{"op":"move","from":"/a","path":"/b/c"}]"#, 2, 96, Some(Cause::TooDeep))
    (r#"{"a":[1],"b":{}}"#, r#"[{"op":"move","from":"/a","path":"/b/c"}]"#, 3, 95, Some(Cause::TooLarge))
    (r#"{"a":"xy","b":{}}"#, r#"[{"op":"move","from":"/a","path":"/b/c"},{"op":"move","from":"/b/c","path":"/a"},{"op":"move","from":"/a","path":"/b/c"}]"#, 9, 100, None)
    (r#"{"a":[1]}"#, r#"[{"op":"move","from":"/a","path":"/b"}]"#, 0, 0, None)
    (r#"{"a":{"b":[1]}}"#, r#"[{"op":"move","from":"/a/b","path":"/b"}]"#, 0, 0, None)
    (r#"{"a":{"b":[1]}}"#, r#"[{"op":"move","from":"/a/b","path":""}]"#, 0, 0, None)
    (r#"{"a":[1]}"#, r#"[{"op":"copy","from":"","path":"/b"}]"#, 3, 145, None)
    (r#"{"a":[1]}"#, r#"[{"op":"copy","from":"","path":"/b"}]"#, 2, 145, Some(Cause::TooDeep))
    (r#"{"a":[1]}"#, r#"[{"op":"copy","from":"","path":"/b"}]"#, 3, 144, Some(Cause::TooLarge))
    (r#"{"a":"xy"}"#, r#"[{"op":"copy","from":"/a","path":"/b"}]"#, 9, 50, None)
    (r#"{"a":"xy"}"#, r#"[{"op":"copy","from":"/a","path":"/b"}]"#, 9, 49, Some(Cause::TooLarge))
    ("[[[[1]]]]", r#"[{"op":"test","path":"/0","value":[[[1]]]},{"op":"remove","path":"/0/0"}]"#, 0, 0, None)
};

#[test]
fn applies_within_limits(rt: HostRuntime) -> Tested {
    for (before, text, depth, weight, cause) in LIMITED {
        let mut value = jzon::parse(rt.alloc(), before)?;
        let patch = jzon::parse(rt.alloc(), text)?;
        let limits = Limits {
            depth: *depth,
            copied: *weight,
            moved: *weight,
            ..Limits::USUAL
        };
        let outcome = patch::apply_within(rt.alloc(), &mut value, &patch, &limits);
        expect_eq(&rt, text, outcome.is_ok(), cause.is_none());
        if let (Err(error), Some(cause)) = (outcome, cause) {
            expect_why(&rt, text, &error, Some(0), Undone(*cause));
            expect_dump(&rt, &value, before);
        }
    }
    Ok(())
}

/// A value, a patch, how many elements and entries it shifts, and the operation that shifts the last.
const SHIFTED: &[(&str, &str, usize, usize)] = rows! {
    ("[1,2,3]", r#"[{"op":"add","path":"/0","value":0}]"#, 3, 0)
    ("[1,2,3]", r#"[{"op":"add","path":"/1","value":0}]"#, 2, 0)
    ("[1,2,3]", r#"[{"op":"add","path":"/3","value":0},{"op":"add","path":"/-","value":0}]"#, 0, 0)
    ("[1,2,3]", r#"[{"op":"add","path":"","value":[]}]"#, 0, 0)
    ("[1,2,3]", r#"[{"op":"replace","path":"/0","value":0},{"op":"test","path":"/0","value":0}]"#, 0, 0)
    ("[1,2,3]", r#"[{"op":"remove","path":"/0"}]"#, 2, 0)
    ("[1,2,3]", r#"[{"op":"remove","path":"/2"}]"#, 0, 0)
    ("[[1,2,3],4]", r#"[{"op":"remove","path":"/0/1"}]"#, 1, 0)
    (r#"{"a":1,"b":2,"c":3}"#, r#"[{"op":"remove","path":"/c"}]"#, 3, 0)
    (r#"{"a":1,"b":2,"c":3}"#, r#"[{"op":"add","path":"/d","value":0},{"op":"add","path":"/a","value":0}]"#, 0, 0)
    ("[1,2,3]", r#"[{"op":"copy","from":"/2","path":"/1"}]"#, 2, 0)
    ("[1,2,3]", r#"[{"op":"copy","from":"/0","path":"/-"}]"#, 0, 0)
    ("[1,2,3]", r#"[{"op":"move","from":"/0","path":"/1"}]"#, 3, 0)
    ("[1,2,3]", r#"[{"op":"move","from":"/0","path":"/-"}]"#, 2, 0)
    ("[1,2,3]", r#"[{"op":"move","from":"/0","path":"/0"}]"#, 0, 0)
    (r#"{"a":1,"b":[2,3]}"#, r#"[{"op":"move","from":"/a","path":"/b/0"}]"#, 4, 0)
    (r#"{"a":[1,2],"b":3}"#, r#"[{"op":"move","from":"/a/0","path":"/b"}]"#, 1, 0)
    ("[1,2,3]", r#"[{"op":"add","path":"/0","value":0},{"op":"remove","path":"/0"},{"op":"test","path":"/0","value":1}]"#, 6, 1)
};

#[test]
fn counts_what_is_shifted(rt: HostRuntime) -> Tested {
    for (before, text, shifted, last) in SHIFTED {
        let mut value = jzon::parse(rt.alloc(), before)?;
        let patch = jzon::parse(rt.alloc(), text)?;
        let mut limits = Limits {
            shifted: *shifted,
            ..Limits::USUAL
        };
        let outcome = patch::apply_within(rt.alloc(), &mut value, &patch, &limits);
        expect(&rt, text, outcome.is_ok());
        let Some(less) = shifted.checked_sub(1) else {
            continue;
        };
        limits.shifted = less;
        let mut value = jzon::parse(rt.alloc(), before)?;
        match patch::apply_within(rt.alloc(), &mut value, &patch, &limits) {
            Ok(()) => expect(&rt, text, false),
            Err(error) => expect_why(&rt, text, &error, Some(*last), Undone(Cause::TooLarge)),
        }
        expect_dump(&rt, &value, before);
    }
    Ok(())
}

/// Each removal shifts all elements behind. The first 134 shift 66,990,955, and one more would pass 2^26.
#[test]
fn stops_removals_at_the_front(rt: HostRuntime) -> Tested {
    let alloc = rt.alloc();
    let remove = r#"{"op":"remove","path":"/0"}"#;
    let text = joined(alloc, &[("[0", 1), (",0", 499_999), ("]", 1)])?;
    let removals = joined(
        alloc,
        &[
            ("[", 1),
            (remove, 1),
            (r#",{"op":"remove","path":"/0"}"#, 35_999),
            ("]", 1),
        ],
    )?;
    let mut value = jzon::parse(alloc, text.as_str())?;
    let patch = jzon::parse(alloc, removals.as_str())?;
    match patch::apply(alloc, &mut value, &patch) {
        Ok(()) => expect(&rt, remove, false),
        Err(error) => expect_why(&rt, remove, &error, Some(134), Undone(Cause::TooLarge)),
    }
    expect_eq(&rt, remove, value.len(), 500_000);
    expect_eq(&rt, remove, Limits::USUAL.shifted, 67_108_864);
    Ok(())
}

/// Each copy doubles the value. The one that would pass the limit is refused, and so are all.
#[test]
fn stops_copies(rt: HostRuntime) -> Tested {
    let alloc = rt.alloc();
    let copy = r#"{"op":"copy","from":"","path":"/-"},"#;
    let text = joined(
        alloc,
        &[("[", 1), (copy, 40), (r#"{"op":"remove","path":"/0"}]"#, 1)],
    )?;
    let patch = jzon::parse(alloc, text.as_str())?;
    let mut value = jzon::parse(alloc, "[1]")?;
    let limits = Limits {
        copied: 65_536,
        ..Limits::USUAL
    };
    match patch::apply_within(alloc, &mut value, &patch, &limits) {
        Ok(()) => expect(&rt, copy, false),
        Err(error) => expect_why(&rt, copy, &error, Some(9), Undone(Cause::TooLarge)),
    }
    expect_dump(&rt, &value, "[1]");
    expect_eq(&rt, copy, Limits::USUAL.copied, 16_777_216);
    expect_eq(&rt, copy, Limits::USUAL.moved, 67_108_864);
    Ok(())
}

/// Each copy to the deepest place doubles the depth. None passes what `parse` reads.
#[test]
fn stops_at_the_depth_that_is_read(rt: HostRuntime) -> Tested {
    let alloc = rt.alloc();
    let path = joined(alloc, &[("/0", 255), ("/-", 1)])?;
    let path = path.as_str();
    let first = format!(in alloc; r#"{{"op":"copy","from":"","path":"{path}"}}"#)?;
    let first = first.as_str();
    let text = format!(in alloc; "[{first},{first}]")?;
    let mut value = jzon::parse(alloc, joined(alloc, &[("[", 256), ("]", 256)])?.as_str())?;
    let patch = jzon::parse(alloc, text.as_str())?;
    match patch::apply(alloc, &mut value, &patch) {
        Ok(()) => expect(&rt, "doubled", false),
        Err(error) => expect_why(&rt, "doubled", &error, Some(1), Undone(Cause::TooDeep)),
    }
    let once = format!(in alloc; "[{first}]")?;
    let patch = jzon::parse(alloc, once.as_str())?;
    let outcome = patch::apply(alloc, &mut value, &patch);
    expect(&rt, "once", outcome.is_ok());
    expect(&rt, "once", jzon::Reading::USUAL.admits(&value));
    Ok(())
}

/// A value, a patch, and the words of the error within a depth of 2, a weight of 100, and 5 elements and
/// entries that are shifted.
const WORDS: &[(&str, &str, &str)] = rows! {
    ("{}", "5", "the patch isn't an array")
    ("{}", r#"[{"op":"test","path":"","value":{}},5]"#, "operation 1: not an object")
    ("{}", "[{}]", "operation 0: `op` is missing")
    ("{}", r#"[{"op":"add","path":"/b"}]"#, "operation 0: /b: `value` is missing")
    ("{}", r#"[{"op":"add","path":5}]"#, "operation 0: `path` isn't a string")
    ("{}", r#"[{"op":"spam","path":"/a"}]"#, "operation 0: /a: unknown `op`")
    ("[1]", r#"[{"op":"test","path":"/0","value":1},{"op":"test","path":"/0","value":9}]"#, "operation 1: /0: test failed")
    (r#"{"a\nb\u001b":1}"#, r#"[{"op":"test","path":"/a\nb\u001b","value":2}]"#, "operation 0: /a\\nb\\u001b: test failed")
    (r#"{"a":{}}"#, r#"[{"op":"move","from":"/a","path":"/a/b"}]"#, "operation 0: /a/b: moved into itself")
    ("[1]", r#"[{"op":"add","path":"/-","value":[[1]]}]"#, "operation 0: /-: nested too deep")
    ("[[1]]", r#"[{"op":"copy","from":"/0","path":"/-"},{"op":"copy","from":"/0","path":"/1"}]"#, "operation 1: /1: copies or moves too much")
    (r#"{"a":"xyz","b":{}}"#, r#"[{"op":"move","from":"/a","path":"/b/c"},{"op":"move","from":"/b/c","path":"/a"},{"op":"move","from":"/a","path":"/b/c"}]"#, "operation 2: /b/c: copies or moves too much")
    ("[1,2,3,4,5,6,7]", r#"[{"op":"remove","path":"/0"}]"#, "operation 0: /0: copies or moves too much")
    ("{}", r#"[{"op":"copy","from":"x","path":"/b"}]"#, "operation 0: `from`: x: a pointer begins with /")
    ("{}", r#"[{"op":"copy","from":"/x","path":"/b"}]"#, "operation 0: `from`: /x: the whole value has no key \"x\"")
    (r#"{"x":5}"#, r#"[{"op":"copy","from":"/x","path":"/b"},{"op":"test","path":"/b/0","value":9}]"#, "operation 1: `path`: /b/0: /b is a number and has no members")
    ("1", r#"[{"op":"remove","path":""}]"#, "operation 0: `path`: the pointer names the whole value")
};

#[test]
fn shows_errors(rt: HostRuntime) -> Tested {
    let limits = Limits {
        depth: 2,
        copied: 100,
        moved: 100,
        shifted: 5,
    };
    for (before, text, words) in WORDS {
        let mut value = jzon::parse(rt.alloc(), before)?;
        let patch = jzon::parse(rt.alloc(), text)?;
        let outcome = patch::apply_within(rt.alloc(), &mut value, &patch, &limits);
        expect_refused(&rt, words, outcome, words)?;
    }
    Ok(())
}

/// A value, a patch that changes it, and the number of allocations. A move, or two changes, clone
/// the value once.
const ALLOCATING: &[(&str, &str, usize)] = rows! {
    ("[1]", r#"[{"op":"add","path":"/-","value":[2]}]"#, 2)
    ("[[1]]", r#"[{"op":"copy","from":"/0","path":"/0"}]"#, 2)
    ("[[1],2]", r#"[{"op":"move","from":"/0","path":"/1"}]"#, 2)
    ("[[1],2]", r#"[{"op":"remove","path":"/0"},{"op":"remove","path":"/0"}]"#, 2)
};

/// A value, and a patch that changes it. Tests, and one change after them, clone nothing of the value.
const WITHOUT_ALLOCATION: &[(&str, &str)] = rows! {
    (r#"{"a":[1]}"#, r#"[{"op":"test","path":"/a","value":[1]},{"op":"remove","path":"/a"}]"#)
    (r#"{"a":[1]}"#, r#"[{"op":"replace","path":"/a","value":2}]"#)
};

/// One run. Whether an allocation failed: then the value is as it was.
fn run(
    rt: &impl Tester,
    before: &JsonValue,
    text: &str,
    patch: &JsonValue,
    refusals: &mut Refusals,
) -> std::result::Result<bool, Fail> {
    let mut value = before.clone(rt.alloc())?;
    refusals.begin();
    let outcome = patch::apply(rt.alloc(), &mut value, patch);
    let has_failed = refusals.has_failed();
    if has_failed {
        expect(rt, text, outcome == Err(Error::MEMORY));
        expect(rt, text, value == *before);
    } else {
        expect(rt, text, outcome.is_ok());
        expect(rt, text, value != *before);
    }
    Ok(has_failed)
}

#[test]
fn applies_under_refusals(rt: HostRuntime) -> Tested {
    for (before, text, count) in ALLOCATING {
        let before = jzon::parse(rt.alloc(), before)?;
        let patch = jzon::parse(rt.alloc(), text)?;
        let mut refusals = Refusals::new(rt.alloc());
        for _ in 0..RUNS_MAX {
            refusals.open();
            let has_failed = run(&rt, &before, text, &patch, &mut refusals)?;
            refusals.close();
            if !has_failed {
                break;
            }
        }
        refusals.report(&rt, text, *count)?;
    }
    Ok(())
}

#[test]
fn applies_counted(rt: HostRuntime) -> Tested {
    for (before, text) in WITHOUT_ALLOCATION {
        let before = jzon::parse(rt.alloc(), before)?;
        let patch = jzon::parse(rt.alloc(), text)?;
        let mut value = before.clone(rt.alloc())?;
        let mut refusals = Refusals::new(rt.alloc());
        refusals.open();
        let outcome = patch::apply(rt.alloc(), &mut value, &patch);
        refusals.expect_within(&rt, text, 0)?;
        expect(&rt, text, outcome.is_ok());
        expect(&rt, text, value != before);
    }
    Ok(())
}

/// An old value, a new one, and the operations that turn one into the other.
const DIFFS: &[(&str, &str, &str)] = rows! {
    ("1", "1.0", "[]")
    ("1", "2", r#"[{"op":"replace","path":"","value":2}]"#)
    (r#"{"a":1,"b":2}"#, r#"{"b":2.0,"a":1}"#, "[]")
    (r#"{"a":1,"b":2}"#, r#"{"b":3,"c":4}"#, r#"[{"op":"remove","path":"/a"},{"op":"replace","path":"/b","value":3},{"op":"add","path":"/c","value":4}]"#)
    (r#"{"a/~b":{"":{"x":1}}}"#, r#"{"a/~b":{"":{"x":2}}}"#, r#"[{"op":"replace","path":"/a~1~0b//x","value":2}]"#)
    (r#"{"a":{}}"#, r#"{"a":[]}"#, r#"[{"op":"replace","path":"/a","value":[]}]"#)
    (r#"{"a":[1,2]}"#, r#"{"a":[1,3]}"#, r#"[{"op":"replace","path":"/a/1","value":3}]"#)
    ("[1,2,3,4]", "[1,5,4]", r#"[{"op":"replace","path":"/1","value":5},{"op":"remove","path":"/2"}]"#)
    ("[1,2,9]", "[1,3,4,5,9]", r#"[{"op":"replace","path":"/1","value":3},{"op":"add","path":"/2","value":4},{"op":"add","path":"/3","value":5}]"#)
    ("[1,1]", "[1,1,1]", r#"[{"op":"add","path":"/2","value":1}]"#)
    ("[1,2,3]", "[]", r#"[{"op":"remove","path":"/0"},{"op":"remove","path":"/0"},{"op":"remove","path":"/0"}]"#)
    (r#"[[1,{"a":[[2],3]}]]"#, r#"[[1.0,{"a":[[4],3]}]]"#, r#"[{"op":"replace","path":"/0/1/a/0/0","value":4}]"#)
    (r#"{"a":{"b":1}}"#, r#"{}"#, r#"[{"op":"remove","path":"/a"}]"#)
    (r#"{}"#, r#"{"a":{"b":1}}"#, r#"[{"op":"add","path":"/a","value":{"b":1}}]"#)
    (r#"{"a":null}"#, r#"{"a":{"b":null}}"#, r#"[{"op":"replace","path":"/a","value":{"b":null}}]"#)
    (r#"{"a":1,"b":{"x":1}}"#, r#"{"b":{"x":2},"a":1}"#, r#"[{"op":"replace","path":"/b/x","value":2}]"#)
    (r#"{"a":[{"x":1},2],"b":0,"c":0,"d":0,"e":0,"f":0,"g":0,"h":0,"i":0,"j":0,"k":0,"l":0,"m":0,"n":0,"o":0,"p":0,"q":0}"#, r#"{"a":[{"x":3},2],"b":0,"c":0,"d":0,"e":0,"f":0,"g":0,"h":0,"i":0,"j":0,"k":0,"l":0,"m":0,"n":0,"o":0,"p":0,"q":0}"#, r#"[{"op":"replace","path":"/a/0/x","value":3}]"#)
    (r#"{"a":{"x":1},"b":0,"c":0,"d":0,"e":0,"f":0,"g":0,"h":0,"i":0,"j":0,"k":0,"l":0,"m":0,"n":0,"o":0,"p":0,"q":0}"#, r#"{"r":0,"b":0,"c":0,"d":0,"e":0,"f":0,"g":0,"h":0,"i":0,"j":0,"k":0,"l":0,"m":0,"n":0,"o":0,"p":0,"q":0,"a":{"x":1.0}}"#, r#"[{"op":"add","path":"/r","value":0}]"#)
};

#[test]
fn turns_one_value_into_another(rt: HostRuntime) -> Tested {
    for (old, new, operations) in DIFFS {
        let mut value = jzon::parse(rt.alloc(), old)?;
        let wanted = jzon::parse(rt.alloc(), new)?;
        let patch = patch::diff(rt.alloc(), &value, &wanted)?;
        expect_dump(&rt, &patch, operations);
        expect(
            &rt,
            old,
            patch::apply(rt.alloc(), &mut value, &patch).is_ok(),
        );
        expect(&rt, old, value == wanted);
    }
    Ok(())
}

/// Below a path of 512 bytes a value is changed, at a longer one it is replaced.
#[test]
fn replaces_at_long_paths(rt: HostRuntime) -> Tested {
    for (length, changed) in LONG {
        let key = "k".repeat(rt.alloc(), *length)?;
        let path = format!(in rt.alloc(); "/{key}{changed}")?;
        let mut old = JsonValue::new_object(rt.alloc());
        let mut new = JsonValue::new_object(rt.alloc());
        old.insert(
            rt.alloc(),
            key.as_str(),
            jzon::parse(rt.alloc(), r#"{"a":1,"b":2}"#)?,
        )?;
        new.insert(
            rt.alloc(),
            key.as_str(),
            jzon::parse(rt.alloc(), r#"{"a":1,"b":3}"#)?,
        )?;
        let patch = patch::diff(rt.alloc(), &old, &new)?;
        expect(&rt, changed, patch.len() == 1);
        expect(
            &rt,
            changed,
            patch.at_index(0).at("path").eq_str(path.as_str()),
        );
    }
    Ok(())
}

/// The length of a key, and what is changed below its path.
const LONG: &[(usize, &str)] = rows! {
    (511, "/b")
    (512, "")
};

/// Where to apply its removals or insertions would move more than 2^24 elements or entries, an array or
/// an object is replaced as a whole.
#[test]
fn replaces_where_much_would_move(rt: HostRuntime) -> Tested {
    for (name, has_keys, before, after, operations) in MOVED {
        let mut value = numbers(rt.alloc(), *has_keys, *before)?;
        let wanted = numbers(rt.alloc(), *has_keys, *after)?;
        let patch = patch::diff(rt.alloc(), &value, &wanted)?;
        expect_eq(&rt, name, &patch.len(), operations);
        expect(
            &rt,
            name,
            patch::apply(rt.alloc(), &mut value, &patch).is_ok(),
        );
        expect(&rt, name, value == wanted);
    }
    Ok(())
}

/// An array, or an object, of the numbers from one to before another.
fn numbers(alloc: Global, has_keys: bool, range: (usize, usize)) -> jzon::Result<JsonValue> {
    let mut value = if has_keys {
        JsonValue::new_object(alloc)
    } else {
        JsonValue::new_array(alloc)
    };
    for number in range.0..range.1 {
        if has_keys {
            value.insert(alloc, format!(in alloc; "{number}")?.as_str(), number)?;
        } else {
            value.push(alloc, number)?;
        }
    }
    Ok(value)
}

/// What is tried, whether it is of objects, the numbers before and after, and how many operations there are.
const MOVED: &[(&str, bool, (usize, usize), (usize, usize), usize)] = rows! {
    ("4095 of 4097 elements removed", false, (0, 4097), (4095, 4097), 4095)
    ("4096 of 4097 elements removed", false, (0, 4097), (4096, 4097), 1)
    ("4096 elements inserted before 4096", false, (4096, 8192), (0, 8192), 4096)
    ("4097 elements inserted before 4096", false, (4097, 8193), (0, 8193), 1)
    ("9000 elements appended to 2000", false, (0, 2000), (0, 11000), 9000)
    ("4095 of 4097 entries removed", true, (0, 4097), (4095, 4097), 4095)
    ("4096 of 4097 entries removed", true, (0, 4097), (4096, 4097), 1)
};

/// The containers around a new value count, and an empty container doesn't.
#[test]
fn counts_the_containers_around(rt: HostRuntime) -> Tested {
    let new = jzon::parse(rt.alloc(), "[[1],{}]")?;
    for (path, depth, fits) in ROOM {
        expect(&rt, path, edit::nests_within(path, &new, *depth) == *fits);
    }
    Ok(())
}

/// A pointer, a depth, and whether `[[1],{}]` is within it there.
const ROOM: &[(&str, usize, bool)] = rows! {
    ("", 2, true)
    ("", 1, false)
    ("/a/-", 4, true)
    ("/a/-", 3, false)
};
