//! A user's own layouts, and all calls that print in a layout.

ghost use Rattle.std.specs.Prelude.{◌≡◌, length, IfOk};
ghost use Rattle.jzon.specs.PairList.{keys_of};
ghost use Rattle.jzon.specs.Entries.{entries_of};
ghost use Rattle.jzon.specs.Generator.{insertion};
ghost use Rattle.jzon.specs.StyleLaws.{IsStyle-any};
ghost use Rattle.jzon.specs.Writing.{any_style, IsOrder};

use crate::common::{Tested, Tester, expect, expect_bytes, expect_eq, expect_trouble, is_text};
use jzon::codegen::{Generator, Layout, TextGenerator, write_json, write_object};
use jzon::object::Object;
use jzon::{Error, JsonValue, parse};
use jzon_test_support::{
    RUNS_MAX, Refusals, SlowWriter, Trouble, joined, keys_by_hash, keys_of_one_hash, object_text,
};
use std::alloc::{AllocError, Global};
use std::cell::Cell;
use std::io;
use std::io::ErrorKind;
use std::process::Abort;

fn key_at(object: &Object, position: usize) -> Option<&str> {
    object.get_index(position).map(|pair| pair.0)
}

fn insertion_order(alloc: Global, count: usize) -> Result<Vec<usize>, AllocError>
    ensures { IfOk result (λ positions. positions.items ≡ insertion count) }
{
    let mut positions = Vec::new(alloc);
    for position in 0..count {
        positions.push(position)?;
    }
    Ok(positions)
}

/// The entries in the order of their keys.
fn sorted_order(alloc: Global, object: &Object) -> Result<Vec<usize>, AllocError>
    ensures { IfOk result (λ positions. IsOrder
        (length (keys_of (entries_of object.now))) positions.items) }
{
    let mut positions = insertion_order(alloc, object.len())?;
    positions.sort_by_key(|position| key_at(object, *position))?;
    Ok(positions)
}

/// The last entry first.
fn reversed_order(alloc: Global, object: &Object) -> Result<Vec<usize>, AllocError>
    ensures { IfOk result (λ positions. IsOrder
        (length (keys_of (entries_of object.now))) positions.items) }
{
    let mut positions = insertion_order(alloc, object.len())?;
    positions.reverse();
    Ok(positions)
}

#[derive(Clone, Copy)]
enum Order {
    Insertion,
    Sorted,
    Reversed,
    Failing,
}

/// A user's layout, whose style allows any whitespace and any order. It counts the calls of its
/// `order`.
#[derive(Clone, Copy, Drop)]
struct Own<'a> {
    alloc: Global,
    order: Order,
    spaces: Option<u16>,
    asked: &'a Cell<u64>,
}

impl Layout for Own<'_> {
    ghost style = { λ _. any_style };

    fn spaces(&self) -> Option<u16> {
        match self.spaces {
            None => None,
            Some(spaces) => Some(spaces),
        }
    }

    fn order(&self, object: &Object) -> Result<Option<Vec<usize>>, AllocError> {
        self.asked.set(self.asked.get().saturating_add(1));
        match self.order {
            Order::Insertion => Ok(None),
            Order::Sorted => Ok(Some(sorted_order(self.alloc, object)?)),
            Order::Reversed => Ok(Some(reversed_order(self.alloc, object)?)),
            Order::Failing => Err(AllocError),
        }
    }

    ghost style_law = { λ _. IsStyle-any };
}

/// A layout without whitespace, in this order.
fn in_order(alloc: Global, order: Order, asked: &Cell<u64>) -> Own<'_> {
    Own {
        alloc,
        order,
        spaces: None,
        asked,
    }
}

/// A call that prints a value in a layout.
#[derive(Clone, Copy)]
enum Call {
    LayOut,
    WriteLayout,
    InMemory,
    ToWriter,
}

const CALLS: &[Call] = &[
    Call::LayOut,
    Call::WriteLayout,
    Call::InMemory,
    Call::ToWriter,
];

impl Call {
    /// Prints the value to these bytes, and returns the outcome. `lay_out` has no text after an error.
    fn print<L: Layout + Copy>(
        self,
        alloc: Global,
        value: &JsonValue,
        layout: L,
    ) -> Result<(Vec<u8>, io::Result<()>), AllocError> {
        let mut bytes = Vec::new(alloc);
        let outcome = match self {
            Call::LayOut => match value.lay_out(alloc, layout) {
                Ok(text) => return Ok((text.into_bytes(), Ok(()))),
                Err(Error::OutOfMemory) => Err(io::Error::from(ErrorKind::OutOfMemory)),
                Err(_) => Err(io::Error::from(ErrorKind::Other)),
            },
            Call::WriteLayout => value.write_layout(&mut bytes, layout),
            Call::InMemory => {
                let mut generator = TextGenerator::in_memory(alloc, layout);
                let outcome = write_json(&mut generator, value);
                bytes.extend_from_slice(generator.get_writer())?;
                outcome
            }
            Call::ToWriter => write_json(&mut TextGenerator::to_writer(&mut bytes, layout), value),
        };
        Ok((bytes, outcome))
    }
}

/// Each call prints this text.
fn expect_laid_out<L: Layout + Copy>(
    rt: &impl Abort,
    alloc: Global,
    value: &JsonValue,
    layout: L,
    text: &str,
) -> Tested {
    for call in CALLS {
        let (bytes, outcome) = call.print(alloc, value, layout)?;
        outcome?;
        expect(rt, text, bytes.as_slice() == text.as_bytes());
    }
    Ok(())
}

/// `{"c":null,"b":null,"a":null}`
fn unsorted(alloc: Global) -> jzon::Result<Object> {
    let mut object = Object::new(alloc);
    for key in ["c", "b", "a"] {
        object.insert(alloc, key, JsonValue::Null)?;
    }
    Ok(object)
}

const UNSORTED: &str = "{\"c\":null,\"b\":null,\"a\":null}";

const SORTED: &str = "{\"a\":null,\"b\":null,\"c\":null}";

const SPACIOUS: &str = "{\n  \"c\": null,\n  \"b\": null,\n  \"a\": null\n}";

const SORTED_LINES: &str = "{\n\"a\": null,\n\"b\": null,\n\"c\": null\n}";

/// What is printed in an order with this number of spaces.
const LAID_OUT: &[(Order, Option<u16>, &str)] = &[
    (Order::Insertion, None, UNSORTED),
    (Order::Insertion, Some(2), SPACIOUS),
    (Order::Sorted, None, SORTED),
    (Order::Sorted, Some(0), SORTED_LINES),
    (Order::Reversed, None, SORTED),
];

const BROKEN: Trouble = Trouble::Fails(ErrorKind::BrokenPipe);

#[test]
fn writes_in_a_layout(rt: HostRuntime) -> Tested {
    let alloc = rt.alloc();
    let value = JsonValue::Object(unsorted(alloc)?);
    let asked = Cell::new(0);
    for (order, spaces, text) in LAID_OUT {
        let layout = Own {
            spaces: *spaces,
            ..in_order(alloc, *order, &asked)
        };
        expect_laid_out(&rt, alloc, &value, layout, text)?;
        let mut writer = SlowWriter::new(alloc, 6, BROKEN);
        match value.write_layout(&mut writer, layout) {
            Ok(()) => expect(&rt, "no error", false),
            Err(error) => expect(&rt, "the error", BROKEN.is_returned(alloc, &error)?),
        }
        expect_bytes(&rt, &writer.bytes, text.get(..5).unwrap_or(""));
    }
    Ok(())
}

/// One run of `write_object` in the order of keys. Whether an allocation failed in it.
fn sort_once(rt: &impl Abort, alloc: Global, object: &Object, refusals: &mut Refusals) -> bool {
    let asked = Cell::new(0);
    let mut generator = TextGenerator::in_memory(alloc, in_order(alloc, Order::Sorted, &asked));
    refusals.begin();
    let result = write_object(&mut generator, object);
    let has_failed = refusals.has_failed();
    if has_failed {
        expect(rt, "the error", is_out_of_memory(result));
        expect_eq(rt, "the faults", generator.faults(), 1);
        let is_prefix = SORTED.as_bytes().starts_with(generator.get_writer());
        expect(rt, "a prefix", is_prefix);
    } else {
        expect(rt, "no error", result.is_ok());
        expect_bytes(rt, generator.get_writer(), SORTED);
    }
    has_failed
}

/// Each allocation fails in turn, those of `order` first. Each run frees all that it allocates.
#[test]
fn sorting_under_refusals(rt: HostRuntime) -> Tested {
    let object = unsorted(rt.alloc())?;
    let mut refusals = Refusals::new(rt.alloc());
    for _ in 0..RUNS_MAX {
        refusals.open();
        let has_failed = sort_once(&rt, rt.alloc(), &object, &mut refusals);
        refusals.close();
        if !has_failed {
            break;
        }
    }
    refusals.report(&rt, "Sorted", 4)?;
    Ok(())
}

/// An object with these keys, each with null.
fn object_of(alloc: Global, keys: &[String]) -> jzon::Result<Object> {
    let mut object = Object::new(alloc);
    for key in keys {
        object.insert(alloc, key.as_str(), JsonValue::Null)?;
    }
    Ok(object)
}

/// An object of a thousand keys, each but the first longer than the one before it.
#[test]
fn sorts_a_large_object(rt: HostRuntime) -> Tested {
    let alloc = rt.alloc();
    let mut keys = keys_of_one_hash(alloc, 1000)?;
    let text = object_text(alloc, keys.as_slice())?;
    keys.reverse();
    let value = JsonValue::Object(object_of(alloc, keys.as_slice())?);
    let asked = Cell::new(0);
    let layout = in_order(alloc, Order::Sorted, &asked);
    expect_laid_out(&rt, alloc, &value, layout, text.as_str())
}

/// An order has more positions than 16 bits can count.
#[test]
fn writes_many_entries_in_an_order(rt: HostRuntime) -> Tested {
    let mut keys = keys_by_hash(rt.alloc(), 70_000)?;
    let object = object_of(rt.alloc(), keys.as_slice())?;
    keys.reverse();
    let text = object_text(rt.alloc(), keys.as_slice())?;
    expect_reversed(&rt, &object, text.as_str())?;
    let asked = Cell::new(0);
    let layout = in_order(rt.alloc(), Order::Reversed, &asked);
    expect_laid_out(
        &rt,
        rt.alloc(),
        &JsonValue::Object(object),
        layout,
        text.as_str(),
    )
}

/// `write_object` in the reversed order prints this text.
fn expect_reversed(rt: &impl Tester, object: &Object, text: &str) -> Tested {
    let asked = Cell::new(0);
    let layout = in_order(rt.alloc(), Order::Reversed, &asked);
    let mut generator = TextGenerator::in_memory(rt.alloc(), layout);
    write_object(&mut generator, object)?;
    expect(rt, "write_object", is_text(generator.consume(), text));
    expect_eq(rt, "the calls of order", asked.get(), 1);
    Ok(())
}

/// The order is asked for once for each of two objects, of which one is empty.
#[test]
fn asks_for_each_order_once(rt: HostRuntime) -> Tested {
    let alloc = rt.alloc();
    let mut value = JsonValue::new_object(alloc);
    value.insert(alloc, "a", JsonValue::new_object(alloc))?;
    for call in CALLS {
        let asked = Cell::new(0);
        call.print(alloc, &value, in_order(alloc, Order::Insertion, &asked))?
            .1?;
        expect_eq(&rt, "the calls of order", asked.get(), 2);
    }
    Ok(())
}

/// The error is that of a failed allocation.
fn is_out_of_memory(outcome: io::Result<()>) -> bool {
    outcome.is_err_and(|error| error.kind() == ErrorKind::OutOfMemory)
}

/// Each call fails in this layout after these bytes.
fn expect_failed_order(
    rt: &impl Tester,
    value: &JsonValue,
    layout: Own<'_>,
    before: &str,
) -> Tested {
    for call in CALLS {
        let (bytes, outcome) = call.print(rt.alloc(), value, layout)?;
        expect(rt, "the error", is_out_of_memory(outcome));
        let is_lent = !matches!(call, Call::LayOut);
        expect_bytes(rt, &bytes, if is_lent { before } else { "" });
    }
    Ok(())
}

/// Each call that prints returns the error of a failed allocation where `order` fails, after what
/// was written before that object.
#[test]
fn propagates_a_failed_order(rt: HostRuntime) -> Tested {
    let asked = Cell::new(0);
    let layout = in_order(rt.alloc(), Order::Failing, &asked);
    let object = unsorted(rt.alloc())?;
    let mut generator = TextGenerator::in_memory(rt.alloc(), layout);
    let result = write_object(&mut generator, &object);
    expect(&rt, "write_object", is_out_of_memory(result));
    expect_eq(&rt, "one fault", generator.faults(), 1);
    let value = JsonValue::Array(vec![in rt.alloc(); JsonValue::Object(object)]?);
    let result = write_json(&mut generator, &value);
    expect(&rt, "write_json", is_out_of_memory(result));
    expect_eq(&rt, "two faults", generator.faults(), 2);
    expect_bytes(&rt, generator.get_writer(), "[");
    expect_failed_order(&rt, &value, layout, "[")
}

/// The last byte of a full buffer, bytes of the next, and the last before the object.
const LATE_CALLS: &[usize] = &[1, 1024, 1025, 2007];

/// `order` fails after 2,007 bytes, of which no call loses any. Where the writer fails before, its
/// error is returned.
#[test]
fn propagates_a_late_failed_order(rt: HostRuntime) -> Tested {
    let alloc = rt.alloc();
    let string = joined(alloc, &[("\"", 1), ("p", 1000), ("\",", 1)])?;
    let before = joined(alloc, &[("[", 1), (string.as_str(), 2)])?;
    let value = parse(
        alloc,
        joined(alloc, &[(before.as_str(), 1), ("{}]", 1)])?.as_str(),
    )?;
    let asked = Cell::new(0);
    let layout = in_order(alloc, Order::Failing, &asked);
    expect_failed_order(&rt, &value, layout, before.as_str())?;
    for call in LATE_CALLS {
        let mut writer = SlowWriter::new(alloc, *call, BROKEN);
        expect_trouble(&rt, value.write_layout(&mut writer, layout), BROKEN)?;
        expect_eq(&rt, "the calls", writer.calls, *call);
        let is_prefix = before.as_bytes().starts_with(&writer.bytes);
        expect(
            &rt,
            "a prefix",
            is_prefix && writer.bytes.len() == *call - 1,
        );
    }
    Ok(())
}

/// A layout that owns memory. A space is before each element for each open container.
#[derive(Drop)]
struct Owning(String);

impl Layout for Owning {
    ghost style = { λ _. any_style };

    fn spaces(&self) -> Option<u16> {
        Some(1)
    }

    fn order(&self, _object: &Object) -> Result<Option<Vec<usize>>, AllocError> {
        Ok(None)
    }

    ghost style_law = { λ _. IsStyle-any };
}

fn new_layout(alloc: Global) -> Result<Owning, AllocError> {
    Ok(Owning(String::from_str(alloc, "words of a layout")?))
}

/// Each call that takes a layout, to memory and to a writer that fails.
fn lay_out(rt: &impl Tester, value: &JsonValue) -> Tested {
    let alloc = rt.alloc();
    let text = value.lay_out(alloc, new_layout(alloc)?);
    expect(rt, "lay_out", is_text(text, "[\n 1\n]"));
    let mut writer = SlowWriter::new(alloc, 3, Trouble::TakesNothing);
    let outcome = value.write_layout(&mut writer, new_layout(alloc)?);
    expect(rt, "write_layout", outcome.is_err());
    lay_out_whole(rt, value)
}

fn lay_out_whole(rt: &impl Tester, value: &JsonValue) -> Tested {
    let mut bytes: Vec<u8> = Vec::new(rt.alloc());
    value.write_layout(&mut bytes, new_layout(rt.alloc())?)?;
    expect_bytes(rt, &bytes, "[\n 1\n]");
    let mut generator = TextGenerator::in_memory(rt.alloc(), new_layout(rt.alloc())?);
    write_json(&mut generator, value)?;
    expect(rt, "consume", is_text(generator.consume(), "[\n 1\n]"));
    Ok(())
}

/// More than these texts and layouts take.
const MOST_OF_LAYOUTS: usize = 1 << 20;

/// Each call drops the layout that it is passed.
#[test]
fn layouts_counted(rt: HostRuntime) -> Tested {
    let value = parse(rt.alloc(), "[1]")?;
    let mut refusals = Refusals::new(rt.alloc());
    refusals.open();
    lay_out(&rt, &value)?;
    refusals.close();
    refusals.expect_within(&rt, "layouts", MOST_OF_LAYOUTS)?;
    refusals.expect_even()?;
    Ok(())
}
