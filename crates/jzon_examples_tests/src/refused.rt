//! Tests of `cookbook::refused`.

use crate::common::{Tested, expect, expect_dump, expect_eq};
use jzon_examples::cookbook::refused::{
    AddError, add, after_first_byte, as_in_rust, count_inside, count_nulls, first, first_name,
    last_null, next_id, next_port, percent_of_each, percent_or_zero, required, short_id,
    starts_with_null, total_length,
};

#[test]
fn runs_each(rt: HostRuntime) -> Tested {
    let alloc = rt.alloc();
    let list = jzon::parse(alloc, r#"["ab", null, 7, null]"#)?;
    let items = list.as_array().ok_or("no array")?;
    expect_eq(&rt, "first_name", first_name(&list), Some("ab"));
    expect(&rt, "required", required(alloc, &list).is_err());
    expect(&rt, "first", first(items).is_some());
    expect(&rt, "starts_with_null", !starts_with_null(items));
    Ok(())
}

#[test]
fn counts_in_a_list(rt: HostRuntime) -> Tested {
    let alloc = rt.alloc();
    let list = jzon::parse(alloc, r#"["ab", null, 7, null]"#)?;
    expect_eq(&rt, "count_nulls", count_nulls(&list), 2);
    expect_eq(&rt, "total_length", total_length(&list), Some(0));
    expect_eq(&rt, "last_null", last_null(&list), Some(3));
    expect_eq(&rt, "count_inside", count_inside(alloc, &list)?, 5);
    expect_dump(
        &rt,
        &as_in_rust(alloc, &list)?,
        r#"{"nulls":2,"most":7,"limit":5}"#,
    );
    Ok(())
}

#[test]
fn computes(rt: HostRuntime) {
    expect_eq(&rt, "next_id", next_id(u64::MAX), None);
    expect_eq(&rt, "short_id", short_id(1 << 32), None);
    expect_eq(&rt, "percent_of_each", percent_of_each(3), Some(33));
    expect_eq(&rt, "percent_or_zero", percent_or_zero(0), 0);
    expect_eq(&rt, "after_first_byte", after_first_byte("é"), None);
}

#[test]
fn adds_in_a_larger_type(rt: HostRuntime) -> Tested {
    let alloc = rt.alloc();
    let server = jzon::parse(alloc, r#"{"port": 65535}"#)?;
    expect_eq(&rt, "next_port", next_port(&server), Some(65536));
    Ok(())
}

#[test]
fn adds(rt: HostRuntime) -> Tested {
    let alloc = rt.alloc();
    let mut totals = Vec::new(alloc);
    for (service, cents) in [("mail", 1), ("web", 2), ("mail", 3)] {
        add(alloc, &mut totals, service, cents)?;
    }
    let result = add(alloc, &mut totals, "web", u64::MAX);
    expect(&rt, "too large", matches!(result, Err(AddError::TooLarge)));
    expect_eq(&rt, "services", totals.len(), 2);
    expect_eq(
        &rt,
        "cents",
        totals.get(0).map(|total| total.cents),
        Some(4),
    );
    Ok(())
}
