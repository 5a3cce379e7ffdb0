//! What operations give for values.
use iv_cover::{Op, summary};
use std::test::Fail;

/// Whether an operation gives this for values.
fn gives(rt: &HostRuntime, op: Op, values: &[&[u8]], want: &[u8]) -> Result<bool, Fail> {
    Ok(summary(rt.alloc(), op, values)?.as_slice() == want)
}

/// Four values.
const FOUR: [&[u8]; 4] = [b"5", b".", b"-7", b"007"];

/// The name of an operation, what it gives for those, and for none.
const WANTED: [(&[u8], Op, &[u8], &[u8]); 6] = [
    (b"count", Op::Count, b"4", b"0"),
    (b"sum", Op::Sum, b"5", b"."),
    (b"min", Op::Min, b"-7", b"."),
    (b"max", Op::Max, b"7", b"."),
    (b"collapse", Op::Collapse, b"5,.,-7,007", b""),
    (b"distinct", Op::Distinct, b"-7,.,007,5", b""),
];

#[test]
fn operations_over_values(rt: HostRuntime) -> Result<(), Fail> {
    for (name, op, of_four, of_none) in WANTED {
        assert!(rt; Op::parse(name) == Some(op));
        assert!(rt; gives(&rt, op, &FOUR, of_four)? && gives(&rt, op, &[], of_none)?);
    }
    for name in [b"mean".as_slice(), b"", b"Sum", b"sum "] {
        assert!(rt; Op::parse(name).is_none());
    }
    Ok(())
}

/// Pairs of values, and their sum, the least and the greatest one.
const NUMBERS: [(&[&[u8]], [&[u8]; 3]); 10] = [
    (&[b"5", b"2.5"], [b".", b".", b"."]),
    (&[b".", b"."], [b".", b".", b"."]),
    (&[b"-", b"1"], [b".", b".", b"."]),
    (&[b"", b"1"], [b".", b".", b"."]),
    (&[b"+1", b"1"], [b".", b".", b"."]),
    (&[b"--1", b"1"], [b".", b".", b"."]),
    (&[b"1", b"1000000000000000"], [b".", b".", b"."]),
    (&[b"-0", b"000"], [b"0", b"0", b"0"]),
    (
        &[b"999999999999999", b"."],
        [b"999999999999999", b"999999999999999", b"999999999999999"],
    ),
    (
        &[b"-999999999999999", b"-000000000000001"],
        [b"-1000000000000000", b"-999999999999999", b"-1"],
    ),
];

/// Whether sum, least and greatest are these.
fn are_numbers(rt: &HostRuntime, values: &[&[u8]], want: [&[u8]; 3]) -> Result<bool, Fail> {
    let [sum, least, greatest] = want;
    Ok(
        gives(rt, Op::Sum, values, sum)?
            && gives(rt, Op::Min, values, least)?
            && gives(rt, Op::Max, values, greatest)?,
    )
}

#[test]
fn numbers_among_values(rt: HostRuntime) -> Result<(), Fail> {
    for (values, want) in NUMBERS {
        assert!(rt; are_numbers(&rt, values, want)?);
    }
    Ok(())
}

#[test]
fn sum_of_a_thousand_numbers(rt: HostRuntime) -> Result<(), Fail> {
    let number = b"999999999999999".as_slice();
    let sum = b"999999999999999000".as_slice();
    assert!(rt; are_numbers(&rt, &[number; 1000], [sum, number, number])?);
    Ok(())
}

#[test]
fn each_value_once(rt: HostRuntime) -> Result<(), Fail> {
    let values: [&[u8]; 7] = [b"b", b"", b"ab", b"a", b"b", b"", b"B"];
    assert!(rt; gives(&rt, Op::Distinct, &values, b",B,a,ab,b")?);
    Ok(())
}
