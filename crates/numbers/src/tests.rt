//! Both ends of the range, and each pair of signs.

use crate::{DivisionError, add, divide, modulo, multiply, subtract};

#[test]
fn sums(rt: HostRuntime) {
    let table = [
        (i64::MAX, 0, Some(i64::MAX)),
        (i64::MAX, 1, None),
        (i64::MAX, i64::MIN, Some(-1)),
        (i64::MIN, 0, Some(i64::MIN)),
        (i64::MIN, -1, None),
    ];
    for (a, b, sum) in table.iter() {
        assert_eq!(rt; add(*a, *b), *sum);
    }
}

#[test]
fn differences(rt: HostRuntime) {
    let table = [
        (i64::MAX, 0, Some(i64::MAX)),
        (i64::MAX, -1, None),
        (-1, i64::MIN, Some(i64::MAX)),
        (0, i64::MIN, None),
        (i64::MIN, 1, None),
    ];
    for (a, b, difference) in table.iter() {
        assert_eq!(rt; subtract(*a, *b), *difference);
    }
}

#[test]
fn products(rt: HostRuntime) {
    let table = [
        (3037000499, 3037000499, Some(9223372030926249001)),
        (3037000500, 3037000500, None),
        (4294967296, -2147483648, Some(i64::MIN)),
        (-4294967296, -2147483648, None),
        (0, i64::MIN, Some(0)),
        (i64::MIN, 1, Some(i64::MIN)),
        (i64::MIN, -1, None),
        (-1, i64::MIN, None),
    ];
    for (a, b, product) in table.iter() {
        assert_eq!(rt; multiply(*a, *b), *product);
    }
}

#[test]
fn divisions(rt: HostRuntime) {
    let table = [
        (7, 2, Ok(3), Ok(1)),
        (-7, 2, Ok(-4), Ok(1)),
        (7, -2, Ok(-4), Ok(-1)),
        (-7, -2, Ok(3), Ok(-1)),
        (i64::MIN, -1, Err(DivisionError::TooBig), Ok(0)),
        (i64::MIN, 1, Ok(i64::MIN), Ok(0)),
        (i64::MIN, i64::MAX, Ok(-2), Ok(i64::MAX - 1)),
        (i64::MAX, i64::MIN, Ok(-1), Ok(-1)),
        (0, 0, Err(DivisionError::ByZero), Err(DivisionError::ByZero)),
    ];
    for (a, b, quotient, remainder) in table.iter() {
        assert_eq!(rt; divide(*a, *b), *quotient);
        assert_eq!(rt; modulo(*a, *b), *remainder);
    }
}
