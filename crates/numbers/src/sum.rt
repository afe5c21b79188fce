//! Sums and differences.

ghost use Rattle.std.specs.Prelude.{◌+ℤ◌, ◌-ℤ◌};
ghost use Rattle.numbers.specs.Exact.{Exact};

/// The sum of `a` and `b`; nothing where it does not fit.
pub fn add(a: i64, b: i64) -> Option<i64>
    ensures { Exact result (a +ℤ b) }
{
    // The project's rule: numbers of 64 bits are looked at before they are added, with no `checked_add`.
    let fits = if b < 0 {
        i64::MIN - b <= a
    } else {
        a <= i64::MAX - b
    };
    if fits { Some(a + b) } else { None }
}

/// The difference of `a` and `b`; nothing where it does not fit.
pub fn subtract(a: i64, b: i64) -> Option<i64>
    ensures { Exact result (a -ℤ b) }
{
    // By the same rule, there is no `checked_sub`.
    let fits = if b < 0 {
        a <= i64::MAX + b
    } else {
        i64::MIN + b <= a
    };
    if fits { Some(a - b) } else { None }
}
