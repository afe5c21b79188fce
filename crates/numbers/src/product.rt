//! Products.

ghost use Rattle.std.specs.Prelude.{◌≡◌, ◌&&◌, ◌*ℤ◌, int_le};
ghost use Rattle.meaning.specs.Values.{fits};
ghost use Rattle.numbers.specs.Exact.{Exact};

/// The product of `a` and `b`; nothing where it does not fit.
pub fn multiply(a: i64, b: i64) -> Option<i64>
    ensures { Exact result (a *ℤ b) }
{
    // The project's rule: factors are looked at before they are multiplied, with no `checked_mul`.
    if product_fits(a, b) {
        Some(a * b)
    } else {
        None
    }
}

// Whether `a * b` fits: `a` lies between the ends of the range, each divided by `b`. The lower end divided by -1 does
// not fit itself.
fn product_fits(a: i64, b: i64) -> bool
    ensures { result ≡ fits (a *ℤ b) }
{
    if b == 0 {
        return true;
    }
    if b == -1 {
        return a != i64::MIN;
    }
    if b < 0 {
        lies_between(i64::MAX / b, a, i64::MIN / b)
    } else {
        lies_between(i64::MIN / b, a, i64::MAX / b)
    }
}

// Whether `low` is at most `a`, and `a` at most `high`.
fn lies_between(low: i64, a: i64, high: i64) -> bool
    ensures { result ≡ (int_le low a && int_le a high) }
{
    (low..=high).contains(&a)
}
