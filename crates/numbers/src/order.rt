//! Which of two numbers is less.
//!
//! Each is an operator of the machine; its contract has the language's own word for it, which the operator's has not.

ghost use Rattle.std.specs.Prelude.{◌≡◌, not};
ghost use Rattle.meaning.specs.Values.{less_int, same_int};

/// Whether `a` is less than `b`.
pub fn less(a: i64, b: i64) -> bool
    ensures { result ≡ less_int a b }
{
    a < b
}

/// Whether `a` is at most `b`.
pub fn at_most(a: i64, b: i64) -> bool
    ensures { result ≡ not (less_int b a) }
{
    a <= b
}

/// Whether `a` and `b` are the same number.
pub fn equal(a: i64, b: i64) -> bool
    ensures { result ≡ same_int a b }
{
    a == b
}
