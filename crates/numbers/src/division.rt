//! Quotients, rounded down, and remainders, with the divisor's sign.

ghost use Rattle.std.specs.Prelude.{◌≡◌, negsuc};
ghost use Rattle.meaning.specs.Values.{quotient, remainder};
ghost use Rattle.numbers.specs.Divided.{Divided, opposite};

/// Why a division gives no result.
#[derive(Clone, Copy, Debug, PartialEq, Eq)]
pub enum DivisionError {
    /// The result does not fit.
    TooBig,
    /// The divisor is 0.
    ByZero,
}

/// The quotient of `a` and `b`, rounded down.
pub fn divide(a: i64, b: i64) -> Result<i64, DivisionError>
    ensures { Divided result b (quotient a b) }
{
    // The project's rule: a divisor is looked at before it divides, with no `checked_div`.
    if b == 0 {
        return Err(DivisionError::ByZero);
    }
    if b == -1 {
        return negate(a);
    }
    // The machine rounds toward 0: that is up where the remainder has another sign than the divisor.
    let truncated = a / b;
    if has_other_sign(a % b, b) {
        Ok(truncated - 1)
    } else {
        Ok(truncated)
    }
}

/// The remainder of `a` and `b` where the quotient is rounded down: 0, or a number of the sign of `b`.
pub fn modulo(a: i64, b: i64) -> Result<i64, DivisionError>
    ensures { Divided result b (remainder a b) }
{
    if b == 0 {
        return Err(DivisionError::ByZero);
    }
    if b == -1 {
        return Ok(0);
    }
    let truncated = a % b;
    if has_other_sign(truncated, b) {
        Ok(truncated + b)
    } else {
        Ok(truncated)
    }
}

// The quotient of `a` and -1, the one divisor by which a quotient may not fit.
fn negate(a: i64) -> Result<i64, DivisionError>
    ensures { Divided result (negsuc 0) (quotient a (negsuc 0)) }
{
    if a == i64::MIN {
        Err(DivisionError::TooBig)
    } else {
        Ok(-a)
    }
}

// Whether `rest` is above 0 and `divisor` below it, or the other way round.
fn has_other_sign(rest: i64, divisor: i64) -> bool
    ensures { result ≡ opposite rest divisor }
{
    if divisor < 0 { 0 < rest } else { rest < 0 }
}
