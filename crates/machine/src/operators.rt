//! Operators on two values: a result, or an error.

ghost use Rattle.std.specs.Prelude.{◌≡◌};
ghost use Rattle.store.specs.Heap.{stored};
ghost use Rattle.machine.specs.Operators.{AsNumber, Calculates, Compared, Divides, Numbers, OperateSim, SameSim, Truly};

use crate::atoms::{BIG, FALSE, TRUE, TYPE, ZERO};
use crate::state::{Control, Refusal};
use code::Operator;
use numbers::{DivisionError, add, at_most, divide, equal, less, modulo, multiply, subtract};
use store::{Cells, Heap, Slot};
use values::{Value, same_value};

/// What an operator leads to on its operands, of which the last one comes first.
pub fn operate(
    heap: &Heap<'_>,
    operator: Operator,
    operands: Slot,
    scratch: &mut [u32],
) -> Result<Control, Refusal>
    ensures { OperateSim (stored heap.now) scratch.old operator operands result }
{
    let second = heap.left(operands);
    let first = heap.left(heap.right(operands));
    match (as_number(first), as_number(second)) {
        (Some(a), Some(b)) => Ok(calculate(operator, a, b)),
        _ => compare(heap, operator, first, second, scratch),
    }
}

/// The number that a slot holds, if it holds one.
pub fn as_number(slot: Slot) -> Option<i64>
    ensures { AsNumber slot result }
{
    match Value::from(slot) {
        Value::Number(n) => Some(n),
        _ => None,
    }
}

/// An operator on two values that are not both numbers.
fn compare(
    heap: &Heap<'_>,
    operator: Operator,
    first: Slot,
    second: Slot,
    scratch: &mut [u32],
) -> Result<Control, Refusal>
    ensures { Compared (stored heap.now) scratch.old operator first second result }
{
    match operator {
        Operator::Equal => Ok(truth(same(heap, first, second, scratch)?)),
        Operator::Unequal => Ok(truth(!same(heap, first, second, scratch)?)),
        _ => Ok(Control::Fail(TYPE)),
    }
}

/// Whether two slots hold the same value.
fn same(heap: &Heap<'_>, first: Slot, second: Slot, scratch: &mut [u32]) -> Result<bool, Refusal>
    ensures { SameSim (stored heap.now) scratch.old first second result }
{
    let budget = scratch.len();
    same_value(heap.words, first, second, scratch, budget).map_err(|_| Refusal::TooLarge)
}

fn calculate(operator: Operator, a: i64, b: i64) -> Control
    ensures { Calculates operator a b result }
{
    match operator {
        Operator::Plus => number(add(a, b)),
        Operator::Minus => number(subtract(a, b)),
        Operator::Times => number(multiply(a, b)),
        Operator::Divide => quotient(divide(a, b)),
        Operator::Modulo => quotient(modulo(a, b)),
        Operator::Equal => truth(equal(a, b)),
        Operator::Unequal => truth(!equal(a, b)),
        Operator::Less => truth(less(a, b)),
        Operator::AtMost => truth(at_most(a, b)),
    }
}

/// The number, or that it does not fit.
fn number(exact: Option<i64>) -> Control
    ensures { Numbers exact result }
{
    match exact {
        Some(n) => Control::Give(Slot::from(Value::Number(n))),
        None => Control::Fail(BIG),
    }
}

/// As `number`, of what fails in two ways; one function for both would make every sum's failure a `DivisionError`.
fn quotient(division: Result<i64, DivisionError>) -> Control
    ensures { Divides division result }
{
    match division {
        Ok(n) => Control::Give(Slot::from(Value::Number(n))),
        Err(DivisionError::TooBig) => Control::Fail(BIG),
        Err(DivisionError::ByZero) => Control::Fail(ZERO),
    }
}

fn truth(answer: bool) -> Control
    ensures { Truly answer result }
{
    Control::Give(if answer { TRUE } else { FALSE })
}
