// The operators.
ghost use Rattle.jv_data.specs.Fails.{AnswersAs};
ghost use Rattle.jv_data.specs.View.{view};
ghost use Rattle.jv_arith.specs.Arith.{add_of, sub_of, mul_of, div_of, rem_of, neg_of};

use crate::errors::{
    cannot_be_added, cannot_be_divided, cannot_be_multiplied, cannot_be_negated,
    cannot_be_subtracted,
};
use crate::splitting::split;
use crate::{arrays, numbers, objects, strings};
use jv_data::{Array, Fail, Val};
use std::alloc::Global;

/// `left + right`: the sum of numbers, the two strings or arrays joined, or the members of both objects, those of the right
/// winning. Adding null changes nothing.
pub fn add(alloc: Global, left: &Val, right: &Val) -> Result<Val, Fail>
    ensures { AnswersAs result (add_of (view left.now) (view right.now)) }
{
    add_to(alloc, left.copy()?, right)
}

/// `left + right`, which changes the left value in place if it is not shared.
pub fn add_to(alloc: Global, left: Val, right: &Val) -> Result<Val, Fail>
    ensures { AnswersAs result (add_of (view left) (view right.now)) }
{
    let mut left = left;
    match (&mut left, right) {
        (_, Val::Null) => Ok(left),
        (Val::Null, right) => Ok(right.copy()?),
        (Val::Num(left), Val::Num(right)) => numbers::sum(alloc, left, right),
        (Val::Text(text), Val::Text(right)) => {
            strings::append(text, right)?;
            Ok(left)
        }
        (Val::List(items), Val::List(right)) => {
            arrays::append(items, right)?;
            Ok(left)
        }
        (Val::Table(members), Val::Table(right)) => {
            objects::put_all(members, right)?;
            Ok(left)
        }
        (left, right) => Err(cannot_be_added(alloc, left, right)),
    }
}

/// `left - right`: the difference of numbers, or the items of the left array that are equal to none of the right.
pub fn sub(alloc: Global, left: &Val, right: &Val) -> Result<Val, Fail>
    ensures { AnswersAs result (sub_of (view left.now) (view right.now)) }
{
    match (left, right) {
        (Val::Num(left), Val::Num(right)) => numbers::difference(alloc, left, right),
        (Val::List(left), Val::List(right)) => {
            let items = arrays::left_over(alloc, left, right)?;
            Ok(Val::List(Array::from_vec(alloc, items)?))
        }
        _ => Err(cannot_be_subtracted(alloc, left, right)),
    }
}

/// `left * right`: the product of numbers, a string repeated a number of times (null for less than once), or the members of
/// both objects, two objects at one key united in the same way.
pub fn mul(alloc: Global, left: &Val, right: &Val) -> Result<Val, Fail>
    ensures { AnswersAs result (mul_of (view left.now) (view right.now)) }
{
    match (left, right) {
        (Val::Num(left), Val::Num(right)) => numbers::product(alloc, left, right),
        (Val::Text(text), Val::Num(count)) | (Val::Num(count), Val::Text(text)) => {
            strings::repeated(alloc, text, count)
        }
        (Val::Table(left), Val::Table(right)) => {
            Ok(Val::Table(objects::deep_union(alloc, left.share()?, right)?))
        }
        _ => Err(cannot_be_multiplied(alloc, left, right)),
    }
}

/// `left / right`: the quotient of numbers if it is whole, or the parts of a string between the occurrences of another.
pub fn div(alloc: Global, left: &Val, right: &Val) -> Result<Val, Fail>
    ensures { AnswersAs result (div_of (view left.now) (view right.now)) }
{
    match (left, right) {
        (Val::Num(dividend), Val::Num(divisor)) => numbers::quotient(alloc, dividend, divisor),
        (Val::Text(text), Val::Text(separator)) => {
            Ok(split(alloc, text.as_str(), separator.as_str())?)
        }
        _ => Err(cannot_be_divided(alloc, left, right)),
    }
}

/// `left % right`: the remainder has the sign of the dividend.
pub fn rem(alloc: Global, left: &Val, right: &Val) -> Result<Val, Fail>
    ensures { AnswersAs result (rem_of (view left.now) (view right.now)) }
{
    match (left, right) {
        (Val::Num(dividend), Val::Num(divisor)) => numbers::remainder(alloc, dividend, divisor),
        _ => Err(cannot_be_divided(alloc, left, right)),
    }
}

/// `-value`.
pub fn neg(alloc: Global, value: &Val) -> Result<Val, Fail>
    ensures { AnswersAs result (neg_of (view value.now)) }
{
    match value {
        Val::Num(number) => numbers::negation(alloc, number),
        _ => Err(cannot_be_negated(alloc, value)),
    }
}
