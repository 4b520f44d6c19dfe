// Arithmetic on whole numbers of 64 bits.
ghost use Rattle.std.specs.Prelude.{◌+ℤ◌, ◌-ℤ◌, ◌*ℤ◌, neg_ℤ};
ghost use Rattle.jv_data.specs.Fails.{AnswersAs};
ghost use Rattle.jv_arith.specs.Numbers.{in_range, quotient, remainder};

use crate::errors::{divisor_is_zero, not_whole, out_of_range};
use jv_data::{Fail, Val};
use std::alloc::Global;

pub(crate) fn sum(alloc: Global, left: &i64, right: &i64) -> Result<Val, Fail>
    ensures { AnswersAs result (in_range (left.now +ℤ right.now)) }
{
    match left.checked_add(*right) {
        Some(sum) => Ok(Val::Num(sum)),
        None => Err(out_of_range(alloc)),
    }
}

pub(crate) fn difference(alloc: Global, left: &i64, right: &i64) -> Result<Val, Fail>
    ensures { AnswersAs result (in_range (left.now -ℤ right.now)) }
{
    match left.checked_sub(*right) {
        Some(difference) => Ok(Val::Num(difference)),
        None => Err(out_of_range(alloc)),
    }
}

pub(crate) fn product(alloc: Global, left: &i64, right: &i64) -> Result<Val, Fail>
    ensures { AnswersAs result (in_range (left.now *ℤ right.now)) }
{
    match left.checked_mul(*right) {
        Some(product) => Ok(Val::Num(product)),
        None => Err(out_of_range(alloc)),
    }
}

pub(crate) fn negation(alloc: Global, number: &i64) -> Result<Val, Fail>
    ensures { AnswersAs result (in_range (neg_ℤ number.now)) }
{
    match number.checked_neg() {
        Some(negation) => Ok(Val::Num(negation)),
        None => Err(out_of_range(alloc)),
    }
}

pub(crate) fn quotient(alloc: Global, dividend: &i64, divisor: &i64) -> Result<Val, Fail>
    ensures { AnswersAs result (quotient dividend.now divisor.now) }
{
    if *divisor == 0 {
        return Err(divisor_is_zero(alloc));
    }
    if dividend.wrapping_rem(*divisor) != 0 {
        return Err(not_whole(alloc));
    }
    match dividend.checked_div(*divisor) {
        Some(quotient) => Ok(Val::Num(quotient)),
        None => Err(out_of_range(alloc)),
    }
}

pub(crate) fn remainder(alloc: Global, dividend: &i64, divisor: &i64) -> Result<Val, Fail>
    ensures { AnswersAs result (remainder dividend.now divisor.now) }
{
    if *divisor == 0 {
        return Err(divisor_is_zero(alloc));
    }
    Ok(Val::Num(dividend.wrapping_rem(*divisor)))
}
