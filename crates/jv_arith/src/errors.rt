// The errors of the operators. If there is no memory for an error's text, the failure is out of memory.
ghost use Rattle.jv_data.specs.Fails.{FailsAs, raised};
ghost use Rattle.jv_data.specs.View.{view};
ghost use Rattle.jv_arith.specs.Errors.{cannot_be_added, cannot_be_subtracted, cannot_be_multiplied, cannot_be_divided, cannot_be_negated, out_of_range, divisor_is_zero, not_whole, repeat_too_long};

use jv_data::{Fail, Val, raise, raise_kind, raise_kinds};
use std::alloc::Global;

pub(crate) fn out_of_range(alloc: Global) -> Fail
    ensures { FailsAs result (raised out_of_range) }
{
    raise(alloc, "result out of range")
}

pub(crate) fn divisor_is_zero(alloc: Global) -> Fail
    ensures { FailsAs result (raised divisor_is_zero) }
{
    raise(alloc, "divisor is zero")
}

pub(crate) fn not_whole(alloc: Global) -> Fail
    ensures { FailsAs result (raised not_whole) }
{
    raise(alloc, "quotient is not whole")
}

pub(crate) fn repeat_too_long(alloc: Global) -> Fail
    ensures { FailsAs result (raised repeat_too_long) }
{
    raise(alloc, "Repeat string result too long")
}

pub(crate) fn cannot_be_added(alloc: Global, left: &Val, right: &Val) -> Fail
    ensures { FailsAs result (raised (cannot_be_added (view left.now) (view right.now))) }
{
    raise_kinds(alloc, left, right, " cannot be added")
}

pub(crate) fn cannot_be_subtracted(alloc: Global, left: &Val, right: &Val) -> Fail
    ensures { FailsAs result (raised (cannot_be_subtracted (view left.now) (view right.now))) }
{
    raise_kinds(alloc, left, right, " cannot be subtracted")
}

pub(crate) fn cannot_be_multiplied(alloc: Global, left: &Val, right: &Val) -> Fail
    ensures { FailsAs result (raised (cannot_be_multiplied (view left.now) (view right.now))) }
{
    raise_kinds(alloc, left, right, " cannot be multiplied")
}

pub(crate) fn cannot_be_divided(alloc: Global, left: &Val, right: &Val) -> Fail
    ensures { FailsAs result (raised (cannot_be_divided (view left.now) (view right.now))) }
{
    raise_kinds(alloc, left, right, " cannot be divided")
}

pub(crate) fn cannot_be_negated(alloc: Global, value: &Val) -> Fail
    ensures { FailsAs result (raised (cannot_be_negated (view value.now))) }
{
    raise_kind(alloc, value, " cannot be negated")
}
