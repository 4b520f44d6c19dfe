// Calls with a number of arguments that a native does not take, which no filter makes.
use jq_natives::{Native, call};
use jv_data::{Fail, Val};
use std::test;

#[test]
fn other_counts_of_arguments(rt: HostRuntime) -> Result<(), test::Fail> {
    match &call(rt.alloc(), Native::Length, &Val::Null, &[Val::Null]) {
        Err(Fail::Raised(Val::Null)) => Ok(()),
        _ => panic!(rt; "length takes an argument"),
    }
}
