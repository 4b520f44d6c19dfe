// How the tests compile a filter and start a session.
use jq_filters::Filter;
use jq_session::{NotStarted, Session};
use jq_starts::Starts;
use jq_syntax::Options;
use jv_data::Val;
use jv_text::Style;
use std::alloc::{AllocError, Global};
use std::rt::HostRuntime;
use std::test::Fail;

/// The options of a command with compact output and this flag, `-n`, `-s`, `-e` or none.
pub(crate) fn options(alloc: Global, flag: &str) -> Options {
    Options {
        null: flag == "-n",
        slurp: flag == "-s",
        exit: flag == "-e",
        style: Style {
            compact: true,
            raw: false,
            join: false,
        },
        depth: 10_000,
        vars: Vec::new(alloc),
    }
}

/// A filter, compiled under this flag.
pub(crate) fn compile_under(alloc: Global, flag: &str, filter: &str) -> Result<Filter, Fail> {
    Ok(Filter::compile(alloc, filter, options(alloc, flag))?)
}

/// A session over these values.
pub(crate) fn start(
    alloc: Global,
    starts: Starts,
    flag: &str,
    filter: &str,
    inputs: Vec<Val>,
) -> Result<Result<Session, NotStarted>, Fail> {
    let filter = compile_under(alloc, flag, filter)?;
    let options = options(alloc, flag);
    Ok(Session::start(alloc, starts, options, filter, inputs))
}

/// A session that starts.
pub(crate) fn started(
    rt: &HostRuntime,
    flag: &str,
    filter: &str,
    inputs: Vec<Val>,
) -> Result<Session, Fail> {
    match start(rt.alloc(), Starts::new(rt), flag, filter, inputs)? {
        Ok(session) => Ok(session),
        Err(refused) => Err(Fail::from(refused.refusal)),
    }
}

/// The numbers from 1 to this one.
pub(crate) fn numbers(alloc: Global, last: i64) -> Result<Vec<Val>, AllocError> {
    let mut values = Vec::new(alloc);
    for number in 1..=last {
        values.push(Val::Num(number))?;
    }
    Ok(values)
}
