// Scripts whose devices fail, or give and take few bytes: which lines are answered, which fault comes, and how often a device is
// called.
use crate::fakes::{Bytes, Kept, Spaces};
use crate::starting::{numbers, started};
use jq_devices::{StreamFault, Watched};
use jq_script::{Host, serve};
use jq_starts::Starts;
use std::alloc::{AllocError, Global};
use std::process::Abort;
use std::rt::HostRuntime;
use std::test::Fail;

// A line of a script, its answer, and what the answer tells besides with `follow`.
type Line = (&'static str, &'static str, &'static str);

// A script over the inputs 1 and 2, which are printed at first. Its last line has no newline.
static LINES: [Line; 11] = [
    ("insert 9 1\n", "refused 20\n", ""),
    ("replace 0 [1\n", "refused 21\n", ""),
    ("insert 2 3\n", "ok 0\n", "out 4 0 2\n3\nerr 0 0 0\n"),
    ("show\n", "out 6\n1\n2\n3\n", ""),
    ("hello\n", "refused 0\n", ""),
    ("filter 12 / (. + 2)\n", "ok 5\n", QUOTIENTS),
    ("errors\n", ERRORS, ""),
    ("filter . +\n", "refused 11\n", ""),
    (
        "filter . * 10\n",
        "ok 0\n",
        "out 0 4 9\n10\n20\n30\nerr 0 33 0\n",
    ),
    (
        "move 0 2\n",
        "ok 0\n",
        "out 0 3 0\nerr 0 0 0\nout 6 0 3\n10\nerr 0 0 0\n",
    ),
    ("status", "status 0\n", ""),
];

const QUOTIENTS: &str = "out 0 6 4\n4\n3\nerr 0 0 33\njq: error: quotient is not whole\n";

const ERRORS: &str = "err 33\njq: error: quotient is not whole\n";

// How often the script starts filters: 2 inputs first, then 1 more, 3 for each of two filters, and 1 for the move.
const STARTS: u64 = 10;

fn script(alloc: Global) -> Result<String, AllocError> {
    let mut script = String::new(alloc);
    for (line, _, _) in &LINES {
        script.push_str(*line)?;
    }
    Ok(script)
}

// The answers to the lines that end in the first `count` bytes. Without a newline a line ends where the whole script was read.
fn answers(
    alloc: Global,
    follow: bool,
    (count, is_whole): (usize, bool),
) -> Result<String, AllocError> {
    let mut answers = String::new(alloc);
    let mut end = 0_usize;
    for (line, answer, changes) in &LINES {
        end = end.saturating_add(line.len());
        if end <= count && (is_whole || line.ends_with('\n')) {
            answers.push_str(*answer)?;
            answers.push_str(if follow { *changes } else { "" })?;
        }
    }
    Ok(answers)
}

/// A session over the inputs 1 and 2, which prints them.
pub(crate) fn host(rt: &HostRuntime) -> Result<Host, Fail> {
    let session = started(rt, "", ".", numbers(rt.alloc(), 2)?)?;
    Ok(Host::new(session, Starts::new(rt)))
}

// The filters of a session were started so often.
fn check_starts(rt: &impl Abort, host: Host, want: u64) {
    let (starts, spare) = host.into_starts();
    assert_eq!(rt; starts.count().checked_add(spare.count()), Some(want));
}

// Serves the script from a reader to a writer, both of which may fail.
fn served(
    rt: &(impl Abort + AllocGlobal),
    session: Host,
    follow: bool,
    input: &mut Watched<Bytes<'_>>,
    output: &mut Watched<Kept>,
) -> Result<(), StreamFault> {
    let mut host = session;
    let result = serve(rt.alloc(), follow, &mut host, input, output);
    if result.is_ok() {
        check_starts(rt, host, STARTS);
    }
    result
}

// ---- readers

// The reader returns `most` bytes in a call, and fails at the call of number `fails`, if there is one.
fn check_reader(
    rt: &(impl Abort + AllocGlobal),
    session: Host,
    script: &str,
    follow: bool,
    (most, fails): (usize, usize),
) -> Result<(), Fail> {
    let alloc = rt.alloc();
    let mut input = Watched::new(Bytes::new(script.as_bytes(), most, fails));
    let mut output = Watched::new(Kept::new(alloc, usize::MAX, 0));
    let result = served(rt, session, follow, &mut input, &mut output);

    // The call after the one that returns no bytes is never made.
    let is_made = fails.saturating_sub(2).saturating_mul(most) < script.len();
    let count = fails.saturating_sub(1).saturating_mul(most);
    let read = if is_made {
        (count, false)
    } else {
        (script.len(), true)
    };
    let want = answers(alloc, follow, read)?;
    let named = format!(in alloc; "{follow}: {most} bytes a call, call {fails} fails")?;
    let call = if is_made { Some(fails) } else { None };
    check_read(rt, named.as_str(), result, (&input, call));
    assert_eq!(rt; output.device().bytes(), want.as_bytes(), "{named}");
    assert_eq!(rt; output.failures(), 0, "{named}");
    Ok(())
}

// The reader failed at the call of this number, which was the last, or at none.
fn check_read(
    rt: &(impl Abort + AllocGlobal),
    named: &str,
    ended: Result<(), StreamFault>,
    (input, call): (&Watched<Bytes<'_>>, Option<usize>),
) {
    if let Some(call) = call {
        let found = (ended, input.failures(), input.device().calls());
        assert_eq!(rt; found, (Err(StreamFault::Read), 1, call), "{named}");
    } else {
        assert_eq!(rt; (ended, input.failures()), (Ok(()), 0), "{named}");
    }
}

// The lines before the failure are answered, and the begun line is not.
#[test]
fn readers_that_fail(rt: HostRuntime) -> Result<(), Fail> {
    let script = script(rt.alloc())?;
    let calls = script.len().saturating_add(3);
    for most in [1, 5, 65_536] {
        for fails in 1..=calls {
            check_reader(
                &rt,
                host(&rt)?,
                script.as_str(),
                fails % 2 == 0,
                (most, fails),
            )?;
        }
        for follow in [false, true] {
            check_reader(&rt, host(&rt)?, script.as_str(), follow, (most, usize::MAX))?;
        }
    }
    Ok(())
}

// Buffers of spaces, and then an error: no answer, and no more calls. The line of 300 buffers is over the limit.
#[test]
fn readers_without_an_end(rt: HostRuntime) -> Result<(), Fail> {
    for fails in [9, 301] {
        for follow in [false, true] {
            let mut host = host(&rt)?;
            let mut input = Watched::new(Spaces::new(fails));
            let mut output = Watched::new(Kept::new(rt.alloc(), usize::MAX, 0));
            let result = serve(rt.alloc(), follow, &mut host, &mut input, &mut output);
            assert_eq!(&rt; result, Err(StreamFault::Read));
            assert_eq!(&rt; input.device().calls(), fails);
            assert_eq!(&rt; input.failures(), 1);
            assert_eq!(&rt; output.device().calls(), 0);
            check_starts(&rt, host, 2);
        }
    }
    Ok(())
}

// ---- writers

// However few bytes a reader gives and a writer takes, the answers are the same.
#[test]
fn few_bytes_in_a_call(rt: HostRuntime) -> Result<(), Fail> {
    let alloc = rt.alloc();
    let script = script(alloc)?;
    for follow in [false, true] {
        let want = answers(alloc, follow, (script.len(), true))?;
        for most in [1, 2, 5, 65_536] {
            for taken in [1, 2, usize::MAX] {
                let mut input = Watched::new(Bytes::new(script.as_bytes(), most, 0));
                let mut output = Watched::new(Kept::new(alloc, taken, 0));
                let result = served(&rt, host(&rt)?, follow, &mut input, &mut output);
                assert_eq!(&rt; result, Ok(()));
                assert_eq!(&rt; output.device().bytes(), want.as_bytes());
            }
        }
    }
    Ok(())
}

// The writer fails at the call of number `fails`. Returns whether there was such a call. If so, the lines that end before the last
// piece that was read are answered, and what is written of the later answers is a first part of them.
fn check_writer(
    rt: &(impl Abort + AllocGlobal),
    session: Host,
    script: &str,
    follow: bool,
    (most, fails): (usize, usize),
) -> Result<bool, Fail> {
    let alloc = rt.alloc();
    let mut input = Watched::new(Bytes::new(script.as_bytes(), most, 0));
    let mut output = Watched::new(Kept::new(alloc, usize::MAX, fails));
    let result = served(rt, session, follow, &mut input, &mut output);
    if output.device().calls() < fails {
        assert_eq!(rt; result, Ok(()));
        return Ok(false);
    }
    let named = format!(in alloc; "{follow}: {most} bytes a call, call {fails} fails")?;
    check_write(rt, named.as_str(), result, (&output, fails));
    assert_eq!(rt; input.failures(), 0, "{named}");
    let (given, written) = (input.device().given(), output.device().bytes());
    let before = (given.saturating_sub(most), false);
    let all = (given, given == script.len());
    assert!(rt;
        is_between(alloc, follow, (before, all), written)?,
        "{named}"
    );
    Ok(true)
}

// The writer failed at the call of this number, which was the last.
fn check_write(
    rt: &(impl Abort + AllocGlobal),
    named: &str,
    ended: Result<(), StreamFault>,
    (output, call): (&Watched<Kept>, usize),
) {
    let found = (ended, output.failures(), output.device().calls());
    assert_eq!(rt; found, (Err(StreamFault::Write), 1, call), "{named}");
}

// Whether what is written begins with the first of these answers, and is a first part of the second.
fn is_between(
    alloc: Global,
    follow: bool,
    (before, all): ((usize, bool), (usize, bool)),
    written: &[u8],
) -> Result<bool, AllocError> {
    let (before, all) = (
        answers(alloc, follow, before)?,
        answers(alloc, follow, all)?,
    );
    Ok(written.starts_with(before.as_bytes()) && all.as_bytes().starts_with(written))
}

// Each call of the writer fails in turn. There is one for each answer at least, and one for each flush.
#[test]
fn writers_that_fail(rt: HostRuntime) -> Result<(), Fail> {
    let script = script(rt.alloc())?;
    for follow in [false, true] {
        for most in [1, 65_536] {
            let mut calls = 0;
            for fails in 1..1_000 {
                if !check_writer(&rt, host(&rt)?, script.as_str(), follow, (most, fails))? {
                    break;
                }
                calls = fails;
            }
            assert!(&rt; calls >= 2 * LINES.len() && calls < 100, "{calls} calls");
        }
    }
    Ok(())
}

// A write of no bytes is a failure, and is not tried again. The first line alone was read if the reader gives one byte a call.
#[test]
fn writers_that_take_nothing(rt: HostRuntime) -> Result<(), Fail> {
    let script = script(rt.alloc())?;
    for (most, given) in [(1, LINES[0].0.len()), (65_536, script.len())] {
        for follow in [false, true] {
            let mut input = Watched::new(Bytes::new(script.as_bytes(), most, 0));
            let mut output = Watched::new(Kept::new(rt.alloc(), 0, 0));
            let result = served(&rt, host(&rt)?, follow, &mut input, &mut output);
            assert_eq!(&rt; result, Err(StreamFault::Write));
            assert_eq!(&rt; output.device().calls(), 1);
            assert_eq!(&rt; input.device().given(), given);
        }
    }
    Ok(())
}
