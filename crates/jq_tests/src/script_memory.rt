// Scripts that are refused memory (tests/growth.py refuses each allocation in turn). An edit, a move or another filter may then
// be refused with 40, and the later answers are those of the session without it; or the script ends, since an answer needs memory.
use crate::fakes::{Bytes, Compared};
use crate::memory::mark;
use crate::scripts::host;
use jq_devices::{StreamFault, Watched, Write};
use jq_script::{Host, serve};
use std::alloc::Global;
use std::io;
use std::process::Abort;
use std::test::Fail;

// A writer that takes no memory: it compares what is written with two texts.
#[derive(Drop)]
struct EitherOf<'a> {
    first: Compared<'a>,
    second: Compared<'a>,
}

impl<'a> EitherOf<'a> {
    fn new((first, second): (&'a str, &'a str)) -> EitherOf<'a> {
        EitherOf {
            first: Compared::new(first),
            second: Compared::new(second),
        }
    }
}

impl Write for EitherOf<'_> {
    fn write(&mut self, buf: &[u8]) -> io::Result<usize> {
        self.first.write(buf)?;
        self.second.write(buf)
    }

    fn flush(&mut self) -> io::Result<()> {
        Ok(())
    }
}

fn serve_to<'a>(
    alloc: Global,
    follow: bool,
    host: &mut Host,
    script: &str,
    wanted: (&'a str, &'a str),
) -> (Result<(), StreamFault>, EitherOf<'a>) {
    let mut input = Watched::new(Bytes::new(script.as_bytes(), usize::MAX, 0));
    let mut output = Watched::new(EitherOf::new(wanted));
    let result = serve(alloc, follow, host, &mut input, &mut output);
    (result, output.into_device())
}

// The output, asked for again if memory runs out.
fn shown_again<'a>(
    alloc: Global,
    host: &mut Host,
    wanted: (&'a str, &'a str),
) -> Result<EitherOf<'a>, StreamFault> {
    let (result, output) = serve_to(alloc, false, host, "show\n", wanted);
    if result.is_ok() {
        return Ok(output);
    }
    let (result, output) = serve_to(alloc, false, host, "show\n", wanted);
    result?;
    Ok(output)
}

// A script with one edit, move or filter. Of each pair the first is what comes if that line is accepted, and the second if memory
// runs out for it: the answers to the script, and then the session's output.
#[derive(Clone, Copy)]
struct Row {
    script: &'static str,
    answers: (&'static str, &'static str),
    shown: (&'static str, &'static str),
}

fn check(
    rt: &(impl Abort + AllocGlobal),
    host: &mut Host,
    follow: bool,
    row: &Row,
) -> Result<(), Fail> {
    let alloc = rt.alloc();
    let mark = mark(alloc)?;
    let (result, told) = serve_to(alloc, follow, host, row.script, row.answers);
    match result {
        Ok(()) => assert!(rt;
            told.first.is_whole() || told.second.is_whole(),
            "{}",
            row.script
        ),
        Err(fault) => {
            assert_eq!(rt; fault, StreamFault::NoMemory, "{}", row.script);
            assert!(rt;
                told.first.is_front() || told.second.is_front(),
                "{}",
                row.script
            );
        }
    }
    let shown = shown_again(alloc, host, row.shown)?;
    check_shown(rt, (&told, &shown), row);
    assert!(rt; mark.is_empty());
    Ok(())
}

// The output is that of one of the two, and fits the answers.
fn check_shown(rt: &impl Abort, (told, shown): (&EitherOf<'_>, &EitherOf<'_>), row: &Row) {
    let (is_accepted, is_refused) = (shown.first.is_whole(), shown.second.is_whole());
    assert!(rt; is_accepted || is_refused, "{}", row.script);
    assert!(rt; is_refused || told.first.is_front(), "{}", row.script);
    assert!(rt; is_accepted || told.second.is_front(), "{}", row.script);
}

#[test]
fn an_edit(rt: HostRuntime) -> Result<(), Fail> {
    let row = Row {
        script: "insert 9 1\nreplace 0 [1\ninsert 2 3\nshow\nhello",
        answers: (
            "refused 20\nrefused 21\nok 0\nout 6\n1\n2\n3\nrefused 0\n",
            "refused 20\nrefused 21\nrefused 40\nout 4\n1\n2\nrefused 0\n",
        ),
        shown: ("out 6\n1\n2\n3\n", "out 4\n1\n2\n"),
    };
    check(&rt, &mut host(&rt)?, false, &row)
}

#[test]
fn a_move(rt: HostRuntime) -> Result<(), Fail> {
    let row = Row {
        script: "move 0 1\nerrors\n",
        answers: (
            "ok 0\nout 0 2 0\nerr 0 0 0\nout 2 0 2\n1\nerr 0 0 0\nerr 0\n",
            "refused 40\nerr 0\n",
        ),
        shown: ("out 4\n2\n1\n", "out 4\n1\n2\n"),
    };
    check(&rt, &mut host(&rt)?, true, &row)
}

#[test]
fn another_filter(rt: HostRuntime) -> Result<(), Fail> {
    let row = Row {
        script: "filter . * 10\nstatus\n",
        answers: (
            "ok 0\nout 0 4 6\n10\n20\nerr 0 0 0\nstatus 0\n",
            "refused 40\nstatus 0\n",
        ),
        shown: ("out 6\n10\n20\n", "out 4\n1\n2\n"),
    };
    check(&rt, &mut host(&rt)?, true, &row)
}
