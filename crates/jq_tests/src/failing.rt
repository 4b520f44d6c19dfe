// Runs whose devices fail, or give and take few bytes: what is written, which fault comes, and how often a device is called.
use crate::fakes::{Bytes, Kept, Spaces};
use crate::starting::compile_under;
use jq_devices::{Read, StreamFault, Watched};
use jq_filters::Filter;
use jq_starts::Starts;
use jq_stream::{Outputs, Streams, run_stream};
use std::alloc::{AllocError, Global};
use std::process::Abort;
use std::test::Fail;

/// A command with compact output, and what it writes.
#[derive(Clone, Copy)]
pub(crate) struct Row {
    pub(crate) flag: &'static str,
    pub(crate) filter: &'static str,
    pub(crate) text: &'static [u8],
    pub(crate) out: &'static str,
    pub(crate) err: &'static str,
    pub(crate) status: u8,
}

pub(crate) static ROWS: [Row; 6] = [
    Row {
        flag: "",
        filter: ".",
        text: b"1 2 1.5 3",
        out: "1\n2\n",
        err: "jq: error: input at byte 4: number is not a 64-bit whole number\n",
        status: 2,
    },
    Row {
        flag: "",
        filter: ".a",
        text: b"{\"a\":1} 5 {\"a\":2}",
        out: "1\n2\n",
        err: "jq: error: Cannot index number with \"a\"\n",
        status: 5,
    },
    Row {
        flag: "-e",
        filter: ".a",
        text: b"{\"a\":null}",
        out: "null\n",
        err: "",
        status: 1,
    },
    Row {
        flag: "-n",
        filter: "inputs",
        text: b"[1] x",
        out: "[1]\n",
        err: "jq: error: input at byte 4: malformed text\n",
        status: 5,
    },
    Row {
        flag: "-s",
        filter: ".",
        text: b"1 2 x",
        out: "",
        err: "jq: error: input at byte 4: malformed text\n",
        status: 2,
    },
    Row {
        flag: "-s",
        filter: "., .[0], error",
        text: b"{\"a\":\"x\"} \"b\"",
        out: "[{\"a\":\"x\"},\"b\"]\n{\"a\":\"x\"}\n",
        err: "jq: error (not a string): [{\"a\":\"x\"},\"b\"]\n",
        status: 5,
    },
];

// Outputs that take everything.
fn sound(alloc: Global) -> Outputs<Kept, Kept> {
    let output = Kept::new(alloc, usize::MAX, 0);
    Outputs::new(output, Kept::new(alloc, usize::MAX, 0))
}

// The outputs hold these bytes.
fn check_outputs(
    rt: &(impl Abort + AllocGlobal),
    outputs: &Outputs<Kept, Kept>,
    named: &str,
    (out, err): (&str, &str),
) {
    let (output, errors) = (outputs.output.device(), outputs.errors.device());
    let found = (output.bytes(), errors.bytes());
    assert_eq!(rt; found, (out.as_bytes(), err.as_bytes()), "{named}");
}

fn run<R: Read>(
    alloc: Global,
    starts: &mut Starts,
    compiled: &Filter,
    streams: &mut Streams<R, Kept, Kept>,
) -> Result<u8, StreamFault> {
    run_stream(
        alloc,
        &compiled.runner(),
        compiled.settings(),
        starts,
        streams,
    )
}

// ---- readers

const TEXT: &[u8] = b"{\"a\":1} 5 [2]\"x\"";

// After how many bytes each value of the text is whole, and how it is printed.
static WHOLE: [(usize, &str); 4] = [(7, "{\"a\":1}"), (10, "5"), (13, "[2]"), (16, "\"x\"")];

// What a command writes that prints each value, or the array of all, where so many bytes of the text were read.
fn wanted(alloc: Global, flag: &str, count: usize) -> Result<String, Fail> {
    let is_array = !flag.is_empty();
    let mut wanted = String::from_str(alloc, if is_array { "[" } else { "" })?;
    for (i, (end, value)) in WHOLE.iter().enumerate() {
        if *end <= count {
            if is_array && i > 0 {
                wanted.push(',')?;
            }
            wanted.push_str(*value)?;
            if !is_array {
                wanted.push('\n')?;
            }
        }
    }
    if is_array {
        wanted.push_str("]\n")?;
    }
    Ok(wanted)
}

// The reader returns `most` bytes in a call, and fails at the call of number `fails`, if there is one.
fn check_reader(
    rt: &(impl Abort + AllocGlobal),
    starts: &mut Starts,
    (flag, compiled): (&str, &Filter),
    (most, fails): (usize, usize),
) -> Result<(), Fail> {
    let mut streams = Streams::new(Bytes::new(TEXT, most, fails), sound(rt.alloc()));
    let result = run(rt.alloc(), starts, compiled, &mut streams);

    // The call after the one that returns no bytes is never made.
    let is_made = fails.saturating_sub(2).saturating_mul(most) < TEXT.len();
    let before = fails.saturating_sub(1).saturating_mul(most);
    let count = if is_made { before } else { TEXT.len() };
    let named = format!(in rt.alloc(); "{flag}: {most} bytes a call, call {fails} fails")?;
    let call = if is_made { Some(fails) } else { None };
    check_read(rt, named.as_str(), result, (&streams.input, call));
    let out = wanted(rt.alloc(), flag, count)?;
    check_outputs(rt, &streams.outputs, named.as_str(), (out.as_str(), ""));
    Ok(())
}

// The reader failed at the call of this number, which was the last, or at none.
fn check_read(
    rt: &(impl Abort + AllocGlobal),
    named: &str,
    ended: Result<u8, StreamFault>,
    (input, call): (&Watched<Bytes<'_>>, Option<usize>),
) {
    if let Some(call) = call {
        let found = (ended, input.failures(), input.device().calls());
        assert_eq!(rt; found, (Err(StreamFault::Read), 1, call), "{named}");
    } else {
        assert_eq!(rt; (ended, input.failures()), (Ok(0), 0), "{named}");
    }
}

// The values that are whole before the call that fails are answered, and it is the last call.
#[test]
fn readers_that_fail(rt: HostRuntime) -> Result<(), Fail> {
    let mut starts = Starts::new(&rt);
    for (flag, filter) in [("", "."), ("-n", "[inputs]"), ("-s", ".")] {
        let compiled = compile_under(rt.alloc(), flag, filter)?;
        for most in [1, 2, 3, 7, 65_536] {
            for fails in 1..=19 {
                check_reader(&rt, &mut starts, (flag, &compiled), (most, fails))?;
            }
        }
    }
    Ok(())
}

// A run on null without `inputs` makes no call of a reader.
#[test]
fn readers_that_are_not_read(rt: HostRuntime) -> Result<(), Fail> {
    let mut starts = Starts::new(&rt);
    let compiled = compile_under(rt.alloc(), "-n", "1")?;
    let mut streams = Streams::new(Bytes::new(TEXT, 1, 1), sound(rt.alloc()));
    let result = run(rt.alloc(), &mut starts, &compiled, &mut streams);
    assert_eq!(rt; result, Ok(0));
    assert_eq!(rt; streams.input.device().calls(), 0);
    check_outputs(&rt, &streams.outputs, "-n 1", ("1\n", ""));
    Ok(())
}

// Eight buffers of spaces, and then an error: no text, and no more calls.
#[test]
fn readers_without_an_end(rt: HostRuntime) -> Result<(), Fail> {
    let mut starts = Starts::new(&rt);
    for (flag, filter, out) in [
        ("", ".", ""),
        ("-n", "[inputs]", "[]\n"),
        ("-s", ".", "[]\n"),
    ] {
        let compiled = compile_under(rt.alloc(), flag, filter)?;
        let mut streams = Streams::new(Spaces::new(9), sound(rt.alloc()));
        let result = run(rt.alloc(), &mut starts, &compiled, &mut streams);
        assert_eq!(rt; result, Err(StreamFault::Read), "{flag}");
        assert_eq!(rt; streams.input.device().calls(), 9, "{flag}");
        check_outputs(&rt, &streams.outputs, flag, (out, ""));
    }
    Ok(())
}

// ---- writers

fn run_row(
    alloc: Global,
    starts: &mut Starts,
    (row, compiled): (&Row, &Filter),
    most: usize,
    outputs: Outputs<Kept, Kept>,
) -> (Result<u8, StreamFault>, Outputs<Kept, Kept>) {
    let mut streams = Streams::new(Bytes::new(row.text, most, 0), outputs);
    let result = run(alloc, starts, compiled, &mut streams);
    (result, streams.outputs)
}

// However few bytes a reader gives and a writer takes, the same is written.
#[test]
fn few_bytes_in_a_call(rt: HostRuntime) -> Result<(), Fail> {
    let alloc = rt.alloc();
    let mut starts = Starts::new(&rt);
    for row in &ROWS {
        let compiled = compile_under(alloc, row.flag, row.filter)?;
        for most in [1, 2, 5, 65_536] {
            for taken in [1, 2, usize::MAX] {
                let errors = Kept::new(alloc, taken, 0);
                let outputs = Outputs::new(Kept::new(alloc, taken, 0), errors);
                let (result, outputs) = run_row(
                    alloc,
                    &mut starts,
                    (row, &compiled),
                    most,
                    outputs,
                );
                assert_eq!(rt; result, Ok(row.status), "{}", row.filter);
                check_outputs(&rt, &outputs, row.filter, (row.out, row.err));
            }
        }
    }
    Ok(())
}

// A writer failed at its last call, the other did not, and each holds a first part of what is wanted.
fn check_failed(
    rt: &(impl Abort + AllocGlobal),
    row: &Row,
    fails: usize,
    (failed, sound): (&Watched<Kept>, &Watched<Kept>),
    (wanted, other): (&str, &str),
) {
    let found = (failed.device().calls(), failed.failures(), sound.failures());
    assert_eq!(rt; found, (fails, 1, 0), "{}", row.filter);
    let front = failed.device().bytes();
    assert!(rt; wanted.as_bytes().starts_with(front), "{}", row.filter);
    let front = sound.device().bytes();
    assert!(rt; other.as_bytes().starts_with(front), "{}", row.filter);
}

// The output fails at a call, or the errors do (0: none does).
fn check_writer(
    rt: &(impl Abort + AllocGlobal),
    starts: &mut Starts,
    (row, compiled): (&Row, &Filter),
    most: usize,
    (out, err): (usize, usize),
) {
    let alloc = rt.alloc();
    let errors = Kept::new(alloc, usize::MAX, err);
    let outputs = Outputs::new(Kept::new(alloc, usize::MAX, out), errors);
    let (result, outputs) = run_row(alloc, starts, (row, compiled), most, outputs);
    assert_eq!(rt; result, Err(StreamFault::Write), "{}", row.filter);
    let (output, errors) = (&outputs.output, &outputs.errors);
    if err == 0 {
        check_failed(rt, row, out, (output, errors), (row.out, row.err));
    } else {
        check_failed(rt, row, err, (errors, output), (row.err, row.out));
    }
}

// The output fails at each of its calls, and then the errors at each of theirs.
fn check_writers(
    rt: &(impl Abort + AllocGlobal),
    starts: &mut Starts,
    (row, compiled): (&Row, &Filter),
    most: usize,
) -> Result<(), Fail> {
    let alloc = rt.alloc();
    let (result, outputs) = run_row(alloc, starts, (row, compiled), most, sound(alloc));
    let _status = result?;
    let (out_calls, err_calls) = (
        outputs.output.device().calls(),
        outputs.errors.device().calls(),
    );
    assert!(rt; out_calls > 0 || row.out.is_empty(), "{}", row.filter);
    assert!(rt; err_calls > 0 || row.err.is_empty(), "{}", row.filter);
    for fails in 1..=out_calls {
        check_writer(rt, starts, (row, compiled), most, (fails, 0));
    }
    for fails in 1..=err_calls {
        check_writer(rt, starts, (row, compiled), most, (0, fails));
    }
    Ok(())
}

#[test]
fn writers_that_fail(rt: HostRuntime) -> Result<(), Fail> {
    let mut starts = Starts::new(&rt);
    for row in &ROWS {
        let compiled = compile_under(rt.alloc(), row.flag, row.filter)?;
        for most in [1, 65_536] {
            check_writers(&rt, &mut starts, (row, &compiled), most)?;
        }
    }
    Ok(())
}

// A write of no bytes is a failure, and is not tried again.
#[test]
fn writers_that_take_nothing(rt: HostRuntime) -> Result<(), Fail> {
    let alloc = rt.alloc();
    let mut starts = Starts::new(&rt);
    for row in &ROWS {
        let compiled = compile_under(alloc, row.flag, row.filter)?;
        let outputs = Outputs::new(Kept::new(alloc, 0, 0), Kept::new(alloc, 0, 0));
        let (result, outputs) = run_row(alloc, &mut starts, (row, &compiled), 65_536, outputs);
        assert_eq!(rt; result, Err(StreamFault::Write), "{}", row.filter);
        check_outputs(&rt, &outputs, row.filter, ("", ""));
        let calls = outputs.output.device().calls();
        assert!(rt; calls <= 1, "{}: {calls} calls", row.filter);
        let calls = outputs.errors.device().calls();
        assert!(rt; calls <= 1, "{}: {calls} calls", row.filter);
    }
    Ok(())
}

// Lines of one digit.
fn lines(alloc: Global) -> Result<Vec<u8>, AllocError> {
    let mut lines = vec![in alloc; b'1'; 2_000_000]?;
    for (i, byte) in lines.iter_mut().enumerate() {
        if i % 2 == 1 {
            *byte = b'\n';
        }
    }
    Ok(lines)
}

// What is answered before a write fails is at most one piece of the input.
#[test]
fn lines_for_a_writer_that_fails(rt: HostRuntime) -> Result<(), Fail> {
    let alloc = rt.alloc();
    let mut starts = Starts::new(&rt);
    let lines = lines(alloc)?;
    let compiled = compile_under(alloc, "", ".")?;
    let input = Bytes::new(lines.as_slice(), usize::MAX, 0);
    let errors = Kept::new(alloc, usize::MAX, 0);
    let outputs = Outputs::new(Kept::new(alloc, usize::MAX, 1), errors);
    let mut streams = Streams::new(input, outputs);
    let result = run(alloc, &mut starts, &compiled, &mut streams);
    assert_eq!(rt; result, Err(StreamFault::Write));
    let given = streams.input.device().given();
    assert!(rt; given <= 65_536, "{given} bytes were read");
    check_outputs(&rt, &streams.outputs, "lines", ("", ""));
    Ok(())
}
