// Calls that are refused memory, and are made again. For each allocation after a test's mark tests/growth.py runs the test once
// and refuses this allocation. Then the call answers as it does with enough memory, or that memory ran out, and the call made
// again answers as if the refused one had not been made.
use crate::failing::{ROWS, Row};
use crate::fakes::{Bytes, Compared};
use crate::programs::answer;
use crate::starting::{compile_under, numbers, options, started as session_of};
use crate::turns::{no_inputs, shown};
use jq_cli::{Config, UsageFault, config_of};
use jq_devices::{StreamFault, Watched};
use jq_engine::{Engine, Turn};
use jq_filters::Filter;
use jq_session::{Follow, Refusal, Session};
use jq_starts::Starts;
use jq_stream::{Outputs, Streams, run_stream};
use jv_data::{NoMemory, Val};
use std::alloc::{AllocError, Global};
use std::process::Abort;
use std::test::Fail;

// tests/refuse_each.c counts from an allocation of so many bytes.
const MARK: usize = 424_243;

/// Every allocation after this one may be refused.
#[inline(never)]
pub(crate) fn mark(alloc: Global) -> Result<Vec<u8>, AllocError> {
    Vec::with_capacity(alloc, MARK)
}

// ---- compiling

// The plan of a filter or its refusal, again if memory runs out.
fn answer_again(alloc: Global, flag: &str, filter: &str) -> Result<String, AllocError> {
    if let Ok(found) = answer(alloc, flag, filter) {
        if found.as_str() != "NoMemory" {
            return Ok(found);
        }
    }
    answer(alloc, flag, filter)
}

static COMPILED: [(&str, &str, &str); 3] = [
    (
        "-n",
        "def f($n; g): label $o | (if $n > 0 then f($n - 1; break $o) else g end), $n; [f(1; empty)]",
        "Whole",
    ),
    (
        "-n",
        "reduce inputs as [$x, {a: $y}] (0; . + $x)",
        "Fold, reads",
    ),
    (
        "",
        "\"a\\(f(1; 2))\"",
        "Undefined(Function { name: \"f\", arity: 2 })",
    ),
];

#[test]
fn compiling(rt: HostRuntime) -> Result<(), Fail> {
    let alloc = rt.alloc();
    let mark = mark(alloc)?;
    for row in &COMPILED {
        let (flag, filter, want) = *row;
        let found = answer_again(alloc, flag, filter)?;
        assert_eq!(rt; found.as_str(), want, "{filter}");
    }
    assert!(rt; mark.is_empty());
    Ok(())
}

static REFUSED: [(&str, &str, &str); 4] = [
    ("", ". as [$x] | ~", "Lex { at: 12 }"),
    ("", "[.a, {b: \"c\"}", "Syntax"),
    ("-n", "[inputs], inputs", "InputsPlace"),
    ("", "inputs", "InputsNeedNull"),
];

#[test]
fn refusing(rt: HostRuntime) -> Result<(), Fail> {
    let alloc = rt.alloc();
    let mark = mark(alloc)?;
    for row in &REFUSED {
        let (flag, filter, want) = *row;
        let found = answer_again(alloc, flag, filter)?;
        assert_eq!(rt; found.as_str(), want, "{filter}");
    }
    assert!(rt; mark.is_empty());
    Ok(())
}

// ---- engines

fn started<'p>(
    alloc: Global,
    starts: &mut Starts,
    compiled: &'p Filter,
    input: i64,
) -> Result<Engine<'p>, NoMemory> {
    let runner = compiled.runner();
    Engine::start(
        alloc,
        starts.started(),
        runner.tree,
        runner.bindings,
        no_inputs(alloc),
        Val::Num(input),
        runner.depth,
    )
}

// The same, again if memory runs out.
fn started_again<'p>(
    alloc: Global,
    starts: &mut Starts,
    compiled: &'p Filter,
    input: i64,
) -> Result<Engine<'p>, NoMemory> {
    match started(alloc, starts, compiled, input) {
        Ok(engine) => Ok(engine),
        Err(NoMemory) => started(alloc, starts, compiled, input),
    }
}

// The answer in words, again if there is no memory for them.
fn shown_again(alloc: Global, turn: &Turn) -> Result<String, NoMemory> {
    match shown(alloc, turn) {
        Ok(words) => Ok(words),
        Err(_) => shown(alloc, turn),
    }
}

// Whether the engine gives these answers. If not, it ran out of memory, and answers this from then on.
fn gives(
    rt: &(impl Abort + AllocGlobal),
    engine: &mut Engine<'_>,
    (filter, answers): (&str, &[&str]),
) -> Result<bool, Fail> {
    for answer in answers {
        let turn = engine.next();
        if matches!(&turn, Turn::NoMemory) {
            for _ in 0..2 {
                assert!(rt; matches!(&engine.next(), Turn::NoMemory), "{filter}");
            }
            return Ok(false);
        }
        let found = shown_again(rt.alloc(), &turn)?;
        assert_eq!(rt; found.as_str(), *answer, "{filter}");
    }
    Ok(true)
}

fn check_turns(
    rt: &(impl Abort + AllocGlobal),
    filter: &str,
    answers: &[&str],
    starts: &mut Starts,
) -> Result<(), Fail> {
    let alloc = rt.alloc();
    let compiled = compile_under(alloc, "-n", filter)?;
    let mark = mark(alloc)?;
    let mut engine = started_again(alloc, starts, &compiled, 1)?;
    if !gives(rt, &mut engine, (filter, answers))? {
        let mut another = started_again(alloc, starts, &compiled, 1)?;
        assert!(rt; gives(rt, &mut another, (filter, answers))?, "{filter}");
    }
    assert!(rt; mark.is_empty());
    Ok(())
}

#[test]
fn turns_of_arrays(rt: HostRuntime) -> Result<(), Fail> {
    let filter =
        "[limit(2; 1, 2, error(\"x\"))], (reduce range(0; 3) as $i (5; empty)), [foreach (1, 2) as $x (0; . + $x, . + 10; [$x, .])]";
    let answers = [
        "[1,2]",
        "null",
        "[[1,1],[1,10],[2,12],[2,20]]",
        "done",
        "done",
    ];
    check_turns(&rt, filter, &answers, &mut Starts::new(&rt))
}

#[test]
fn turns_of_strings(rt: HostRuntime) -> Result<(), Fail> {
    let filter = "\"\\(1, 2)-\\(3, 4)\", error([\"x\"])";
    let answers = [
        "\"1-3\"",
        "\"2-3\"",
        "\"1-4\"",
        "\"2-4\"",
        "raised [\"x\"]",
        "raised [\"x\"]",
    ];
    check_turns(&rt, filter, &answers, &mut Starts::new(&rt))
}

#[test]
fn turns_of_updates(rt: HostRuntime) -> Result<(), Fail> {
    let filter =
        "{a: 1} | .a += (1, 2), (.b.c |= 5), (try error({a: 7}) catch .a), (\"s\" | halt_error)";
    let answers = [
        "{\"a\":2}",
        "{\"a\":3}",
        "{\"a\":1,\"b\":{\"c\":5}}",
        "7",
        "halted",
        "halted",
    ];
    check_turns(&rt, filter, &answers, &mut Starts::new(&rt))
}

// ---- runs

// The run of a row, with all that it writes if it ends, and else with a first part.
fn run_row(
    rt: &(impl Abort + AllocGlobal),
    starts: &mut Starts,
    (row, compiled): (&Row, &Filter),
) -> Result<u8, StreamFault> {
    let outputs = Outputs::new(Compared::new(row.out), Compared::new(row.err));
    let mut streams = Streams::new(Bytes::new(row.text, 5, 0), outputs);
    let result = run_stream(
        rt.alloc(),
        &compiled.runner(),
        compiled.settings(),
        starts,
        &mut streams,
    );
    let (output, errors) = streams.outputs.into_devices();
    let are_front = (output.is_front(), errors.is_front());
    assert_eq!(rt; are_front, (true, true), "{}", row.filter);
    if result.is_ok() {
        let are_whole = (output.is_whole(), errors.is_whole());
        assert_eq!(rt; are_whole, (true, true), "whole of {}", row.filter);
    }
    result
}

#[test]
fn streams(rt: HostRuntime) -> Result<(), Fail> {
    let alloc = rt.alloc();
    let mut starts = Starts::new(&rt);
    let mut programs = Vec::new(alloc);
    for row in &ROWS {
        programs.push(compile_under(alloc, row.flag, row.filter)?)?;
    }
    let mark = mark(alloc)?;
    for (row, compiled) in ROWS.iter().zip(programs.iter()) {
        let mut result = run_row(&rt, &mut starts, (row, compiled));
        if result == Err(StreamFault::NoMemory) {
            result = run_row(&rt, &mut starts, (row, compiled));
        }
        assert_eq!(rt; result, Ok(row.status), "{}", row.filter);
    }
    assert!(rt; mark.is_empty());
    Ok(())
}

// ---- sessions

/// An edit: its name, its place, a number, and then the session's output, errors and status.
pub(crate) type Line = (&'static str, u64, i64, (&'static str, &'static str, u8));

fn edit(session: &mut Session, (name, k, number, _): Line) -> Result<Follow, Refusal> {
    match name {
        "insert" => session.insert(k, Val::Num(number)),
        "replace" => session.replace(k, Val::Num(number)),
        "remove" => session.remove(k),
        _ => session.append(Val::Num(number)),
    }
}

/// The session has this output, these errors and this status. Takes no memory.
pub(crate) fn check_session(
    rt: &impl Abort,
    session: &Session,
    (out, err, status): (&str, &str, u8),
) -> Result<(), Fail> {
    let mut output = Watched::new(Compared::new(out));
    let mut errors = Watched::new(Compared::new(err));
    session.write_out(&mut output)?;
    session.write_err(&mut errors)?;
    assert!(rt; output.into_device().is_whole(), "output {out}");
    assert!(rt; errors.into_device().is_whole(), "errors {err}");
    let found = (session.status(), session.out_len(), session.err_len());
    assert_eq!(rt; found, (status, out.len() as u128, err.len() as u128));
    Ok(())
}

// Makes each edit. One that finds no memory leaves the session as it was, and is made again.
fn check_edits(
    rt: &impl Abort,
    session: &mut Session,
    first: (&'static str, &'static str, u8),
    lines: &[Line],
) -> Result<(), Fail> {
    let mut before = first;
    for line in lines {
        let count = session.len();
        let mut answer = edit(session, *line);
        if let Err(Refusal::NoMemory) = &answer {
            assert_eq!(rt; session.len(), count, "{}", line.0);
            check_session(rt, session, before)?;
            answer = edit(session, *line);
        }
        let follow = answer?;
        assert_eq!(rt; follow.status, line.3.2, "{}", line.0);
        check_session(rt, session, line.3)?;
        before = line.3;
    }
    Ok(())
}

/// The same after the mark: the edits may be refused memory.
pub(crate) fn check_marked(
    rt: &(impl Abort + AllocGlobal),
    session: &mut Session,
    first: (&'static str, &'static str, u8),
    lines: &[Line],
) -> Result<(), Fail> {
    let mark = mark(rt.alloc())?;
    check_edits(rt, session, first, lines)?;
    assert!(rt; mark.is_empty());
    Ok(())
}

const QUOTIENT: &str = "jq: error: quotient is not whole\n";

static EACH: [Line; 5] = [
    ("insert", 0, 4, ("6\n3\n", QUOTIENT, 5)),
    ("replace", 0, 3, ("2\n6\n3\n", "", 0)),
    ("remove", 1, 0, ("2\n3\n", "", 0)),
    ("append", 0, 5, ("2\n3\n", QUOTIENT, 5)),
    ("insert", 1, 6, ("2\n1\n3\n", QUOTIENT, 5)),
];

static SUMS: [Line; 4] = [
    ("insert", 1, 10, ("[1,10,2]\n13\n", "", 0)),
    ("replace", 2, 20, ("[1,10,20]\n31\n", "", 0)),
    ("remove", 0, 0, ("[10,20]\n30\n", "", 0)),
    ("append", 0, 3, ("[10,20,3]\n33\n", "", 0)),
];

#[test]
fn edits_on_each_input(rt: HostRuntime) -> Result<(), Fail> {
    let alloc = rt.alloc();
    let mut session = session_of(&rt, "", "6 / .", numbers(alloc, 2)?)?;
    check_marked(&rt, &mut session, ("6\n3\n", "", 0), &EACH)
}

#[test]
fn edits_on_all_inputs(rt: HostRuntime) -> Result<(), Fail> {
    let alloc = rt.alloc();
    let mut session = session_of(&rt, "-s", "., add", numbers(alloc, 2)?)?;
    check_marked(&rt, &mut session, ("[1,2]\n3\n", "", 0), &SUMS)
}

#[test]
fn edits_on_null(rt: HostRuntime) -> Result<(), Fail> {
    let alloc = rt.alloc();
    let filter = "[inputs] | ., add";
    let mut session = session_of(&rt, "-n", filter, numbers(alloc, 2)?)?;
    check_marked(&rt, &mut session, ("[1,2]\n3\n", "", 0), &SUMS)
}

#[test]
fn edits_of_a_fold(rt: HostRuntime) -> Result<(), Fail> {
    let alloc = rt.alloc();
    let filter = "reduce inputs as $x ([]; . + [$x]) | ., add";
    let mut session = session_of(&rt, "-n", filter, numbers(alloc, 2)?)?;
    check_marked(&rt, &mut session, ("[1,2]\n3\n", "", 0), &SUMS)
}

// A start that finds no memory gives its count of starts back, and is made again with a filter and inputs of its own.
#[test]
fn starts_of_sessions(rt: HostRuntime) -> Result<(), Fail> {
    let alloc = rt.alloc();
    let starts = Starts::new(&rt);
    let (first, inputs) = (compile_under(alloc, "", "6 / .")?, numbers(alloc, 2)?);
    let (second, others) = (compile_under(alloc, "", "6 / .")?, numbers(alloc, 2)?);
    let mark = mark(alloc)?;
    let (options, others_options) = (options(alloc, ""), options(alloc, ""));
    let session = match Session::start(alloc, starts, options, first, inputs) {
        Ok(session) => session,
        Err(refused) => {
            assert_eq!(rt; refused.refusal, Refusal::NoMemory);
            match Session::start(alloc, refused.starts, others_options, second, others) {
                Ok(session) => session,
                Err(refused) => return Err(Fail::from(refused.refusal)),
            }
        }
    };
    check_session(&rt, &session, ("6\n3\n", "", 0))?;
    assert!(rt; mark.is_empty());
    Ok(())
}

// ---- words

fn words(alloc: Global, row: &str) -> Result<Vec<String>, AllocError> {
    let mut words = Vec::new(alloc);
    for word in row.split(' ') {
        words.push(String::from_str(alloc, word)?)?;
    }
    Ok(words)
}

// The configuration of the words in a row, again if memory runs out. Only one such call in a test, since it has the mark.
fn config_again(alloc: Global, row: &str) -> Result<Result<Config, UsageFault>, Fail> {
    let (first, second) = (words(alloc, row)?, words(alloc, row)?);
    let mark = mark(alloc)?;
    let config = match config_of(alloc, first) {
        Err(UsageFault::NoMemory) => config_of(alloc, second),
        answer => answer,
    };
    if mark.is_empty() {
        Ok(config)
    } else {
        Err("the mark has bytes")?
    }
}

fn check_words(rt: &(impl Abort + AllocGlobal), config: &Config) {
    assert_eq!(rt; config.filter.as_str(), ".");
    assert!(rt; config.options.null && !config.options.slurp && !config.live);
    assert_eq!(rt; config.options.depth, 7);
    assert_eq!(rt; config.files.len(), 2);
    assert_eq!(rt; config.files[0].as_str(), "a");
    assert_eq!(rt; config.files[1].as_str(), "b");
    assert_eq!(rt; config.options.vars.len(), 1);
    assert_eq!(rt; config.options.vars[0].0.as_str(), "x");
    let is_text = matches!(&config.options.vars[0].1, Val::Text(text) if text.as_str() == "5");
    assert!(rt; is_text);
}

#[test]
fn words_of_a_run(rt: HostRuntime) -> Result<(), Fail> {
    let config = config_again(rt.alloc(), "--arg x 5 -n --depth 7 . a b")??;
    check_words(&rt, &config);
    Ok(())
}

#[test]
fn words_of_no_run(rt: HostRuntime) -> Result<(), Fail> {
    let refused = config_again(rt.alloc(), "--argjson x 1 -n -s .")?;
    assert!(rt; matches!(&refused, Err(UsageFault::Usage)));
    Ok(())
}

#[test]
fn words_for_help(rt: HostRuntime) -> Result<(), Fail> {
    let refused = config_again(rt.alloc(), "-c --help")?;
    assert!(rt; matches!(&refused, Err(UsageFault::Help)));
    Ok(())
}
