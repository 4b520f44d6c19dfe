// The first answers of an engine, of runs that end and of runs that do not.
use crate::starting::compile_under;
use jq_engine::{Engine, Turn};
use jq_starts::Starts;
use jq_state::inputs::Inputs;
use jq_state::next::Stop;
use jq_transitions::Ending;
use jv_data::{NoMemory, Val};
use jv_text::to_compact_string;
use std::alloc::Global;
use std::process::Abort;
use std::test::Fail;

/// An output as its text, and every other answer in words.
pub(crate) fn shown(alloc: Global, turn: &Turn) -> Result<String, NoMemory> {
    let words = match turn {
        Turn::Output(value) => return to_compact_string(alloc, value),
        Turn::End(Ending::Raised(value)) => {
            let text = to_compact_string(alloc, value)?;
            return Ok(format!(in alloc; "raised {text}")?);
        }
        Turn::End(Ending::Done) => "done",
        Turn::End(Ending::Broken(_)) => "broken",
        Turn::End(Ending::Stopped(Stop::Deep)) => "deep",
        Turn::End(Ending::Stopped(Stop::Halted(_))) => "halted",
        Turn::NoMemory => "no memory",
    };
    Ok(String::from_str(alloc, words)?)
}

/// What `inputs` returns where there is none.
pub(crate) fn no_inputs(alloc: Global) -> Inputs {
    Inputs {
        values: Vec::new(alloc),
        fault: None,
    }
}

// The first answers of an engine that runs a filter on null, up to this depth of calls.
fn check(
    rt: &(impl Abort + AllocGlobal),
    starts: &mut Starts,
    (filter, depth): (&str, u32),
    answers: &[&str],
) -> Result<(), Fail> {
    let alloc = rt.alloc();
    let compiled = compile_under(alloc, "-n", filter)?;
    let runner = compiled.runner();
    let mut engine = Engine::start(
        alloc,
        starts.started(),
        runner.tree,
        runner.bindings,
        no_inputs(alloc),
        Val::Null,
        depth,
    )?;
    check_answers(rt, filter, &mut engine, answers)
}

fn check_answers(
    rt: &(impl Abort + AllocGlobal),
    filter: &str,
    engine: &mut Engine<'_>,
    answers: &[&str],
) -> Result<(), Fail> {
    for answer in answers {
        let found = shown(rt.alloc(), &engine.next())?;
        assert_eq!(rt; found.as_str(), *answer, "{filter}");
    }
    Ok(())
}

static ENDLESS: [(&str, [&str; 3]); 12] = [
    ("range(0; 9223372036854775807)", ["0", "1", "2"]),
    ("range(9223372036854775807) | . * 2", ["0", "2", "4"]),
    ("1 | repeat(1)", ["1", "1", "1"]),
    ("recurse([.])", ["null", "[null]", "[[null]]"]),
    ("def f: ., (. + 1 | f); 0 | f", ["0", "1", "2"]),
    ("0 | while(true; . + 3)", ["0", "3", "6"]),
    (
        "foreach range(9223372036854775807) as $x (0; . + $x)",
        ["0", "1", "3"],
    ),
    (
        "range(9223372036854775807) as $x | {a: $x}",
        ["{\"a\":0}", "{\"a\":1}", "{\"a\":2}"],
    ),
    ("path(recurse(.a))", ["[]", "[\"a\"]", "[\"a\",\"a\"]"]),
    ("first(range(1; 3)), (4 | repeat(4))", ["1", "4", "4"]),
    ("5 | try repeat(5) catch 6", ["5", "5", "5"]),
    (
        "label $o | 7 | repeat(7) | ., if . == 8 then break $o else empty end",
        ["7", "7", "7"],
    ),
];

// Each output comes before the next one is computed, so a run needs no end.
#[test]
fn runs_without_an_end(rt: HostRuntime) -> Result<(), Fail> {
    let mut starts = Starts::new(&rt);
    for (filter, answers) in &ENDLESS {
        check(&rt, &mut starts, (*filter, 10_000), answers)?;
    }
    Ok(())
}

static ENDING: [(&str, [&str; 4]); 8] = [
    ("1, 2", ["1", "2", "done", "done"]),
    (
        "limit(2; range(9223372036854775807))",
        ["0", "1", "done", "done"],
    ),
    (
        "[7 | limit(2; repeat(7))], 8",
        ["[7,7]", "8", "done", "done"],
    ),
    (
        "first(range(9223372036854775807)), 3",
        ["0", "3", "done", "done"],
    ),
    ("label $o | 1, 2, break $o, 3", ["1", "2", "done", "done"]),
    (
        "1, error(\"x\"), 2",
        ["1", "raised \"x\"", "raised \"x\"", "raised \"x\""],
    ),
    ("[2], halt, 3", ["[2]", "halted", "halted", "halted"]),
    (
        "1, ({a: 2} | halt_error), 3",
        ["1", "halted", "halted", "halted"],
    ),
];

// After the last output comes the ending, and then the ending again.
#[test]
fn runs_with_an_end(rt: HostRuntime) -> Result<(), Fail> {
    let mut starts = Starts::new(&rt);
    for (filter, answers) in &ENDING {
        check(&rt, &mut starts, (*filter, 10_000), answers)?;
    }
    check(
        &rt,
        &mut starts,
        ("1 | repeat(1)", 4),
        &["1", "1", "1", "deep", "deep"],
    )
}
