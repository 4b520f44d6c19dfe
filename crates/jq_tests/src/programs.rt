// What is known of a program before it runs, and the fields of a refusal.
use jq_ast::{Referent, Tree};
use jq_syntax::{CompileFault, Options, compile};
use jv_data::Val;
use jv_text::Style;
use std::alloc::{AllocError, Global};
use std::process::Abort;
use std::test::Fail;

/// The options of a command with this flag, `-n`, `-s` or none, and the variable `$x` bound to 1 and then to 2.
fn options(alloc: Global, flag: &str) -> Result<Options, AllocError> {
    let mut vars = Vec::new(alloc);
    vars.push((String::from_str(alloc, "x")?, Val::Num(1)))?;
    vars.push((String::from_str(alloc, "x")?, Val::Num(2)))?;
    Ok(Options {
        null: flag == "-n",
        slurp: flag == "-s",
        exit: false,
        style: Style {
            compact: false,
            raw: false,
            join: false,
        },
        depth: 10_000,
        vars,
    })
}

/// The plan, and `reads` if the filter has `inputs`; or the refusal with the fields that it has.
pub(crate) fn answer(alloc: Global, flag: &str, filter: &str) -> Result<String, AllocError> {
    let (plan, reads) = match compile(alloc, filter, &options(alloc, flag)?) {
        Ok(program) => (program.plan(), program.reads()),
        Err(fault) => return format!(in alloc; "{fault:?}"),
    };
    let told = if reads { ", reads" } else { "" };
    format!(in alloc; "{plan:?}{told}")
}

/// Whether a filter under this flag has this plan, or is refused so.
fn check(
    rt: &(impl Abort + AllocGlobal),
    flag: &str,
    filter: &str,
    want: &str,
) -> Result<(), Fail> {
    let found = answer(rt.alloc(), flag, filter)?;
    assert!(rt;
        found.as_str() == want,
        "{flag} {filter}: {found}, not {want}"
    );
    Ok(())
}

static ANSWERS: [(&str, &str, &str); 27] = [
    ("", ".a", "PerInput"),
    ("-s", ".", "Whole"),
    ("-n", "1", "Whole"),
    ("-n", "first(inputs)", "Whole, reads"),
    ("-n", "first(inputs), 1", "Whole, reads"),
    ("-n", "{n: 1, a: [inputs]}", "Whole, reads"),
    ("-n", "[inputs] + [1]", "Whole, reads"),
    (
        "-n",
        "reduce inputs as $x (0; . + $x) | . * 2",
        "Fold, reads",
    ),
    (
        "-n",
        "reduce inputs as {(keys[]): $x} (0; . + $x)",
        "Fold, reads",
    ),
    (
        "-n",
        "foreach inputs as [$x] ({a: 0}; 1; 2) | .a",
        "Fold, reads",
    ),
    (
        "-n",
        "def f: 1; foreach inputs as [$a] (0; f; .)",
        "Fold, reads",
    ),
    (
        "-n",
        "def f: 1; reduce inputs as $x (0; f) | def g: 2; g",
        "Fold, reads",
    ),
    (
        "-n",
        "def f(inputs): 1; reduce inputs as $x (0; 1)",
        "Fold, reads",
    ),
    (
        "-n",
        "def inputs: 1; reduce inputs as $x (0; . + $x)",
        "Whole",
    ),
    ("-n", "[reduce inputs as $x (0; . + $x)]", "Whole, reads"),
    (
        "-n",
        "label $x | reduce inputs as $x (0; 1)",
        "Whole, reads",
    ),
    ("-n", "reduce inputs as $x (0; 1), 1", "Whole, reads"),
    (
        "-n",
        "reduce inputs as $x (0; 1) as $y | $y",
        "Whole, reads",
    ),
    ("-n", "reduce (inputs | .) as $x (0; 1)", "Whole, reads"),
    ("-n", "(reduce inputs as $x (0; 1)).a", "Whole, reads"),
    (
        "",
        "f(1; 2)",
        "Undefined(Function { name: \"f\", arity: 2 })",
    ),
    ("", "$y", "Undefined(Variable(\"y\"))"),
    ("", "break $y", "Undefined(Label(\"y\"))"),
    ("", "@y", "Undefined(Format(\"y\"))"),
    ("", ".[1.5]", "Lex { at: 2 }"),
    ("", ".\u{0}", "Lex { at: 1 }"),
    ("", "\"\u{0}\"", "PerInput"),
];

// Plans of filters that fold their inputs and of others, refusals, and texts with a zero byte, which no word of a command has.
#[test]
fn answers(rt: HostRuntime) -> Result<(), Fail> {
    for row in &ANSWERS {
        let (flag, filter, want) = *row;
        check(&rt, flag, filter, want)?;
    }
    Ok(())
}

/// Whether a filter may halt, as its program says.
fn halts(alloc: Global, filter: &str) -> Result<bool, Fail> {
    let program = compile(alloc, filter, &options(alloc, "")?)?;
    Ok(program.halts())
}

static HALTS: [(&str, bool); 27] = [
    ("halt", true),
    ("halt_error", true),
    ("halt_error(1)", true),
    (".", false),
    ("\"halt\", .halt, {halt: 1}, $x", false),
    ("error(1)", false),
    ("first(1, halt)", true),
    ("\"a\\(halt)b\"", true),
    ("{(halt): 1}", true),
    (". as {(halt): $y} | 1", true),
    ("reduce .[] as $y (0; halt)", true),
    (".a |= halt", true),
    ("def f: halt; 1", true),
    ("def f: halt; f", true),
    ("def f(g): def h: halt_error; 1; f(2)", true),
    ("def halt: 1; halt", false),
    ("halt, (def halt: 1; halt)", true),
    ("def halt_error(f): f; halt_error(1)", false),
    ("def halt_error(f): f; halt_error", true),
    ("def halt_error: 1; halt_error", false),
    ("def halt_error: 1; halt_error(1)", true),
    ("def halt_error: halt_error(1); 1", true),
    ("def f(halt): halt; f(1)", false),
    ("def f(halt): halt; f(1) | halt", true),
    ("def f(halt_error): halt_error; f(1)", false),
    ("label $halt | 1 as $halt | break $halt", false),
    (". as $halt | halt", true),
];

// Calls of functions that halt, wherever they stand, and names that the filter binds itself.
#[test]
fn filters_that_may_halt(rt: HostRuntime) -> Result<(), Fail> {
    for row in &HALTS {
        let (filter, want) = *row;
        let found = halts(rt.alloc(), filter)?;
        assert!(rt; found == want, "{filter}: {found}");
    }
    Ok(())
}

#[test]
fn functions_of_the_prelude(rt: HostRuntime) -> Result<(), Fail> {
    let alloc = rt.alloc();
    let program = compile(alloc, ".", &options(alloc, "")?)?;
    let functions = program.functions();
    assert!(rt; functions.len() == 62, "{} functions", functions.len());
    assert!(rt; functions[0].name.as_str() == "select" && functions[0].parameters.len() == 1);
    assert!(rt; matches!(program.tree(), Tree::Identity));
    Ok(())
}

/// The referent of the variable or the function that is the whole filter.
fn referent_of(alloc: Global, filter: &str, options: &Options) -> Result<Referent, CompileFault> {
    let program = compile(alloc, filter, options)?;
    match program.tree() {
        Tree::Variable(name) | Tree::Call(name, _) => Ok(name.referent),
        _ => Ok(Referent::Unresolved),
    }
}

// The program's own list has the two variables and then the functions. That the first of two variables of one name is the
// inner one, and that a definition hides a function of the prelude, is shown by commands.
#[test]
fn places_of_names(rt: HostRuntime) -> Result<(), Fail> {
    let options = options(rt.alloc(), "")?;
    for (filter, want) in [
        ("$x", Referent::Outer(1)),
        ("select(1)", Referent::Outer(2)),
        ("map(1)", Referent::Outer(3)),
    ] {
        let found = referent_of(rt.alloc(), filter, &options)?;
        assert!(rt; found == want, "{filter}: {found:?}");
    }
    Ok(())
}
