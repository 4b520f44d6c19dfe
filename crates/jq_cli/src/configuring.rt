// The configuration that the words of a command line ask for.
ghost use Rattle.std.specs.Prelude.{◌≡◌, IfOk, codes, map, string_bytes, unwrap_or, []};
ghost use Rattle.clap.specs.Words.{all_of, found_of, rows_of};
ghost use Rattle.jq_syntax.specs.Chosen.{chosen, variables_of};
ghost use Rattle.jq_cli.specs.Answers.{Configures, options_clash};
ghost use Rattle.jq_cli.specs.Configuration.{configured, depth_of, is_given, shown};

use crate::command::command;
use crate::faults::{UsageFault, line_fault};
use crate::taking::take_args;
use clap::ArgMatches;
use jq_syntax::Options;
use jv_data::Val;
use jv_text::Style;
use std::alloc::{AllocError, Global};

// The depth if the entry is not a number. (`clap` makes an entry for each command line.)
const DEPTH: u32 = 10_000;

/// What a command line asks for.
#[derive(Drop)]
pub struct Config {
    pub options: Options,
    /// The text of the filter.
    pub filter: String,
    /// The files that are read one after the other: the input in place of the standard input, or with `--live` the first
    /// inputs.
    pub files: Vec<String>,
    /// `--live`: a session in which inputs are edited.
    pub live: bool,
    /// `--follow`: each line of a session is answered with what it changes.
    pub follow: bool,
    /// `--explain`: notes follow the error lines.
    pub explain: bool,
}

/// The configuration that the words after the program's name ask for (manual of jq 1.7, "Invoking jq"). `Usage`, `Line`,
/// `Help` and `Version` say why they ask for none.
pub fn config_of(alloc: Global, words: Vec<String>) -> Result<Config, UsageFault>
    ensures { Configures (map string_bytes words.items) result }
{
    let (left, vars) = take_args(alloc, words)?;
    let config = match command(alloc)?.try_get_matches_from(left.as_slice()) {
        Ok(matches) => configured(alloc, &matches, vars)?,
        Err(error) => return Err(line_fault(alloc, &error)),
    };
    if options_clash(&config) {
        return Err(UsageFault::Usage);
    }
    Ok(config)
}

// One run on null and one run on the array of all inputs exclude each other, and edits are followed only in a session.
fn options_clash(config: &Config) -> bool
    ensures { result ≡ options_clash (shown config.now) }
{
    (config.options.null && config.options.slurp) || (config.follow && !config.live)
}

fn configured(
    alloc: Global,
    matches: &ArgMatches<'_>,
    vars: Vec<(String, Val)>,
) -> Result<Config, AllocError>
    ensures { IfOk result (λ c. shown c ≡ configured (rows_of (found_of matches.now)) (variables_of vars.items)) }
{
    let filter = String::from_str(alloc, matches.get_str("FILTER").unwrap_or(""))?;
    let files = files_of(alloc, matches)?;
    Ok(Config {
        options: options_of(matches, vars),
        filter,
        files,
        live: is_given(matches, "live"),
        follow: is_given(matches, "follow"),
        explain: is_given(matches, "explain"),
    })
}

fn options_of(matches: &ArgMatches<'_>, vars: Vec<(String, Val)>) -> Options
    ensures { chosen result ≡ (configured (rows_of (found_of matches.now)) (variables_of vars.items)).options }
{
    Options {
        null: is_given(matches, "null-input"),
        slurp: is_given(matches, "slurp"),
        exit: is_given(matches, "exit-status"),
        style: Style {
            compact: is_given(matches, "compact-output"),
            raw: is_given(matches, "raw-output"),
            join: is_given(matches, "join-output"),
        },
        depth: depth_of(matches),
        vars,
    }
}

fn depth_of(matches: &ArgMatches<'_>) -> u32
    ensures { result ≡ depth_of (rows_of (found_of matches.now)) }
{
    matches.get_one::<u32>("depth").unwrap_or(DEPTH)
}

fn is_given(matches: &ArgMatches<'_>, flag: &str) -> bool
    ensures { result ≡ is_given flag.now (rows_of (found_of matches.now)) }
{
    matches.get_count(flag) > 0
}

fn files_of(alloc: Global, matches: &ArgMatches<'_>) -> Result<Vec<String>, AllocError>
    ensures { IfOk result (λ v. map string_bytes v.items ≡ unwrap_or (all_of (codes "FILE") (rows_of (found_of matches.now))) []) }
{
    match matches.get_strs("FILE") {
        Some(names) => copied(alloc, names),
        None => Ok(Vec::new(alloc)),
    }
}

fn copied(alloc: Global, texts: &[&str]) -> Result<Vec<String>, AllocError>
    ensures { IfOk result (λ v. map string_bytes v.items ≡ map (λ text. text.now) texts.now) }
{
    let mut copies = Vec::with_capacity(alloc, texts.len())?;
    for text in texts {
        copies.push(String::from_str(alloc, *text)?)?;
    }
    Ok(copies)
}
