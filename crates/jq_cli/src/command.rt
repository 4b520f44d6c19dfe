// The command as `clap` knows it.
ghost use Rattle.std.specs.Prelude.{◌≡◌, IfOk, false};
ghost use Rattle.clap.specs.Words.{app_of, rule_of};
ghost use Rattle.jq_cli.specs.Command.{app, depth, file, filter, flag, long_flag};

use crate::help::VERSION_TEXT;
use clap::{Arg, ArgAction, Command, value_parser};
use std::alloc::{AllocError, Global};

/// The command without `--arg` and `--argjson`; `clap` adds `-h` and `--help`, and
/// `-V` and `--version`, since it is given a version (the text that it would print for it is not used). Each other flag counts its uses, so that a second
/// use means the same as one.
pub(crate) fn command<'a>(alloc: Global) -> Result<Command<'a>, AllocError>
    ensures { IfOk result (λ c. app_of c ≡ app) }
{
    Command::new(alloc, "jql")
        .no_binary_name(true)
        .version(VERSION_TEXT)
        .arg(flag(alloc, 'c', "compact-output"))?
        .arg(flag(alloc, 'r', "raw-output"))?
        .arg(flag(alloc, 'j', "join-output"))?
        .arg(flag(alloc, 'n', "null-input"))?
        .arg(flag(alloc, 's', "slurp"))?
        .arg(flag(alloc, 'e', "exit-status"))?
        .arg(flag(alloc, 'S', "sort-keys"))?
        .arg(flag(alloc, 'M', "monochrome-output"))?
        .arg(long_flag(alloc, "live"))?
        .arg(long_flag(alloc, "follow"))?
        .arg(long_flag(alloc, "explain"))?
        .arg(depth(alloc))?
        .arg(filter(alloc))?
        .arg(file(alloc))
}

fn flag<'a>(alloc: Global, short: char, name: &'a str) -> Arg<'a>
    ensures rule { rule_of result ≡ flag short name.entry.now }
    ensures own { result.global ≡ false }
{
    long_flag(alloc, name).short(short)
}

fn long_flag<'a>(alloc: Global, name: &'a str) -> Arg<'a>
    ensures rule { rule_of result ≡ long_flag name.entry.now }
    ensures own { result.global ≡ false }
{
    Arg::new(alloc, name).long(name).action(ArgAction::Count)
}

fn depth<'a>(alloc: Global) -> Arg<'a>
    ensures rule { rule_of result ≡ depth }
    ensures own { result.global ≡ false }
{
    Arg::new(alloc, "depth")
        .long("depth")
        .action(ArgAction::Set)
        .value_name("D")
        .value_parser(value_parser!(u32).range(1..=100_000))
        .default_value("10000")
}

fn filter<'a>(alloc: Global) -> Arg<'a>
    ensures rule { rule_of result ≡ filter }
    ensures own { result.global ≡ false }
{
    Arg::new(alloc, "FILTER")
        .required(true)
        .action(ArgAction::Set)
}

fn file<'a>(alloc: Global) -> Arg<'a>
    ensures rule { rule_of result ≡ file }
    ensures own { result.global ≡ false }
{
    Arg::new(alloc, "FILE").action(ArgAction::Append)
}
