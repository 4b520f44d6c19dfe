// The instruction of a line is carried out.
ghost use Rattle.std.specs.Prelude.{◌≡◌, IfErr, IfOk};
ghost use Rattle.std.specs.Str.{IsUtf8, chars};
ghost use Rattle.jq_filters.specs.Filters.{IsFilterOf};
ghost use Rattle.jq_syntax.specs.Chosen.{chosen, setting};
ghost use Rattle.jq_syntax.specs.Compiled.{IsRefusal};
ghost use Rattle.jq_script.specs.Serving.{point_of};
ghost use Rattle.jq_script.specs.private.Reading.{instruction_in};
ghost use Rattle.jq_script.specs.private.Replies.{IsFilterReplied, IsCarriedOut, filter_reply};

use crate::host::Host;
use crate::options::copy_options;
use crate::replies::{Refused, Reply, reply_to};
use crate::requests::Instruction;
use jq_filters::Filter;
use jq_session::Follow;
use jq_syntax::{CompileFault, Options};
use jv_data::NoMemory;
use std::alloc::Global;

/// Carries out the instruction of a line. If it is refused, the session is unchanged.
pub(crate) fn carry_out(alloc: Global, instruction: Instruction<'_>, host: &mut Host) -> Reply
    ensures reply { IsCarriedOut (instruction_in instruction.entry) (point_of host.old) (point_of host.new) result }
    ensures options { (point_of host.new).options ≡ (point_of host.old).options }
{
    match instruction {
        Instruction::Request(request) => reply_to(alloc, request, &mut host.session),
        Instruction::Filter(text) => refilter(alloc, text, host),
    }
}

// Takes another filter, if the bytes are its text.
fn refilter(alloc: Global, bytes: &[u8], host: &mut Host) -> Reply
    ensures reply { IsFilterReplied bytes.now (point_of host.old) (point_of host.new) result }
    ensures options { (point_of host.new).options ≡ (point_of host.old).options }
{
    match str::from_utf8(bytes) {
        Ok(text) => refilter_by(alloc, text, host),
        Err(fault) => Reply::Refused(Refused::Filter(CompileFault::Lex {
            at: fault.valid_up_to(),
        })),
    }
}

// Compiles another filter under the session's options, and runs it over the present inputs.
fn refilter_by(alloc: Global, text: &str, host: &mut Host) -> Reply
    ensures reply { IsUtf8 text.now → IsFilterReplied text.now (point_of host.old) (point_of host.new) result }
    ensures options { (point_of host.new).options ≡ (point_of host.old).options }
{
    match compile(alloc, text, host.session.options()) {
        Ok(filter) => taken(host.refilter(filter)),
        Err(fault) => Reply::Refused(Refused::Filter(fault)),
    }
}

// The reply for another filter that was run.
fn taken(refiltered: Result<Follow, NoMemory>) -> Reply
    ensures { result ≡ filter_reply refiltered }
{
    match refiltered {
        Ok(follow) => Reply::Made(follow),
        Err(NoMemory) => Reply::Refused(Refused::NoMemory),
    }
}

fn compile(alloc: Global, text: &str, options: &Options) -> Result<Filter, CompileFault>
    ensures accepted { IfOk result (IsFilterOf (chosen options.now) (chars text.now)) }
    ensures refused { IfErr result (IsRefusal (chars text.now) (setting (chosen options.now))) }
{
    let options = copy_options(alloc, options)?;
    Filter::compile(alloc, text, options)
}
