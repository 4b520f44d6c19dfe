// `halt` and `halt_error`.
ghost use Rattle.std.specs.Prelude.{◌≡◌, ◌∷◌, ◌++◌, [], IfOk, map};
ghost use Rattle.jv_data.specs.View.{view};
ghost use Rattle.jv_data.specs.Value.{number};
ghost use Rattle.jv_text.specs.Printed.{compact, line_feed};
ghost use Rattle.jq_meaning.specs.Builtins.{halt_bytes, halted_by, not_an_exit_code};
ghost use Rattle.jq_meaning.specs.Runs.{Stopped, ended, halted};
ghost use Rattle.jq_operations.specs.Outputs.{outputs_of};

use crate::outputs::Outputs;
use jq_state::next::{Exit, Stop};
use jv_data::{NoMemory, Val};
use jv_text::{Style, print};
use std::alloc::Global;

/// `halt` and `halt_error(status)`.
pub(crate) fn halt(alloc: Global, value: &Val, arguments: &[Val]) -> Result<Outputs, NoMemory>
    ensures { IfOk result (λ o. outputs_of o ≡ halted_by (view value.now) (map view arguments.now)) }
{
    match arguments {
        [] => halted(alloc, 0, Vec::new(alloc)),
        [Val::Num(status)] => halt_at(alloc, value, *status),
        _ => not_an_exit_code(alloc),
    }
}

fn halt_at(alloc: Global, value: &Val, status: i64) -> Result<Outputs, NoMemory>
    ensures { IfOk result (λ o. outputs_of o ≡ halted_by (view value.now) (number status ∷ [])) }
{
    if status < 0 || 255 < status {
        return not_an_exit_code(alloc);
    }
    let bytes = halt_bytes(alloc, value)?;
    halted(alloc, status as u8, bytes)
}

fn halted(alloc: Global, status: u8, bytes: Vec<u8>) -> Result<Outputs, NoMemory>
    ensures { IfOk result (λ o. outputs_of o ≡ ended (Stopped (halted status bytes.items))) }
{
    let exit = Box::new(alloc, Exit { status, bytes })?;
    Ok(Outputs::Stopped(Stop::Halted(exit)))
}

fn not_an_exit_code(alloc: Global) -> Result<Outputs, NoMemory>
    ensures { IfOk result (λ o. outputs_of o ≡ not_an_exit_code) }
{
    let text = "exit code must be a number from 0 to 255";
    Ok(Outputs::Error(Val::from_text(alloc, text)?))
}

// The bytes of a string, or another value's text and a newline.
fn halt_bytes(alloc: Global, value: &Val) -> Result<Vec<u8>, NoMemory>
    ensures { IfOk result (λ bytes. bytes.items ≡ halt_bytes (view value.now)) }
{
    match value {
        Val::Null => text_line(alloc, value),
        Val::Bool(_) => text_line(alloc, value),
        Val::Num(_) => text_line(alloc, value),
        Val::Text(text) => {
            let mut bytes = Vec::new(alloc);
            bytes.extend_from_slice(text.as_str().as_bytes())?;
            Ok(bytes)
        }
        Val::List(_) => text_line(alloc, value),
        Val::Table(_) => text_line(alloc, value),
    }
}

// A value's text and a newline.
fn text_line(alloc: Global, value: &Val) -> Result<Vec<u8>, NoMemory>
    ensures { IfOk result (λ bytes. bytes.items ≡ compact (view value.now) ++ line_feed ∷ []) }
{
    let style = Style {
        compact: true,
        raw: false,
        join: false,
    };
    let mut bytes = Vec::new(alloc);
    print(alloc, value, style, &mut bytes)?;
    Ok(bytes)
}
