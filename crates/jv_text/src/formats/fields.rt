// Rows: the fields of an array, one after the other.
ghost use Rattle.std.specs.Prelude.{◌≡◌, ◌++◌, OnOk};
ghost use Rattle.std.specs.Str.{chars};
ghost use Rattle.jv_data.specs.Value.{boolean};
ghost use Rattle.jv_data.specs.Text.{text_of};
ghost use Rattle.jv_data.specs.View.{items_view, view};
ghost use Rattle.jv_text.specs.Formats.{GivesText, csv_of, fields, sh_of, shell_word, tsv_of};
ghost use Rattle.jv_text.specs.private.Appending.{Appends};
ghost use Rattle.jv_text.specs.Printed.{json_text};
ghost use Rattle.jv_text.specs.private.Rows.{between, field_in, later_fields, quoted_in};

use crate::formats::escapes::{push_escaped, push_text};
use crate::formats::rows::RowFormat;
use jv_data::{Fail, Val, raise_kind};
use std::alloc::{AllocError, Global};

/// `@csv`.
pub(crate) fn csv(alloc: Global, value: &Val) -> Result<String, Fail>
    ensures { GivesText result (csv_of (view value.now)) }
{
    match value {
        Val::List(items) => row(alloc, RowFormat::Csv, items.as_slice()),
        _ => Err(raise_kind(
            alloc,
            value,
            " cannot be csv-formatted, only an array can be",
        )),
    }
}

/// `@tsv`.
pub(crate) fn tsv(alloc: Global, value: &Val) -> Result<String, Fail>
    ensures { GivesText result (tsv_of (view value.now)) }
{
    match value {
        Val::List(items) => row(alloc, RowFormat::Tsv, items.as_slice()),
        _ => Err(raise_kind(
            alloc,
            value,
            " cannot be tsv-formatted, only an array can be",
        )),
    }
}

/// `@sh`.
pub(crate) fn sh(alloc: Global, value: &Val) -> Result<String, Fail>
    ensures { GivesText result (sh_of (view value.now)) }
{
    match value {
        Val::List(items) => row(alloc, RowFormat::Sh, items.as_slice()),
        _ => word(alloc, value),
    }
}

fn word(alloc: Global, value: &Val) -> Result<String, Fail>
    ensures { GivesText result (shell_word (view value.now)) }
{
    let mut out = String::new(alloc);
    push_field(alloc, RowFormat::Sh, value, &mut out)?;
    Ok(out)
}

fn row(alloc: Global, row: RowFormat, items: &[Val]) -> Result<String, Fail>
    ensures { GivesText result (fields (field_in row) (between row) (items_view items.now)) }
{
    let mut out = String::new(alloc);
    if let [first, rest @ ..] = items {
        push_field(alloc, row, first, &mut out)?;
        push_later(alloc, row, rest, &mut out)?;
    }
    Ok(out)
}

// Appends fields, each after a separator.
fn push_later(alloc: Global, row: RowFormat, items: &[Val], out: &mut String) -> Result<(), Fail>
    ensures { Appends result out.old out.new (later_fields row (items_view items.now)) }
{
    for item in items {
        push_text(row.separator(), out)?;
        push_field(alloc, row, item, out)?;
    }
    Ok(())
}

fn push_field(alloc: Global, row: RowFormat, value: &Val, out: &mut String) -> Result<(), Fail>
    ensures { Appends result out.old out.new (field_in row (view value.now)) }
{
    match value {
        Val::Null => push_text(row.null(), out)?,
        Val::Bool(b) => push_text(boolean_text(*b), out)?,
        Val::Num(n) => push_text(itoa::Buffer::new().format(*n), out)?,
        Val::Text(text) => push_quoted(row, text.as_str(), out)?,
        Val::List(_) => return Err(raise_kind(alloc, value, row.field_error())),
        Val::Table(_) => return Err(raise_kind(alloc, value, row.field_error())),
    }
    Ok(())
}

fn boolean_text(b: bool) -> &'static str
    ensures { chars result.now ≡ json_text (boolean b) }
{
    if b { "true" } else { "false" }
}

fn push_quoted(row: RowFormat, text: &str, out: &mut String) -> Result<(), AllocError>
    ensures { OnOk result (text_of out.new ≡ text_of out.old ++ quoted_in row (chars text.now)) }
{
    push_text(row.quote(), out)?;
    push_escaped(row.escapes(), text, out)?;
    push_text(row.quote(), out)
}
