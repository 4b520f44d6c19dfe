// Texts in which some characters are escaped.
ghost use Rattle.std.specs.Prelude.{◌≡◌, ◌++◌, OnOk, flat_map};
ghost use Rattle.std.specs.Str.{chars};
ghost use Rattle.jv_data.specs.Text.{text_of};
ghost use Rattle.jv_text.specs.private.Escapes.{IsWritten, written_in};
ghost use Rattle.jv_text.specs.Formats.{csv_character, html_character, shell_character, tsv_character};

use std::alloc::AllocError;

/// Which characters are escaped, and how.
#[derive(Clone, Copy, Debug, PartialEq, Eq)]
pub(crate) enum Escapes {
    Csv,
    Tsv,
    Html,
    Sh,
}

/// Appends a text with its characters escaped.
pub(crate) fn push_escaped(escapes: Escapes, text: &str, out: &mut String) -> Result<(), AllocError>
    ensures { OnOk result (text_of out.new ≡ text_of out.old ++ flat_map (written_in escapes) (chars text.now)) }
{
    for c in text.chars() {
        push_character(escapes, c, out)?;
    }
    Ok(())
}

fn push_character(escapes: Escapes, c: char, out: &mut String) -> Result<(), AllocError>
    ensures { OnOk result (text_of out.new ≡ text_of out.old ++ written_in escapes c) }
{
    match escape(escapes, c) {
        Some(text) => push_text(text, out)?,
        None => out.push(c)?,
    }
    Ok(())
}

/// Appends a text as it is.
pub(crate) fn push_text(text: &str, out: &mut String) -> Result<(), AllocError>
    ensures { OnOk result (text_of out.new ≡ text_of out.old ++ chars text.now) }
{
    out.push_str(text)?;
    Ok(())
}

// The escape of a character, or None if it is written as it is.
fn escape(escapes: Escapes, c: char) -> Option<&'static str>
    ensures { IsWritten result c (written_in escapes c) }
{
    match escapes {
        Escapes::Csv => csv(c),
        Escapes::Tsv => tsv(c),
        Escapes::Html => html(c),
        Escapes::Sh => sh(c),
    }
}

#[tactic(auto, unfolding(crate::proofs::Literals::literal))]
fn csv(c: char) -> Option<&'static str>
    ensures { IsWritten result c (csv_character c) }
{
    match c {
        '"' => Some("\"\""),
        _ => None,
    }
}

#[tactic(auto, unfolding(crate::proofs::Literals::literal))]
fn tsv(c: char) -> Option<&'static str>
    ensures { IsWritten result c (tsv_character c) }
{
    match c {
        '\n' => Some("\\n"),
        '\r' => Some("\\r"),
        '\t' => Some("\\t"),
        '\\' => Some("\\\\"),
        _ => None,
    }
}

#[tactic(auto, unfolding(crate::proofs::Literals::literal))]
fn html(c: char) -> Option<&'static str>
    ensures { IsWritten result c (html_character c) }
{
    match c {
        '<' => Some("&lt;"),
        '>' => Some("&gt;"),
        '&' => Some("&amp;"),
        '\'' => Some("&#39;"),
        '"' => Some("&quot;"),
        _ => None,
    }
}

#[tactic(auto, unfolding(crate::proofs::Literals::literal))]
fn sh(c: char) -> Option<&'static str>
    ensures { IsWritten result c (shell_character c) }
{
    match c {
        '\'' => Some("'\\''"),
        _ => None,
    }
}
