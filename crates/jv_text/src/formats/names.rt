// The formats and their names.
ghost use Rattle.std.specs.Prelude.{◌≡◌};
ghost use Rattle.std.specs.Str.{chars};
ghost use Rattle.jv_text.specs.Formats.{format_named};

/// A format of strings (manual of jq 1.7, "Format strings and escaping").
#[derive(Clone, Copy, Debug, PartialEq, Eq)]
pub enum Format {
    /// `@text`.
    Plain,
    Json,
    Csv,
    Tsv,
    Html,
    Uri,
    Sh,
    Base64,
}

/// The format of this name, which is written after `@`.
pub fn format_of(name: &str) -> Option<Format>
    ensures { result ≡ format_named (chars name.now) }
{
    by_bytes(name)
}

// The names of formats are ASCII, so the bytes of a name decide.
fn by_bytes(name: &str) -> Option<Format>
    ensures { result ≡ format_named name.now }
{
    match name {
        "text" => Some(Format::Plain),
        "json" => Some(Format::Json),
        "csv" => Some(Format::Csv),
        "tsv" => Some(Format::Tsv),
        "html" => Some(Format::Html),
        "uri" => Some(Format::Uri),
        "sh" => Some(Format::Sh),
        "base64" => Some(Format::Base64),
        _ => None,
    }
}
