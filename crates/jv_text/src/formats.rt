// The texts of values in the formats of the language.
ghost use Rattle.jv_data.specs.View.{view};
ghost use Rattle.jv_text.specs.Formats.{GivesText, text_in};

mod encodings;
mod escapes;
mod fields;
mod names;
mod rows;

use crate::printing::{to_compact_string, tostring};
use jv_data::{Fail, Val};
pub use names::{Format, format_of};
use std::alloc::Global;

/// A value's text in a format such as `@text` (manual of jq 1.7, "Format strings and escaping"). `Csv` and `Tsv` raise an
/// error for a value that is no array and for an array or an object in it, `Sh` for an object and for an array or an object
/// in an array.
pub fn format(alloc: Global, format: Format, value: &Val) -> Result<String, Fail>
    ensures { GivesText result (text_in format (view value.now)) }
{
    match format {
        Format::Plain => Ok(tostring(alloc, value)?),
        Format::Json => Ok(to_compact_string(alloc, value)?),
        Format::Csv => fields::csv(alloc, value),
        Format::Tsv => fields::tsv(alloc, value),
        Format::Html => Ok(encodings::html(alloc, value)?),
        Format::Uri => Ok(encodings::uri(alloc, value)?),
        Format::Sh => fields::sh(alloc, value),
        Format::Base64 => Ok(encodings::base64(alloc, value)?),
    }
}
