// Formats of a value's whole text.
ghost use Rattle.std.specs.Prelude.{◌≡◌, IfOk, encode_utf8_all, flat_map};
ghost use Rattle.jv_data.specs.Text.{text_of};
ghost use Rattle.jv_data.specs.View.{view};
ghost use Rattle.jv_text.specs.Formats.{base64_text, html_character, uri_byte};
ghost use Rattle.jv_text.specs.Printed.{text_of_value};

use crate::formats::escapes::{Escapes, push_escaped};
use crate::printing::text_of_value;
use base64::engine::general_purpose::STANDARD;
use jv_data::{NoMemory, Val};
use percent_encoding::{AsciiSet, NON_ALPHANUMERIC, ascii_set, percent_encode};
use std::alloc::{AllocError, Global};

// The ASCII bytes that are percent-encoded (RFC 3986, section 2.3).
const RESERVED: AsciiSet = ascii_set!(
    NON_ALPHANUMERIC
        .remove(b'-')
        .remove(b'_')
        .remove(b'.')
        .remove(b'~')
);

/// `@html`.
pub(crate) fn html(alloc: Global, value: &Val) -> Result<String, NoMemory>
    ensures { IfOk result (λ out. text_of out ≡ flat_map html_character (text_of_value (view value.now))) }
{
    let text = text_of_value(alloc, value)?;
    let mut out = String::new(alloc);
    push_escaped(Escapes::Html, text.as_str(), &mut out)?;
    Ok(out)
}

/// `@uri`.
pub(crate) fn uri(alloc: Global, value: &Val) -> Result<String, NoMemory>
    ensures { IfOk result (λ out. text_of out ≡ flat_map uri_byte (encode_utf8_all (text_of_value (view value.now)))) }
{
    let text = text_of_value(alloc, value)?;
    Ok(percent_encoded(alloc, text.as_str().as_bytes())?)
}

fn percent_encoded(alloc: Global, bytes: &[u8]) -> Result<String, AllocError>
    ensures { IfOk result (λ out. text_of out ≡ flat_map uri_byte bytes.now) }
{
    let mut out = String::new(alloc);
    percent_encode(bytes, RESERVED).append_to(&mut out)?;
    Ok(out)
}

/// `@base64`.
pub(crate) fn base64(alloc: Global, value: &Val) -> Result<String, NoMemory>
    ensures { IfOk result (λ out. text_of out ≡ base64_text (encode_utf8_all (text_of_value (view value.now)))) }
{
    let text = text_of_value(alloc, value)?;
    Ok(STANDARD.encode(alloc, text.as_str().as_bytes())?)
}
