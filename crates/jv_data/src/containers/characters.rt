// The bytes of a text: in the value itself if they are few, else in a block of memory of their own.
ghost use Rattle.std.specs.Prelude.{◌≡◌, ◌++◌, IfOk, OnErr, OnOk, string_bytes};
ghost use Rattle.jv_data.specs.Shared.{bytes_held};

use super::short::{ShortText, short_text};
use std::alloc::{AllocError, Global};

#[derive(Drop)]
pub(crate) enum Characters {
    Short(ShortText),
    Long(String),
}

impl Characters {
    pub(crate) fn from_text(alloc: Global, text: &str) -> Result<Characters, AllocError>
        ensures { IfOk result (λ c. bytes_held c ≡ text.now) }
    {
        match short_text(alloc, text) {
            Some(short) => Ok(Characters::Short(short)),
            None => Ok(Characters::Long(String::from_str(alloc, text)?)),
        }
    }

    pub(crate) fn from_string(text: String) -> Characters
        ensures { bytes_held result ≡ string_bytes text }
    {
        match short_text(*text.allocator(), text.as_str()) {
            Some(short) => Characters::Short(short),
            None => Characters::Long(text),
        }
    }

    pub(crate) fn as_str(&self) -> &str
        ensures { result.now ≡ bytes_held self.now }
    {
        match self {
            Characters::Short(short) => short.as_str(),
            Characters::Long(text) => text.as_str(),
        }
    }

    pub(crate) fn push_str(&mut self, more: &str) -> Result<(), AllocError>
        ensures ok { OnOk result (bytes_held self.new ≡ bytes_held self.old ++ more.now) }
        ensures err { OnErr result (bytes_held self.new ≡ bytes_held self.old) }
    {
        match self {
            Characters::Short(short) => {
                let longer = match short.with(more) {
                    Some(longer) => Characters::Short(longer),
                    None => Characters::Long(joined(short.allocator(), short.as_str(), more)?),
                };
                *self = longer;
                Ok(())
            }
            Characters::Long(text) => Ok(text.push_str(more)?),
        }
    }
}

impl Clone for Characters {
    ghost is_clone = { λ c d. bytes_held d ≡ bytes_held c };

    fn clone(&self) -> Result<Characters, AllocError> {
        match self {
            Characters::Short(short) => Ok(Characters::Short(short.copy())),
            Characters::Long(text) => Ok(Characters::Long(text.clone()?)),
        }
    }
}

fn joined(alloc: Global, first: &str, second: &str) -> Result<String, AllocError>
    ensures { IfOk result (λ s. string_bytes s ≡ first.now ++ second.now) }
{
    let mut text = String::with_capacity(alloc, first.len().saturating_add(second.len()))?;
    text.push_str(first)?;
    text.push_str(second)?;
    Ok(text)
}
