// Texts that several values share.
ghost use Rattle.std.specs.Prelude.{◌≡◌, ◌++◌, IfOk, OnErr, OnOk, string_bytes};
ghost use Rattle.jv_data.specs.Shared.{bytes_held, bytes_in};

use super::characters::Characters;
use std::alloc::{AllocError, Global};
use std::rc::Rc;

/// A text with a reference count. A short one stands in the block of memory that holds the count.
#[derive(Drop)]
pub struct SharedText {
    text: Rc<Characters>,
}

impl SharedText {
    /// The text, with reference count 1. It allocates the block of memory that holds the count.
    pub fn from_string(alloc: Global, text: String) -> Result<SharedText, AllocError>
        ensures { IfOk result (λ t. bytes_in t ≡ string_bytes text) }
    {
        Ok(SharedText {
            text: Rc::new(alloc, Characters::from_string(text))?,
        })
    }

    /// A copy of the text, with reference count 1.
    pub fn from_text(alloc: Global, text: &str) -> Result<SharedText, AllocError>
        ensures { IfOk result (λ t. bytes_in t ≡ text.now) }
    {
        Ok(SharedText {
            text: Rc::new(alloc, Characters::from_text(alloc, text)?)?,
        })
    }

    /// One more reference to the same text. It fails only if the reference count is at its maximum.
    pub fn share(&self) -> Result<SharedText, AllocError>
        ensures { IfOk result (λ t. bytes_in t ≡ bytes_in self.now) }
    {
        Ok(SharedText {
            text: self.text.clone()?,
        })
    }

    /// The text.
    pub fn as_str(&self) -> &str
        ensures { result.now ≡ bytes_in self.now }
    {
        self.text.as_ref().as_str()
    }

    /// Appends a text. A shared text is copied first.
    pub fn push_str(&mut self, more: &str) -> Result<(), AllocError>
        ensures ok { OnOk result (bytes_in self.new ≡ bytes_in self.old ++ more.now) }
        ensures err { OnErr result (bytes_in self.new ≡ bytes_in self.old) }
    {
        Rc::make_mut(&mut self.text)?.push_str(more)
    }
}
