// Texts of few bytes.
ghost use Rattle.std.specs.Prelude.{◌≡◌, ◌++◌, IfSome, IsUtf8};

use arrayvec::ArrayString;
use std::alloc::Global;

/// A text of at most 24 bytes, which stand in the value itself.
#[derive(Drop)]
pub(crate) struct ShortText {
    alloc: Global,
    text: ArrayString<24>,
    ghost utf8: { ∥ IsUtf8 text.bytes ∥₁ },
}

impl ShortText {
    pub(crate) fn as_str(&self) -> &str
        ensures { result.now ≡ self.now.text.bytes }
    {
        self.text.as_str()
    }

    pub(crate) fn copy(&self) -> ShortText
        ensures { result.text.bytes ≡ self.now.text.bytes }
    {
        ShortText {
            alloc: self.alloc,
            text: self.text,
        }
    }

    // The text with another one at its end, if it is still short.
    pub(crate) fn with(&self, more: &str) -> Option<ShortText>
        ensures { IfSome result (λ s. s.text.bytes ≡ self.now.text.bytes ++ more.now) }
    {
        let mut text = self.text;
        match text.try_push_str(more) {
            Ok(()) => Some(ShortText {
                alloc: self.alloc,
                text,
            }),
            Err(_) => None,
        }
    }

    pub(crate) fn allocator(&self) -> Global {
        self.alloc
    }
}

// The text, if it has few bytes.
pub(crate) fn short_text(alloc: Global, text: &str) -> Option<ShortText>
    ensures { IfSome result (λ s. s.text.bytes ≡ text.now) }
{
    match ArrayString::from(text) {
        Ok(text) => Some(ShortText { alloc, text }),
        Err(_) => None,
    }
}
