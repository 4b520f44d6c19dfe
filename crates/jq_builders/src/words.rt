// The texts of reserved words, which are names in keys.
ghost use Rattle.std.specs.Prelude.{◌≡◌, IfOk};
ghost use Rattle.jv_data.specs.Text.{text_of};
ghost use Rattle.jq_tree.specs.Token as token;
ghost use Rattle.jq_lexer.specs.Views.{keyword_of};

use jq_lexer::{Keyword, keyword_text};
use std::alloc::{AllocError, Global};

/// The text of a reserved word, which is a key in objects and patterns.
#[tactic(auto, using(crate::proofs::Levels::keyword_characters))]
pub fn word_text(alloc: Global, word: Keyword) -> Result<String, AllocError>
    ensures { IfOk result (λ s. text_of s ≡ token.keyword_text (keyword_of word)) }
{
    String::from_str(alloc, keyword_text(word))
}
