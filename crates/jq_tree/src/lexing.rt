//! Laws of the tokens.

ghost use Rattle.jq_tree.specs.laws.OneReading.{OneLongest, OneTokenList, OneBadToken, TokensOrBadToken};
ghost use Rattle.jq_tree.specs.laws.Lexed.{LexedAreTheTokens};

/// The longest word at the start of a text is unique.
pub fn one_longest_word()
    ensures { OneLongest }
{}

/// A text has at most one list of tokens or one first bad token.
pub fn one_reading()
    ensures tokens { OneTokenList }
    ensures bad_token { OneBadToken }
    ensures not_both { TokensOrBadToken }
{}

/// The tokens that `lexed` computes for a text are its tokens.
pub fn computed_tokens()
    ensures { LexedAreTheTokens }
{}
