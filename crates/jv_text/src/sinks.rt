// The receivers of the tokens of a JSON text.
ghost use Rattle.std.specs.Prelude.{◌≡◌, ◌++◌, ◌∷◌, [], ℕ, List, OnOk};
ghost use Rattle.json.specs.Print.{IsPrintable};
ghost use Rattle.json.specs.Reads.{token_of};
ghost use Rattle.json.specs.Token.{Token as SpecToken};

use json::{Pretty, Token, Writer};
use std::alloc::AllocError;

/// Takes the tokens of a JSON text one after the other, and lays them out. `before` is what its buffer held already.
pub(crate) trait Tokens {
    ghost written: { Self → List SpecToken };

    ghost before: { Self → List ℕ };

    fn token(&mut self, token: Token<'_>) -> Result<(), AllocError>
        requires { IsPrintable (token_of token) }
        ensures ok { OnOk result (written self.new ≡ written self.old ++ token_of token.entry ∷ []) }
        ensures before { before self.new ≡ before self.old };
}

impl Tokens for Writer {
    ghost written = { λ w. w.tokens };

    ghost before = { λ w. w.before };

    #[inline(always)]
    fn token(&mut self, token: Token<'_>) -> Result<(), AllocError> {
        Writer::token(self, token)
    }
}

impl Tokens for Pretty {
    ghost written = { λ w. w };

    ghost before = { λ _. [] };

    #[inline(always)]
    fn token(&mut self, token: Token<'_>) -> Result<(), AllocError> {
        Pretty::token(self, token)
    }
}
