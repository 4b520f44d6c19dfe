// Places in the tokens of a text, and writers that know at which place they are.
ghost use Rattle.std.specs.Prelude.{◌≡◌, ◌<◌, ◌^◌, ◌++◌, ◌∷◌, [], List, ℕ, IfOk, OnOk, replicate};
ghost use Rattle.json.specs.Layout.{is_value, state_after, step, pretty};
ghost use Rattle.json.specs.Print.{ends, ends_value, print, IsPrintable};
ghost use Rattle.json.specs.Reads.{token_of};
ghost use Rattle.json.specs.Token.{Token as SpecToken, begin_array};
ghost use Rattle.jv_text.specs.Places.{place_of, replayed};

use crate::sinks::Tokens;
use json::{Pretty, Token, Writer};
use std::alloc::{AllocError, Global};
use std::marker::Model;

/// What was written last, and how many arrays and objects are open; the one whose bracket was written last is not counted.
#[derive(Clone, Copy, Drop)]
pub(crate) enum Place {
    Nothing,
    Bracket(usize),
    Key(usize),
    Value(usize),
}

impl Place {
    /// The place after one more token.
    fn after(self, token: Token<'_>) -> Place
        ensures { place_of result ≡ step (place_of self) (token_of token.entry) }
    {
        let depth = self.depth();
        match token {
            Token::BeginObject | Token::BeginArray => Place::Bracket(depth),
            Token::EndObject | Token::EndArray => Place::Value(depth.saturating_sub(1)),
            Token::Key(_) => Place::Key(depth),
            _ => Place::Value(depth),
        }
    }

    // How many arrays and objects are open.
    fn depth(self) -> usize
        ensures { result ≡ (place_of self).1 }
    {
        match self {
            Place::Nothing => 0,
            Place::Bracket(depth) => depth.saturating_add(1),
            Place::Key(depth) => depth,
            Place::Value(depth) => depth,
        }
    }
}

/// Writes tokens after which another writer is at this place.
pub(crate) fn replay<W: Tokens>(place: Place, out: &mut W) -> Result<(), AllocError>
    ensures within { (place_of place).1 < 2 ^ 64 }
    ensures ok { OnOk result (W.Tokens.written out.new ≡ W.Tokens.written out.old ++ replayed place) }
{
    match place {
        Place::Nothing => Ok(()),
        Place::Bracket(depth) => {
            open_arrays(depth, out)?;
            out.token(Token::BeginArray)
        }
        Place::Key(depth) => {
            open_arrays(depth, out)?;
            out.token(Token::Key(""))
        }
        Place::Value(depth) => {
            open_arrays(depth, out)?;
            out.token(Token::Null)
        }
    }
}

fn open_arrays<W: Tokens>(depth: usize, out: &mut W) -> Result<(), AllocError>
    ensures { OnOk result (W.Tokens.written out.new ≡ W.Tokens.written out.old ++ replicate depth begin_array) }
{
    for _ in 0..depth {
        out.token(Token::BeginArray)?;
    }
    Ok(())
}

/// A text without spaces, and whether a value was written last.
#[derive(Drop)]
pub(crate) struct Line {
    out: Writer,
    after_value: bool,
}

impl Model for Line {
    ghost use Rattle.std.specs.Prelude.{◌≡◌, List, []};
    ghost use Rattle.json.specs.Token.{Token as SpecToken, tokens_code};
    ghost use Rattle.json.specs.Print.{ends_value};

    ghost Value = { List SpecToken };

    ghost coded = { tokens_code };

    ghost view = { λ w. w.out.tokens };

    ghost invariant = { λ w. (w.out.before ≡ []) × (w.after_value ≡ ends_value w.out.tokens) };
}

impl Line {
    /// For a text of about this many bytes.
    pub(crate) fn new(alloc: Global, len: usize) -> Result<Line, AllocError>
        ensures { IfOk result (λ line. line ≡ []) }
    {
        Ok(Line {
            out: Writer::new(Vec::with_capacity(alloc, len)?),
            after_value: false,
        })
    }

    /// The text, and a place like the one at its end.
    pub(crate) fn finish(self) -> (Vec<u8>, Place)
        ensures text { result.0.items ≡ print self }
        ensures place { is_value (place_of result.1).0 ≡ ends_value self }
    {
        let Line { out, after_value } = self;
        let place = if after_value {
            Place::Value(0)
        } else {
            Place::Nothing
        };
        (out.into_inner(), place)
    }
}

impl Tokens for Line {
    ghost written = { λ w. w };

    ghost before = { λ _. [] };

    #[inline(always)]
    fn token(&mut self, token: Token<'_>) -> Result<(), AllocError> {
        self.out.token(token)?;
        self.after_value = ends_value(token);
        Ok(())
    }
}

#[inline(always)]
fn ends_value(token: Token<'_>) -> bool
    ensures { result ≡ ends (token_of token.entry) }
{
    match token {
        Token::BeginObject | Token::BeginArray | Token::Key(_) => false,
        _ => true,
    }
}

/// A text with a line for each item and member, and the place at its end.
#[derive(Drop)]
pub(crate) struct Lines {
    out: Pretty,
    place: Place,
}

impl Model for Lines {
    ghost use Rattle.std.specs.Prelude.{◌≡◌, List};
    ghost use Rattle.json.specs.Token.{Token as SpecToken, tokens_code};
    ghost use Rattle.json.specs.Layout.{state_after};
    ghost use Rattle.jv_text.specs.Places.{place_of};

    ghost Value = { List SpecToken };

    ghost coded = { tokens_code };

    ghost view = { λ w. w.out };

    ghost invariant = { λ w. place_of w.place ≡ state_after w.out };
}

impl Lines {
    pub(crate) fn new(alloc: Global) -> Lines
        ensures { result ≡ [] }
    {
        Lines {
            out: Pretty::new(alloc),
            place: Place::Nothing,
        }
    }

    /// The text, and the place at its end.
    pub(crate) fn finish(self) -> (Vec<u8>, Place)
        ensures text { result.0.items ≡ pretty self }
        ensures place { place_of result.1 ≡ state_after self }
    {
        let Lines { out, place } = self;
        (out.into_inner(), place)
    }
}

impl Tokens for Lines {
    ghost written = { λ w. w };

    ghost before = { λ _. [] };

    #[inline(always)]
    fn token(&mut self, token: Token<'_>) -> Result<(), AllocError> {
        self.out.token(token)?;
        self.place = self.place.after(token);
        Ok(())
    }
}
