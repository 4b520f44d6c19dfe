// The constants of a tree.
ghost use Rattle.std.specs.Prelude.{◌≡◌, IsTrue, IfOk};
ghost use Rattle.jv_data.specs.Text.{text_of};
ghost use Rattle.jv_data.specs.View.{view};
ghost use Rattle.jv_data.specs.Value.{null, boolean, number, string};
ghost use Rattle.jq_ast.specs.Constants.{is_constant, is_text};

use jv_data::Val;
use std::alloc::{AllocError, Global};

/// A constant: null, a boolean, a number or a string.
#[derive(Drop)]
pub struct Literal {
    value: Val,
    ghost constant: { IsTrue (is_constant (view value)) },
}

impl Literal {
    pub fn null() -> Literal
        ensures { view result.value ≡ null }
    {
        Literal { value: Val::Null }
    }

    pub fn boolean(value: bool) -> Literal
        ensures { view result.value ≡ boolean value }
    {
        Literal {
            value: Val::Bool(value),
        }
    }

    pub fn number(value: i64) -> Literal
        ensures { view result.value ≡ number value }
    {
        Literal {
            value: Val::Num(value),
        }
    }

    pub fn string(alloc: Global, text: String) -> Result<Literal, AllocError>
        ensures { IfOk result (λ l. view l.value ≡ string (text_of text)) }
    {
        let value = Val::from_string(alloc, text)?;
        Ok(Literal { value })
    }

    pub fn value(&self) -> &Val
        ensures same { result.now ≡ self.now.value }
        ensures constant { IsTrue (is_constant (view result.now)) }
    {
        &self.value
    }
}

/// A string that is a key of an object.
#[derive(Drop)]
pub struct Key {
    value: Val,
    ghost text: { IsTrue (is_text (view value)) },
}

impl Key {
    pub fn new(alloc: Global, text: String) -> Result<Key, AllocError>
        ensures { IfOk result (λ k. view k.value ≡ string (text_of text)) }
    {
        let value = Val::from_string(alloc, text)?;
        Ok(Key { value })
    }

    pub fn value(&self) -> &Val
        ensures same { result.now ≡ self.now.value }
        ensures text { IsTrue (is_text (view result.now)) }
    {
        &self.value
    }
}
