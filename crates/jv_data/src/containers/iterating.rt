// The members of an object, one after the other.
ghost use Rattle.std.specs.Prelude.{◌≡◌, String, [], length, unwrap_or};
ghost use Rattle.std.specs.declared.alloc.Global.{Global};
ghost use Rattle.std.specs.Iterator.{at_most};
ghost use Rattle.std.specs.Map.Iter.{TakesFirst, deref_pair};

use std::collections::btree_map;
use std::marker::Model;
use std::slice;

/// The members of an object, in the order of their keys: those of a list of names and a list of values, and then those of a map.
#[derive(Drop)]
pub struct Iter<'a, T> {
    pub(crate) names: slice::Iter<'a, String>,
    pub(crate) values: slice::Iter<'a, T>,
    pub(crate) rest: Option<btree_map::Iter<'a, String, T>>,
}

impl<'a, T> Model for Iter<'a, T> {
    ghost use Rattle.std.specs.Prelude.{List, String, [], ◌++◌, unwrap_or};
    ghost use Rattle.std.specs.declared.alloc.Global.{Global};
    ghost use Rattle.std.specs.List.{zip};
    ghost use Rattle.std.specs.Slice.Iter.{iter_rest};

    ghost Value = { List (String Global × T) };

    ghost view = { λ a. zip (iter_rest a.names) (iter_rest a.values) ++ unwrap_or a.rest [] };
}

impl<'a, T> Iterator for Iter<'a, T> {
    type Item = (&'a String, &'a T);

    ghost next_gives = { TakesFirst deref_pair };

    ghost remaining = { λ s. at_most (length s) };

    #[tactic(auto, using(crate::proofs::Names::zip_none))]
    fn next(&mut self) -> Option<(&'a String, &'a T)> {
        match self.names.next() {
            Some(name) => match self.values.next() {
                Some(value) => Some((name, value)),
                None => next_of(&mut self.rest),
            },
            None => next_of(&mut self.rest),
        }
    }
}

fn next_of<'a, T>(rest: &mut Option<btree_map::Iter<'a, String, T>>) -> Option<(&'a String, &'a T)>
    ensures { TakesFirst (deref_pair {K = String Global} {X = T}) (unwrap_or rest.old []) result (unwrap_or rest.new []) }
{
    match rest {
        Some(rest) => rest.next(),
        None => None,
    }
}
