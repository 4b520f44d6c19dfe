// The names of an object's members, in order. Objects with the same names may share them.
ghost use Rattle.std.specs.Prelude.{◌≡◌, ◌≤◌, ◌<◌, IfOk, IsTrue, MatchResult, OnErr, OnOk, length, map, string_bytes};
ghost use Rattle.std.specs.Cmp.Lexicographic.{slice_cmp};
ghost use Rattle.std.specs.List.{insert, remove};
ghost use Rattle.std.specs.List.Sorted.{IsStrictlySortedBy, IsStrictlySortedBy-prop};
ghost use Rattle.std.specs.Ordering.{nat_cmp};
ghost use Rattle.jv_data.specs.Names.{IsAt};
ghost use Rattle.jv_data.specs.private.Names.{GoesTo};

use std::alloc::{AllocError, Global};
use std::cmp::Ordering;

#[derive(Drop)]
pub(crate) struct Names {
    texts: Vec<String>,
    ghost rising: { IsStrictlySortedBy (slice_cmp nat_cmp) (map string_bytes texts.items) } by { IsStrictlySortedBy-prop (slice_cmp nat_cmp) (map string_bytes texts.items) },
}

impl Names {
    pub(crate) fn new(alloc: Global) -> Names
        ensures { length result.texts.items ≡ 0 }
    {
        Names {
            texts: Vec::new(alloc),
        }
    }

    pub(crate) fn as_slice(&self) -> &[String]
        ensures texts { result.now ≡ self.now.texts.items }
        ensures rising { IsStrictlySortedBy (slice_cmp nat_cmp) (map string_bytes self.now.texts.items) }
    {
        self.texts.as_slice()
    }

    // The index of a name, or the index at which it would go.
    pub(crate) fn find(&self, name: &str) -> Result<usize, usize>
        ensures place { MatchResult result (IsAt name.now (map string_bytes self.now.texts.items)) (GoesTo name.now (map string_bytes self.now.texts.items)) }
        ensures rising { IsStrictlySortedBy (slice_cmp nat_cmp) (map string_bytes self.now.texts.items) }
    {
        find(name, self.texts.as_slice())
    }

    // Whether the name is the one at the index.
    #[inline(always)]
    pub(crate) fn is_at(&self, index: usize, name: &str) -> bool
        ensures { IsTrue result → IsAt name.now (map string_bytes self.now.texts.items) index }
    {
        match self.texts.get(index) {
            Some(text) => are_equal(text.as_str().as_bytes(), name.as_bytes()),
            None => false,
        }
    }

    pub(crate) fn insert(&mut self, index: usize, name: String) -> Result<(), AllocError>
        requires { GoesTo (string_bytes name) (map string_bytes self.old.texts.items) index }
        ensures ok { OnOk result (self.new.texts.items ≡ insert self.old.texts.items index name) }
        ensures err { OnErr result (self.new.texts.items ≡ self.old.texts.items) }
    {
        self.texts.insert(index, name)?;
        Ok(())
    }

    pub(crate) fn remove(&mut self, index: usize)
        requires { index < length self.old.texts.items }
        ensures { self.new.texts.items ≡ remove self.old.texts.items index }
    {
        drop(self.texts.remove(index));
    }
}

impl Clone for Names {
    ghost is_clone = { λ m n. map string_bytes n.texts.items ≡ map string_bytes m.texts.items };

    fn clone(&self) -> Result<Names, AllocError> {
        Ok(Names {
            texts: self.texts.clone()?,
        })
    }
}

// By a loop, since most names are short.
#[inline(always)]
fn compare(left: &str, right: &str) -> Ordering
    ensures { result ≡ slice_cmp nat_cmp left.now right.now }
{
    let mut others = right.as_bytes().iter();
    for byte in left.as_bytes() {
        match others.next() {
            None => return Ordering::Greater,
            Some(other) => match (*byte).cmp(other) {
                Ordering::Equal => {}
                unequal => return unequal,
            },
        }
    }
    match others.next() {
        None => Ordering::Equal,
        Some(_) => Ordering::Less,
    }
}

#[inline(always)]
fn are_equal(left: &[u8], right: &[u8]) -> bool
    ensures { IsTrue result → left.now ≡ right.now }
{
    if left.len() != right.len() {
        return false;
    }
    let mut others = right.iter();
    for byte in left {
        match others.next() {
            None => return false,
            Some(other) => {
                if *byte != *other {
                    return false;
                }
            }
        }
    }
    others.next().is_none()
}

// By halves.
fn find(name: &str, texts: &[String]) -> Result<usize, usize>
    requires { IsStrictlySortedBy (slice_cmp nat_cmp) (map string_bytes texts.now) }
    ensures { MatchResult result (IsAt name.now (map string_bytes texts.now)) (GoesTo name.now (map string_bytes texts.now)) }
{
    let mut low = 0;
    let mut high = texts.len();
    while low < high {
        let middle = low + (high - low) / 2;
        match compare(name, texts[middle].as_str()) {
            Ordering::Less => high = middle,
            Ordering::Equal => return Ok(middle),
            Ordering::Greater => low = middle + 1,
        }
    }
    Err(low)
}
