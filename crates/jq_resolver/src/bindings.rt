// The binders around a tree, found by their names in constant time on average.
ghost use Rattle.std.specs.Prelude.{◌≡◌, ◌∷◌, [], ◌-◌, ◌<◌, false, IfOk, MatchOption, OnOk, drop, length};
ghost use Rattle.jq_tree.specs.BoundTree.{nowhere};
ghost use Rattle.jq_tree.specs.Binders.{binder, prelude_binder};
ghost use Rattle.jq_tree.specs.Names.{is_bound, same_reference};
ghost use Rattle.jq_resolver.specs.private.Bindings.{IsBinder, IsPreludeBinder, reference_in, references, referred};
ghost use Rattle.jq_resolver.specs.private.Buckets.{bucket_of, seed_of};

use jv_data::NoMemory;
use std::alloc::Global;
use std::marker::Model;

// The number of buckets: few names share one, and a new table is small.
const BUCKETS: usize = 1024;

// The kind of a binder.
#[derive(Clone, Copy, Debug, PartialEq, Eq)]
pub(crate) enum Kind {
    // With this number of parameters.
    Function(usize),
    Variable,
    Label,
}

// A binder.
#[derive(Drop)]
pub(crate) struct Bound {
    kind: Kind,
    name: String,
    // The next binder outward of the same bucket, as the number of binders up to it and with it; 0 if there is none.
    before: usize,
}

// The binders around a tree, the innermost last. Those of each bucket are linked, from the innermost one outward.
#[derive(Drop)]
pub(crate) struct Bindings {
    alloc: Global,
    binders: Vec<Bound>,
    // The innermost binder of each bucket, as the number of binders up to it and with it; 0 if there is none.
    latest: Vec<usize>,
}

impl Model for Bindings {
    ghost use Rattle.std.specs.Prelude.{ℕ, List, map, reverse};
    ghost use Rattle.jq_resolver.specs.declared.bindings.Kind.{Kind};

    ghost Value = { List (Kind × List ℕ) };

    ghost use Rattle.jq_resolver.specs.private.Bindings.{named_in};
    ghost use Rattle.jq_resolver.specs.private.Buckets.{AreLinked};

    ghost view = { λ b. reverse (map named_in b.binders.items) };

    ghost invariant = { λ b. AreLinked b.binders.items b.latest.items };
}

impl Bindings {
    pub(crate) fn new(alloc: Global) -> Result<Bindings, NoMemory>
        ensures { IfOk result (λ b. b ≡ []) }
    {
        let latest = vec![in alloc; 0; BUCKETS]?;
        Ok(Bindings {
            alloc,
            binders: Vec::new(alloc),
            latest,
        })
    }

    pub(crate) fn len(&self) -> usize
        ensures { result ≡ length self.now }
    {
        self.binders.len()
    }

    pub(crate) fn enter(&mut self, kind: Kind, name: &str) -> Result<(), NoMemory>
        ensures { OnOk result (self.new ≡ (kind, name.now) ∷ self.old) }
    {
        let bucket = bucket_of(kind, name);
        let name = String::from_str(self.alloc, name)?;
        let before = self.latest[bucket];
        self.binders.push(Bound { kind, name, before })?;
        self.latest[bucket] = self.binders.len();
        Ok(())
    }

    // Leaves the innermost binder.
    pub(crate) fn leave(&mut self)
        ensures { self.new ≡ drop 1 self.old }
    {
        if let Some(bound) = self.binders.pop() {
            let bucket = bucket_of(bound.kind, bound.name.as_str());
            self.latest[bucket] = bound.before;
        }
    }

    // The innermost binder of a name, as the number of binders outside it.
    pub(crate) fn innermost(&self, kind: Kind, name: &str) -> Option<usize>
        ensures { MatchOption result (is_bound (referred kind name.now) (references self.now) ≡ false) (IsBinder (references self.now) (referred kind name.now)) }
    {
        let mut left = self.latest[bucket_of(kind, name)];
        while left > 0 {
            let bound = &self.binders[left - 1];
            if binds(bound, kind, name) {
                return Some(left - 1);
            }
            left = bound.before;
        }
        None
    }

    // The outermost binder of a name, as the number of binders outside it.
    pub(crate) fn outermost(&self, kind: Kind, name: &str) -> Option<usize>
        ensures { MatchOption result (prelude_binder (references self.now) (referred kind name.now) ≡ nowhere) (IsPreludeBinder (references self.now) (referred kind name.now)) }
    {
        for i in 0..self.binders.len() {
            if binds(&self.binders[i], kind, name) {
                return Some(i);
            }
        }
        None
    }
}

fn binds(bound: &Bound, kind: Kind, name: &str) -> bool
    ensures { result ≡ same_reference (referred kind name.now) (reference_in bound.now) }
{
    bound.kind == kind && bound.name.as_str() == name
}

// The bucket of the binders of this kind and name: a hash of both.
fn bucket_of(kind: Kind, name: &str) -> usize
    ensures value { result ≡ bucket_of kind name.now }
    ensures within { result < 1024 }
{
    let mut hash = seed_of(kind);
    for byte in name.as_bytes() {
        hash = (hash * 37 + usize::from(*byte)) % BUCKETS;
    }
    hash
}

// What the hash of a name starts from, so that a variable and a function with the same name have different buckets.
fn seed_of(kind: Kind) -> usize
    ensures value { result ≡ seed_of kind }
    ensures within { result < 1024 }
{
    match kind {
        Kind::Function(arity) => arity % BUCKETS,
        Kind::Variable => BUCKETS - 1,
        Kind::Label => BUCKETS - 2,
    }
}
