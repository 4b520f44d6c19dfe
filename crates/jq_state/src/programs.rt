// The program's bindings, with chains through those of each bucket, so that a name finds its binding in constant time.
ghost use Rattle.std.proofs.Props.{props};
ghost use Rattle.std.specs.Prelude.{◌≡◌, ◌-◌, ◌^◌, ◌≤◌, length, map};
ghost use Rattle.jq_state.specs.Buckets.{bucket_of};
ghost use Rattle.jq_state.specs.Chained.{Latest, Earlier};
ghost use Rattle.jq_state.specs.Modify.{KnowsModify};
ghost use Rattle.jq_state.specs.Nodes.{program_binding};

use crate::buckets::{BUCKETS, bucket_of};
use crate::environments::ProgramBinding;
use crate::sought::Sought;
use jv_data::NoMemory;
use std::alloc::Global;

/// The program's bindings, from the outermost to the innermost. For each bucket `latest` has one more than the index of its last
/// binding, and for each index `earlier` has the same for the bindings before it in its bucket; 0 means none. `modify` is the number of
/// bindings up to the prelude's `_modify`, if this is known.
#[derive(Drop)]
pub struct ProgramBindings {
    items: Vec<ProgramBinding>,
    latest: Vec<u32>,
    earlier: Vec<u32>,
    modify: Option<u32>,
    ghost small: { length items.items ≤ 2 ^ 32 - 1 },
    ghost buckets: { length latest.items ≡ 128 },
    ghost places: { length earlier.items ≡ length items.items },
    ghost chains: { Latest (map bucket_of items.items) (length items.items) latest.items } by { Prim.hlevel props },
    ghost links: { Earlier (map bucket_of items.items) earlier.items } by { Prim.hlevel props },
    ghost known: { ∥ KnowsModify (map program_binding items.items) modify ∥₁ },
}

impl ProgramBindings {
    ghost use Rattle.std.specs.Prelude.{IfOk, MatchOption};
    ghost use Rattle.jq_state.specs.Listed.{bindings_in, items_in, is_sought, IsFirstOf, IsLastOf, NoneFrom};
    ghost use Rattle.jq_state.specs.private.Placed.{IsAt, IsNotAt};

    /// Bindings from the outermost to the innermost. Out of memory also if there are more than 2^32 - 1.
    pub fn new(alloc: Global, items: Vec<ProgramBinding>) -> Result<ProgramBindings, NoMemory>
        ensures { IfOk result (λ p. items_in p ≡ items.items) }
    {
        ProgramBindings::with_modify(alloc, items, None)
    }

    /// The same where so many of the bindings end with the prelude's `_modify`.
    pub fn with_modify(
        alloc: Global,
        items: Vec<ProgramBinding>,
        modify: Option<u32>,
    ) -> Result<ProgramBindings, NoMemory>
        requires { KnowsModify (map program_binding items.items) modify }
        ensures { IfOk result (λ p. items_in p ≡ items.items) }
    {
        if items.len() > 4_294_967_295 {
            return Err(NoMemory);
        }
        let mut latest: Vec<u32> = vec![in alloc; 0; BUCKETS]?;
        let mut earlier: Vec<u32> = Vec::with_capacity(alloc, items.len())?;
        for item in items.as_slice() {
            let bucket = bucket_of(item);
            earlier.push(latest[bucket])?;
            latest[bucket] = earlier.len() as u32;
        }
        Ok(ProgramBindings {
            items,
            latest,
            earlier,
            modify,
        })
    }

    /// The number of bindings up to the prelude's `_modify`, if this is known.
    #[inline(always)]
    pub fn modify(&self) -> Option<u32>
        ensures { ∥ KnowsModify (bindings_in self.now) result ∥₁ }
    {
        self.modify
    }

    /// The number of bindings.
    #[inline(always)]
    pub fn len(&self) -> usize
        ensures { result ≡ length (items_in self.now) }
    {
        self.items.len()
    }

    /// The last of the first `end` bindings that matches the search, with its index.
    pub fn last(&self, sought: Sought<'_>, end: u32) -> Option<(u32, &ProgramBinding)>
        ensures { MatchOption result (NoneFrom (is_sought sought.entry) (bindings_in self.now) 0 end) (λ r. IsLastOf (is_sought sought.entry) (bindings_in self.now) end r.0 (program_binding r.1.now)) }
    {
        let bucket = sought.bucket();
        let mut at = self.latest[bucket];
        while at > 0 {
            if let Some(binding) = self.found_at(sought, at - 1, end) {
                return Some((at - 1, binding));
            }
            at = self.earlier[(at - 1) as usize];
        }
        None
    }

    /// The first of the first `end` bindings that matches the search, with its index.
    pub fn first(&self, sought: Sought<'_>, end: u32) -> Option<(u32, &ProgramBinding)>
        ensures { MatchOption result (NoneFrom (is_sought sought.entry) (bindings_in self.now) 0 end) (λ r. IsFirstOf (is_sought sought.entry) (bindings_in self.now) end r.0 (program_binding r.1.now)) }
    {
        let bucket = sought.bucket();
        let mut first = None;
        let mut at = self.latest[bucket];
        while at > 0 {
            if let Some(binding) = self.found_at(sought, at - 1, end) {
                first = Some((at - 1, binding));
            }
            at = self.earlier[(at - 1) as usize];
        }
        first
    }

    // The binding at an index, if it is one of the first `end` and matches the search.
    #[inline]
    fn found_at(&self, sought: Sought<'_>, place: u32, end: u32) -> Option<&ProgramBinding>
        ensures { MatchOption result (IsNotAt (is_sought sought.entry) (bindings_in self.now) end place) (λ b. IsAt (is_sought sought.entry) (bindings_in self.now) end place (program_binding b.now)) }
    {
        if place >= end {
            return None;
        }
        match self.items.get(place as usize) {
            Some(binding) => {
                if sought.finds(binding) {
                    Some(binding)
                } else {
                    None
                }
            }
            None => None,
        }
    }
}
