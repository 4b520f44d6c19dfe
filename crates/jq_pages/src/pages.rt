// The list of inputs in pages.
ghost use Rattle.std.specs.Prelude.{◌≡◌, ◌≤◌};
ghost use Rattle.jq_pages.specs.Edits.{most_inputs};

use crate::applying::{change_at, insert_at};
use crate::building::run_all;
use crate::changes::{Edited, Moved};
use crate::cutting::totals_with;
use crate::grouping::find;
use crate::kept::Kept;
use crate::moving::shift_at;
use crate::pieces::Piece;
use crate::refusals::{NotStarted, Refusal};
use crate::steps::Steps;
use crate::totals::Totals;
use jv_data::Val;
use std::alloc::Global;

/// The greatest number of inputs.
pub const MOST_INPUTS: usize = 1_000_000;

/// A list of inputs that is edited, numbered from 0, and the piece that the steps of a fold write for each.
///
/// The inputs are in pages of up to 64, each with the state after it. An edit runs the steps from the start of its page up to the end
/// of the first page after which the state is unchanged. If the fold is plain, it runs the edited input alone.
#[derive(Drop)]
pub struct Pages<S: Steps> {
    alloc: Global,
    kept: Kept<S>,
}

impl<S: Steps> Pages<S> {
    ghost use Rattle.std.specs.Prelude.{Ok, Some, ◌<◌, length, map, slice_get, IfErr, IfOk, MatchOption, OnErr, OnOk};
    ghost use Rattle.jv_data.specs.View.{view};
    ghost use Rattle.std.specs.List.{flat_map};
    ghost use Rattle.jq_pages.specs.Changes.{IsChange, IsStart, IsStarted};
    ghost use Rattle.jq_pages.specs.Contents.{folded_in, folded_of, inputs_paged_in, paged_in, starts_of};
    ghost use Rattle.jq_pages.specs.Edits.{after, insert, remove, replace};
    ghost use Rattle.jq_pages.specs.Folds.{all, head, pieces, tail};
    ghost use Rattle.jq_pages.specs.Moves.{after_move, IsMove, IsMoveRefusal, IsMoveStarted};
    ghost use Rattle.jq_pages.specs.Pieces.{piece_view};
    ghost use Rattle.jq_pages.specs.Refusals.{IsRefusal, IsStartRefusal};
    ghost use Rattle.jq_pages.specs.Splices.{IsSpliced};
    ghost use Rattle.jq_pages.specs.Totals.{totals};

    /// Starts with these inputs, in pages of at most 48, and runs all steps. It is refused if there are more than 1,000,000 inputs, or if memory runs out; the
    /// steps then come back with the refusal.
    pub fn start(alloc: Global, mut steps: S, inputs: Vec<Val>) -> Result<Pages<S>, NotStarted<S>>
        ensures folded { IfOk result (λ p. folded_of p ≡ folded_in (S.fold steps) (map view inputs.items)) }
        ensures room { OnOk result (length inputs.items ≤ most_inputs) }
        ensures refused { IfErr result (λ n. IsStartRefusal n.refusal (length inputs.items)) }
        ensures returned { IfErr result (λ n. S.fold n.steps ≡ S.fold steps) }
        ensures started { IfOk result (λ p. IsStart (S.fold steps) (length inputs.items) (S.starts steps) (starts_of p)) }
        ensures at_most { IfErr result (λ n. IsStart (S.fold steps) (length inputs.items) (S.starts steps) (S.starts n.steps)) }
        ensures full { most_inputs < length inputs.items → IfErr result (λ n. S.starts n.steps ≡ S.starts steps) }
    {
        let count = inputs.len();
        if count > MOST_INPUTS {
            return Err(NotStarted {
                steps,
                refusal: Refusal::Full,
            });
        }
        match run_all(alloc, &mut steps, inputs) {
            Ok(first) => Ok(Pages {
                alloc,
                kept: Kept {
                    steps,
                    head: first.head,
                    first: first.first,
                    groups: first.groups,
                    pages: first.pages,
                    tail: first.tail,
                    count,
                },
            }),
            Err(_) => Err(NotStarted {
                steps,
                refusal: Refusal::NoMemory,
            }),
        }
    }

    /// Inserts an input before the one with this number, or after the last one if the number is the count.
    pub fn insert(&mut self, k: u64, value: Val) -> Result<Edited, Refusal>
        ensures edited { OnOk result (after (insert k (view value)) (folded_of self.old) ≡ Ok (folded_of self.new)) }
        ensures change { IfOk result (λ edited. IsChange edited.change (insert k (view value)) (folded_of self.old) (folded_of self.new)) }
        ensures spliced { IfOk result (λ edited. IsSpliced edited (folded_of self.old) (folded_of self.new)) }
        ensures refused { IfErr result (λ refusal. IsRefusal refusal (after (insert k (view value)) (folded_of self.old))) }
        ensures unchanged { OnErr result (folded_of self.new ≡ folded_of self.old) }
        ensures started { IsStarted (insert k (view value)) (folded_of self.old) (starts_of self.old) (starts_of self.new) }
    {
        if k > self.len() {
            return Err(Refusal::NoPlace);
        }
        let kept = &mut self.kept;
        if kept.count == MOST_INPUTS {
            return Err(Refusal::Full);
        }
        let edited = insert_at(
            self.alloc,
            &mut kept.steps,
            &kept.head,
            &kept.first,
            &mut kept.groups,
            &mut kept.pages,
            &mut kept.tail,
            k as usize,
            value,
        )?;
        kept.count += 1;
        Ok(edited)
    }

    /// Replaces an input by a value.
    pub fn replace(&mut self, k: u64, value: Val) -> Result<Edited, Refusal>
        ensures edited { OnOk result (after (replace k (view value)) (folded_of self.old) ≡ Ok (folded_of self.new)) }
        ensures change { IfOk result (λ edited. IsChange edited.change (replace k (view value)) (folded_of self.old) (folded_of self.new)) }
        ensures spliced { IfOk result (λ edited. IsSpliced edited (folded_of self.old) (folded_of self.new)) }
        ensures refused { IfErr result (λ refusal. IsRefusal refusal (after (replace k (view value)) (folded_of self.old))) }
        ensures unchanged { OnErr result (folded_of self.new ≡ folded_of self.old) }
        ensures started { IsStarted (replace k (view value)) (folded_of self.old) (starts_of self.old) (starts_of self.new) }
    {
        if k >= self.len() {
            return Err(Refusal::NoPlace);
        }
        let kept = &mut self.kept;
        Ok(change_at(
            self.alloc,
            &mut kept.steps,
            &kept.head,
            &kept.first,
            &mut kept.groups,
            &mut kept.pages,
            &mut kept.tail,
            k as usize,
            Some(value),
        )?)
    }

    /// Removes an input.
    pub fn remove(&mut self, k: u64) -> Result<Edited, Refusal>
        ensures edited { OnOk result (after (remove k) (folded_of self.old) ≡ Ok (folded_of self.new)) }
        ensures change { IfOk result (λ edited. IsChange edited.change (remove k) (folded_of self.old) (folded_of self.new)) }
        ensures spliced { IfOk result (λ edited. IsSpliced edited (folded_of self.old) (folded_of self.new)) }
        ensures refused { IfErr result (λ refusal. IsRefusal refusal (after (remove k) (folded_of self.old))) }
        ensures unchanged { OnErr result (folded_of self.new ≡ folded_of self.old) }
        ensures started { IsStarted (remove k) (folded_of self.old) (starts_of self.old) (starts_of self.new) }
    {
        if k >= self.len() {
            return Err(Refusal::NoPlace);
        }
        let kept = &mut self.kept;
        let edited = change_at(
            self.alloc,
            &mut kept.steps,
            &kept.head,
            &kept.first,
            &mut kept.groups,
            &mut kept.pages,
            &mut kept.tail,
            k as usize,
            None,
        )?;
        kept.count -= 1;
        Ok(edited)
    }

    /// Moves an input: removes the one of number `k`, and inserts it at place `l` of the shorter list. If it is refused, nothing changed
    /// but the count of starts.
    pub fn shift(&mut self, k: u64, l: u64) -> Result<Moved, Refusal>
        ensures moved { OnOk result (after_move k l (folded_of self.old) ≡ Ok (folded_of self.new)) }
        ensures halves { IfOk result (λ m. IsMove k l m (folded_of self.old) (folded_of self.new)) }
        ensures refused { IfErr result (λ refusal. IsMoveRefusal refusal (after_move k l (folded_of self.old))) }
        ensures unchanged { OnErr result (folded_of self.new ≡ folded_of self.old) }
        ensures counted { IfOk result (λ m. (starts_of self.old ≤ m.starts) × (m.starts ≤ starts_of self.new)) }
        ensures started { IsMoveStarted k l (folded_of self.old) (starts_of self.old) (starts_of self.new) }
    {
        if k >= self.len() || l >= self.len() {
            return Err(Refusal::NoPlace);
        }
        let kept = &mut self.kept;
        Ok(shift_at(
            self.alloc,
            &mut kept.steps,
            &kept.head,
            &kept.first,
            &mut kept.groups,
            &mut kept.pages,
            &mut kept.tail,
            k as usize,
            l as usize,
        )?)
    }

    /// The number of inputs.
    pub fn len(&self) -> u64
        ensures count { result ≡ length (folded_of self.now).inputs }
        ensures bound { result ≤ most_inputs }
    {
        self.kept.count as u64
    }

    /// The piece of the input of this number.
    pub fn piece(&self, i: u64) -> Option<&Piece>
        ensures at { MatchOption result (length (folded_of self.now).inputs ≤ i) (λ p. slice_get (pieces (folded_of self.now)) i ≡ Some (piece_view p.now)) }
    {
        if i >= self.len() {
            return None;
        }
        let (j, at) = find(&self.kept.groups, &self.kept.pages, i as usize);
        Some(&self.kept.pages[j].pieces.items[at])
    }

    /// The piece of `begin`.
    pub fn head(&self) -> &Piece
        ensures { piece_view result.now ≡ head (folded_of self.now) }
    {
        &self.kept.head
    }

    /// The piece of `close`.
    pub fn tail(&self) -> &Piece
        ensures { piece_view result.now ≡ tail (folded_of self.now) }
    {
        &self.kept.tail
    }

    /// The number of pages.
    pub fn page_count(&self) -> usize
        ensures count { result ≡ length (paged_in self.now) }
        ensures joined { flat_map (λ ps. ps) (paged_in self.now) ≡ pieces (folded_of self.now) }
        ensures inputs_count { result ≡ length (inputs_paged_in self.now) }
        ensures inputs_joined { flat_map (λ vs. vs) (inputs_paged_in self.now) ≡ (folded_of self.now).inputs }
    {
        self.kept.pages.len()
    }

    /// The pieces of a page, from 1 to 64. Those of all pages, one page after the other, are the pieces of all inputs.
    pub fn page(&self, j: usize) -> &[Piece]
        requires { j < length (paged_in self.now) }
        ensures pieces { slice_get (paged_in self.now) j ≡ Some (map piece_view result.now) }
        ensures size { (1 ≤ length result.now) × (length result.now ≤ 64) }
    {
        &self.kept.pages[j].pieces.items
    }

    /// The inputs of a page, from 1 to 64. Those of all pages, one page after the other, are all inputs.
    pub fn inputs(&self, j: usize) -> &[Val]
        requires { j < length (inputs_paged_in self.now) }
        ensures inputs { slice_get (inputs_paged_in self.now) j ≡ Some (map view result.now) }
        ensures size { (1 ≤ length result.now) × (length result.now ≤ 64) }
    {
        &self.kept.pages[j].inputs
    }

    /// The totals of all pieces: that of `begin`, those of the inputs and that of `close`.
    pub fn totals(&self) -> Totals
        ensures { result ≡ totals (all (folded_of self.now)) }
    {
        let kept = &self.kept;
        let before = totals_with(&kept.head, &kept.groups, &kept.pages, kept.pages.len());
        before.and(Totals::of(&kept.tail))
    }

    /// The steps, which count how often the filter was started.
    pub fn steps(&self) -> &S
        ensures fold { S.fold result.now ≡ (folded_of self.now).fold }
        ensures starts { S.starts result.now ≡ starts_of self.now }
    {
        &self.kept.steps
    }
    /// Gives the steps back.
    pub fn into_steps(self) -> S
        ensures fold { S.fold result ≡ (folded_of self).fold }
        ensures starts { S.starts result ≡ starts_of self }
    {
        self.kept.steps
    }
}
