// What an edit changes after its runs. None of this needs memory: the other inputs of a page stay where they are.
ghost use Rattle.std.specs.Option.{option_to_list};
ghost use Rattle.std.specs.Prelude.{◌≡◌, ◌+◌, ◌<◌, ◌≤◌, ◌^◌, ◌++◌, length, take, drop, map, slice_index_or, MatchOption, None, Some, IsTrue, IsSome, ◌↔◌};
ghost use Rattle.jq_pages.specs.private.Groups.{IsIndex};
ghost use Rattle.jq_pages.specs.private.Moves.{restored, IsSwapped, IsTakenOut};
ghost use Rattle.jq_pages.specs.private.Pages.{parts, HasInputRoom, HasRoom};
ghost use Rattle.jq_pages.specs.private.Placed.{Dropped, Installed, Replaced};
ghost use Rattle.jq_pages.specs.private.Reruns.{count_in, renewed, run_in};
ghost use Rattle.jq_pages.specs.declared.applying.Taken.TheVariants as taken;

use crate::editing::Made;
use crate::grouping::{Group, cut_groups};
use crate::lists::edit_list;
use crate::page::{Page, Rerun};
use crate::pieces::Piece;
use jv_data::Val;
use std::mem;

// Exchanges the pieces and the state of a page and those of a run.
fn swap_run<T: Drop>(page: &mut Page<T>, run: &mut Rerun<T>)
    ensures inputs { page.new.inputs ≡ page.old.inputs }
    ensures page { (page.new.pieces ≡ run.old.pieces) × (page.new.exit ≡ run.old.exit) }
    ensures run { (run.new.pieces ≡ page.old.pieces) × (run.new.exit ≡ page.old.exit) }
{
    mem::swap(&mut page.pieces, &mut run.pieces);
    mem::swap(&mut page.exit, &mut run.exit);
}

// Exchanges the pieces and states of the pages from a place on and those of these runs.
pub(crate) fn swap_runs<T: Drop>(pages: &mut Vec<Page<T>>, from: usize, runs: &mut Vec<Rerun<T>>)
    requires { from + length runs.old.items ≤ length pages.old.items }
    ensures pages { pages.new.items ≡ take from pages.old.items ++ renewed (drop from pages.old.items) runs.old.items }
    ensures runs { runs.new.items ≡ map run_in (take (length runs.old.items) (drop from pages.old.items)) }
{
    for at in 0..runs.len() {
        swap_run(&mut pages[from + at], &mut runs[at]);
    }
}

// Exchanges the piece of `close` and another one, if there is one.
pub(crate) fn swap_tail(tail: &mut Piece, closing: &mut Option<Piece>)
    ensures tail { MatchOption closing.old (tail.new ≡ tail.old) (λ p. tail.new ≡ p) }
    ensures closing { MatchOption closing.old (closing.new ≡ None) (λ p. closing.new ≡ Some tail.old) }
{
    if let Some(piece) = closing {
        mem::swap(tail, piece);
    }
}

// Whether there is another piece of `close`.
pub(crate) fn is_closed(closing: &Option<Piece>) -> bool
    ensures { IsTrue result ↔ IsSome closing.now }
{
    closing.is_some()
}

// The pages after page `j`.
pub(crate) fn pages_after<T>(pages: &[Page<T>], j: usize) -> &[Page<T>]
    requires { j < length pages.now }
    ensures { result.now ≡ drop (j + 1) pages.now }
{
    &pages[j + 1..]
}

// The number of inputs in some pages.
pub(crate) fn count_inputs<T>(pages: &[Page<T>]) -> usize
    requires { count_in pages.now < 2 ^ 32 }
    ensures { result ≡ count_in pages.now }
{
    let mut count = 0;
    for page in pages {
        count += page.inputs.len();
    }
    count
}

// The number of inputs from page `j` up to page `k`.
pub(crate) fn measure<T>(pages: &[Page<T>], j: usize, k: usize) -> usize
    requires order { j ≤ k }
    requires within { k ≤ length pages.now }
    requires few { count_in pages.now < 2 ^ 32 }
    ensures { count_in (take j pages.now) + result ≡ count_in (take k pages.now) }
{
    count_inputs(&pages[j..k])
}

// Edits a page, and exchanges its pieces and state, those of the pages after it, and the piece of `close` for what was run. After it
// `made` has the old ones; so the same call with the removed input, which it gives, takes an edit back.
pub(crate) fn exchange<T: Drop>(
    pages: &mut Vec<Page<T>>,
    tail: &mut Piece,
    j: usize,
    i: usize,
    put: Option<Val>,
    cut: usize,
    made: &mut Made<T>,
) -> Option<Val>
    requires page { j + 1 + length made.old.runs.items ≤ length pages.old.items }
    requires cut { cut ≤ 1 }
    requires place { (d : Page T) → i + cut ≤ length (slice_index_or pages.old.items j d).inputs.items }
    requires room { cut ≡ 0 → HasInputRoom pages.old.items j }
    ensures pages { Installed pages.old.items pages.new.items j i (option_to_list put) cut made.old.run made.old.runs.items }
    ensures put { cut ≡ 0 → map parts pages.new.items ≡ restored (map parts pages.old.items) j i (taken.Runs put made.old) }
    ensures back { cut ≡ 1 → put ≡ None → IsTakenOut pages.old.items pages.new.items j i (taken.Runs result made.new) }
    ensures swapped { IsSwapped made.old made.new tail.old tail.new }
{
    let page = &mut pages[j];
    let taken = edit_list(&mut page.inputs, i, put, cut);
    swap_run(page, &mut made.run);
    swap_runs(pages, j + 1, &mut made.runs);
    swap_tail(tail, &mut made.tail);
    taken
}

// Edits a page and its pieces at one place; its state stays. It gives the removed input and its piece.
pub(crate) fn exchange_one<T: Drop>(
    pages: &mut Vec<Page<T>>,
    j: usize,
    i: usize,
    put: Option<Val>,
    piece: Option<Piece>,
    cut: usize,
) -> (Option<Val>, Option<Piece>)
    requires page { j < length pages.old.items }
    requires cut { cut ≤ 1 }
    requires place { (d : Page T) → i + cut ≤ length (slice_index_or pages.old.items j d).inputs.items }
    requires have { (d : Page T) → i + cut ≤ length (slice_index_or pages.old.items j d).pieces.items.items }
    requires room { cut ≡ 0 → HasRoom pages.old.items j }
    ensures pages { Replaced pages.old.items pages.new.items j i (option_to_list put) (option_to_list piece) cut }
    ensures put { cut ≡ 0 → map parts pages.new.items ≡ restored (map parts pages.old.items) j i (taken.One put piece) }
    ensures back { cut ≡ 1 → put ≡ None → piece ≡ None → IsTakenOut pages.old.items pages.new.items j i (taken.One result.0 result.1) }
{
    let page = &mut pages[j];
    let value = edit_list(&mut page.inputs, i, put, cut);
    let old = page.pieces.edit(i, piece, cut);
    (value, old)
}

// Removes page `j` if it has no input.
pub(crate) fn drop_empty<T: Drop>(groups: &mut Vec<Group>, pages: &mut Vec<Page<T>>, j: usize)
    requires page { j < length pages.old.items }
    requires index { IsIndex groups.old.items pages.old.items }
    ensures pages { Dropped pages.old.items pages.new.items j }
    ensures index { IsIndex groups.new.items pages.new.items }
{
    if pages[j].inputs.is_empty() {
        pages.remove(j);
        cut_groups(groups, j);
    }
}
