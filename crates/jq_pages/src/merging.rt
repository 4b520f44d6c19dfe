// Small pages that are joined to a neighbour.
ghost use Rattle.std.specs.Prelude.{◌≡◌, ◌+◌, ◌<◌, ◌≤◌, [], length, vec_capacity, slice_index_or, IsTrue};
ghost use Rattle.jq_pages.specs.private.Groups.{IsIndex};
ghost use Rattle.jq_pages.specs.private.Placed.{Merged, Merges};

use crate::grouping::{Group, cut_groups};
use crate::lists::append_list;
use crate::page::Page;
use crate::pieces::Piece;
use jv_data::Val;
use std::alloc::Global;

/// The greatest number of inputs of two pages that become one. It is less than a full page has, so that a later insertion does not
/// divide the page again.
const MOST_TOGETHER: usize = 48;

// The first of two neighbours: page `j` and the smaller one of those around it.
fn pair_of<T>(pages: &[Page<T>], j: usize) -> usize
    requires { j ≤ length pages.now }
    ensures { result ≤ j }
{
    if j == 0 {
        return 0;
    }
    if j < pages.len() - 1 && pages[j + 1].inputs.len() < pages[j - 1].inputs.len() {
        return j;
    }
    j - 1
}

// Whether page `k` and the next one become one page.
fn are_small<T>(pages: &[Page<T>], k: usize) -> bool
    ensures page { IsTrue result → k + 1 < length pages.now }
    ensures small { IsTrue result → (d : Page T) → length (slice_index_or pages.now k d).inputs.items + length (slice_index_or pages.now (k + 1) d).inputs.items ≤ 64 }
{
    if pages.is_empty() || k >= pages.len() - 1 {
        return false;
    }
    let count = pages[k].inputs.len();
    let more = pages[k + 1].inputs.len();
    count <= MOST_TOGETHER && more <= MOST_TOGETHER - count
}

// Joins page `k + 1` to page `k`. The lists are where their inputs and pieces move to.
fn join_pages<T: Drop>(pages: &mut Vec<Page<T>>, k: usize, room: Vec<Val>, places: Vec<Piece>)
    requires page { k + 1 < length pages.old.items }
    requires small { (d : Page T) → length (slice_index_or pages.old.items k d).inputs.items + length (slice_index_or pages.old.items (k + 1) d).inputs.items ≤ 64 }
    requires empty { (room.items ≡ []) × (places.items ≡ []) }
    requires room { (d : Page T) → length (slice_index_or pages.old.items k d).inputs.items + length (slice_index_or pages.old.items (k + 1) d).inputs.items ≤ vec_capacity room }
    requires places { (d : Page T) → length (slice_index_or pages.old.items k d).pieces.items.items + length (slice_index_or pages.old.items (k + 1) d).pieces.items.items ≤ vec_capacity places }
    ensures { Merged pages.old.items pages.new.items k }
{
    let Page {
        inputs,
        pieces,
        exit,
    } = pages.remove(k + 1);
    let page = &mut pages[k];
    append_list(&mut page.inputs, room, inputs);
    page.pieces.append(places, pieces);
    page.exit = exit;
}

// Makes page `j` and its smaller neighbour one page, if they are small and there is memory. No input and no piece changes.
pub(crate) fn merge<T: Drop>(
    alloc: Global,
    groups: &mut Vec<Group>,
    pages: &mut Vec<Page<T>>,
    j: usize,
)
    requires page { j ≤ length pages.old.items }
    requires index { IsIndex groups.old.items pages.old.items }
    ensures pages { Merges pages.old.items pages.new.items }
    ensures index { IsIndex groups.new.items pages.new.items }
{
    let k = pair_of(pages, j);
    if !are_small(pages, k) {
        return;
    }
    let count = pages[k].inputs.len() + pages[k + 1].inputs.len();
    let Ok(room) = Vec::with_capacity(alloc, count) else {
        return;
    };
    let pieces = pages[k].pieces.items.len() + pages[k + 1].pieces.items.len();
    let Ok(places) = Vec::with_capacity(alloc, pieces) else {
        return;
    };
    join_pages(pages, k, room, places);
    cut_groups(groups, k);
}
