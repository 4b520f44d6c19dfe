// Groups of 128 pages with their sums: so an edit finds its page, and totals are taken, without going over all pages.
ghost use Rattle.std.specs.Prelude.{◌≡◌, ℕ, ◌+◌, ◌*◌, ◌/◌, ◌<◌, ◌≤◌, ◌^◌, min, length, take, drop, slice_index_or};
ghost use Rattle.jq_pages.specs.Totals.{totals};
ghost use Rattle.jq_pages.specs.private.Bounds.{IsBounded};
ghost use Rattle.jq_pages.specs.private.Groups.{IsFew, IsGroup, IsIndex, IsIndexBut, group_pages};
ghost use Rattle.jq_pages.specs.private.Pages.{all_pieces};
ghost use Rattle.jq_pages.specs.private.Reruns.{count_in};

use crate::page::Page;
use crate::placing::count_inputs;
use crate::summing::totals_in;
use crate::totals::Totals;

/// The number of pages in a group.
pub(crate) const PAGES_IN_GROUP: usize = 128;

/// The number of inputs of a group of pages, and the totals of their pieces.
#[derive(Clone, Copy)]
pub(crate) struct Group {
    pub(crate) count: usize,
    pub(crate) sum: Totals,
}

// The pages of group `g`.
fn pages_of<T>(pages: &[Page<T>], g: usize) -> &[Page<T>]
    requires { 128 * (g + 1) ≤ length pages.now }
    ensures { result.now ≡ group_pages g pages.now }
{
    &pages[g * PAGES_IN_GROUP..(g + 1) * PAGES_IN_GROUP]
}

// The sums of the pages of a group.
fn group_of<T>(pages: &[Page<T>]) -> Group
    requires { IsFew pages.now }
    ensures { IsGroup result pages.now }
{
    Group {
        count: count_inputs(pages),
        sum: totals_in(pages),
    }
}

// The smaller of two numbers.
fn smaller(a: usize, b: usize) -> usize
    ensures { result ≡ min a b }
{
    if a < b { a } else { b }
}

// Sums the groups of pages `first` to `last` again.
pub(crate) fn sum_again<T>(groups: &mut Vec<Group>, pages: &[Page<T>], first: usize, last: usize)
    requires others { IsIndexBut groups.old.items pages.now (first / 128) (last / 128 + 1) }
    requires few { (g : ℕ) → IsFew (group_pages g pages.now) }
    ensures { IsIndex groups.new.items pages.now }
{
    let end = smaller(last / PAGES_IN_GROUP + 1, groups.len());
    for g in first / PAGES_IN_GROUP..end {
        groups[g] = group_of(pages_of(pages, g));
    }
}

// Adds the groups of the pages after those that have one. If there is no memory, the rest of the pages stays without.
pub(crate) fn add_groups<T>(groups: &mut Vec<Group>, pages: &[Page<T>])
    requires index { IsIndex groups.old.items pages.now }
    requires few { (g : ℕ) → IsFew (group_pages g pages.now) }
    ensures { IsIndex groups.new.items pages.now }
{
    for g in groups.len()..pages.len() / PAGES_IN_GROUP {
        if groups.push(group_of(pages_of(pages, g))).is_err() {
            return;
        }
    }
}

// Keeps the groups of the pages before page `j`.
pub(crate) fn cut_groups(groups: &mut Vec<Group>, j: usize)
    ensures { groups.new.items ≡ take (j / 128) groups.old.items }
{
    groups.truncate(j / PAGES_IN_GROUP);
}

// The totals of the pieces before page `j`.
pub(crate) fn totals_before<T>(groups: &[Group], pages: &[Page<T>], j: usize) -> Totals
    requires index { IsIndex groups.now pages.now }
    requires page { j ≤ length pages.now }
    requires few { length (all_pieces pages.now) < 2 ^ 32 }
    ensures value { result ≡ totals (all_pieces (take j pages.now)) }
    ensures bounded { IsBounded result (length (all_pieces (take j pages.now))) }
{
    let whole = smaller(j / PAGES_IN_GROUP, groups.len());
    let mut sum = Totals::none();
    for group in &groups[..whole] {
        sum = sum.and(group.sum);
    }
    sum.and(totals_in(&pages[whole * PAGES_IN_GROUP..j]))
}

// The page of the input of this number, and its place in the page.
fn find_in<T>(pages: &[Page<T>], place: usize) -> (usize, usize)
    requires { place < count_in pages.now }
    ensures page { result.0 < length pages.now }
    ensures place { count_in (take result.0 pages.now) + result.1 ≡ place }
    ensures within { (d : Page T) → result.1 < length (slice_index_or pages.now result.0 d).inputs.items }
{
    let mut left = place;
    for (j, page) in pages.iter().enumerate() {
        let count = page.inputs.len();
        if left < count {
            return (j, left);
        }
        left -= count;
    }
    unreachable!()
}

// The same, if the number is `left` more than that of the inputs before page `from`.
fn find_from<T>(pages: &[Page<T>], from: usize, left: usize) -> (usize, usize)
    requires from { from ≤ length pages.now }
    requires place { count_in (take from pages.now) + left < count_in pages.now }
    ensures page { result.0 < length pages.now }
    ensures place { count_in (take result.0 pages.now) + result.1 ≡ count_in (take from pages.now) + left }
    ensures within { (d : Page T) → result.1 < length (slice_index_or pages.now result.0 d).inputs.items }
{
    let (j, i) = find_in(&pages[from..], left);
    (from + j, i)
}

// The page of the input of this number, and its place in the page.
pub(crate) fn find<T>(groups: &[Group], pages: &[Page<T>], place: usize) -> (usize, usize)
    requires index { IsIndex groups.now pages.now }
    requires place { place < count_in pages.now }
    ensures page { result.0 < length pages.now }
    ensures place { count_in (take result.0 pages.now) + result.1 ≡ place }
    ensures within { (d : Page T) → result.1 < length (slice_index_or pages.now result.0 d).inputs.items }
{
    let mut left = place;
    for (g, group) in groups.iter().enumerate() {
        if left < group.count {
            return find_from(pages, g * PAGES_IN_GROUP, left);
        }
        left -= group.count;
    }
    find_from(pages, groups.len() * PAGES_IN_GROUP, left)
}
