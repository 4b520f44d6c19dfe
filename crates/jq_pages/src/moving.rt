// A move: a removal and an insertion, of which both are made or neither. What the removal took out is kept until the insertion
// is made; if that is refused, it is put back, which needs no memory.
ghost use Rattle.std.specs.Prelude.{◌≡◌, ◌+◌, ◌<◌, ◌≤◌, ◌^◌, ◌∷◌, ◌++◌, [], length, map, take, slice_index_or, IfOk, OnErr, OnOk};
ghost use Rattle.jv_data.specs.View.{view};
ghost use Rattle.jq_pages.specs.Pieces.{piece_view};
ghost use Rattle.jq_pages.specs.Totals.{totals};
ghost use Rattle.jq_pages.specs.private.Cuts.{IsReport};
ghost use Rattle.jq_pages.specs.private.Edits.{changed, IsEdit};
ghost use Rattle.jq_pages.specs.private.Groups.{IsIndex, IsSummed};
ghost use Rattle.jq_pages.specs.private.Keeps.{IsKept, IsStored};
ghost use Rattle.jq_pages.specs.private.Moves.{restored, restored_tail, HasPlace, IsMoveStart, IsShift, IsShiftIn, IsTarget, IsUntouched};
ghost use Rattle.jq_pages.specs.private.Pages.{all_inputs, all_pieces, parts, IsAt, IsFreePlace, IsHeld, IsPlace};
ghost use Rattle.jq_pages.specs.private.Placed.{Resized};
ghost use Rattle.jq_pages.specs.private.Reruns.{count_in};

use crate::applying::{Taken, edit_either, settle};
use crate::changes::{Edited, Moved};
use crate::cutting::totals_with;
use crate::grouping::{Group, cut_groups, find};
use crate::page::Page;
use crate::pieces::Piece;
use crate::placing::{exchange, exchange_one};
use crate::rooms::{make_room, reserve_in};
use crate::steps::Steps;
use crate::totals::Totals;
use jv_data::{NoMemory, Val};
use std::alloc::Global;

/// The place of an input: its page, and its number there.
#[derive(Clone, Copy)]
pub(crate) struct Spot {
    pub(crate) page: usize,
    pub(crate) at: usize,
}

// A copy of the input at a place, which shares what it holds.
fn copy_of<T>(pages: &[Page<T>], spot: Spot) -> Result<Val, NoMemory>
    requires page { spot.page < length pages.now }
    requires at { (d : Page T) → spot.at < length (slice_index_or pages.now spot.page d).inputs.items }
    ensures { IfOk result (λ v. (d : Page T) (w : Val) → view v ≡ view (slice_index_or (slice_index_or pages.now spot.page d).inputs.items spot.at w)) }
{
    match pages[spot.page].inputs[spot.at].clone() {
        Ok(value) => Ok(value),
        Err(_) => Err(NoMemory),
    }
}

// The totals of all pieces.
fn totals_now<T>(head: &Piece, groups: &[Group], pages: &[Page<T>], tail: &Piece) -> Totals
    requires index { IsIndex groups.now pages.now }
    requires few { length (all_pieces pages.now) < 2 ^ 32 }
    ensures { result ≡ totals (piece_view head.now ∷ (all_pieces pages.now ++ (piece_view tail.now ∷ []))) }
{
    let before = totals_with(head, groups, pages, pages.len());
    before.and(Totals::of(tail))
}

// Puts back what the removal at a place took out. The sums of the groups are made again later.
fn put_back<T: Drop>(
    groups: &mut Vec<Group>,
    pages: &mut Vec<Page<T>>,
    tail: &mut Piece,
    spot: Spot,
    taken: Taken<T>,
)
    requires place { HasPlace pages.old.items spot.page taken }
    requires within { (d : Page T) → spot.at ≤ length (slice_index_or pages.old.items spot.page d).inputs.items }
    requires have { (d : Page T) → spot.at ≤ length (slice_index_or pages.old.items spot.page d).pieces.items.items }
    ensures pages { map parts pages.new.items ≡ restored (map parts pages.old.items) spot.page spot.at taken }
    ensures tail { tail.new ≡ restored_tail tail.old taken }
    ensures groups { IsIndex groups.new.items pages.new.items }
{
    cut_groups(groups, 0);
    match taken {
        Taken::Runs(value, mut made) => {
            let _none = exchange(pages, tail, spot.page, spot.at, value, 0, &mut made);
        }
        Taken::One(value, piece) => {
            let _none = exchange_one(pages, spot.page, spot.at, value, piece, 0);
        }
    }
}

// Inserts an input at a place of a page that is not full.
fn insert_in<S: Steps>(
    alloc: Global,
    steps: &mut S,
    head: &Piece,
    first: &S::State,
    groups: &mut Vec<Group>,
    pages: &mut Vec<Page<S::State>>,
    tail: &mut Piece,
    l: usize,
    spot: Spot,
    value: Val,
) -> Result<Edited, NoMemory>
    requires free { IsFreePlace pages.old.items l spot.page spot.at }
    requires summed { IsSummed groups.old.items pages.old.items }
    requires held { ∥ IsHeld S.seen (S.fold steps.old) (S.seen first.now) pages.old.items tail.old ∥₁ }
    ensures edit { IsEdit S.seen (S.fold steps.old) (S.seen first.now) pages.old.items pages.new.items l (value ∷ []) 0 spot.at (S.starts steps.old) (S.starts steps.new) (changed result) }
    ensures kept { IsKept S.seen (S.fold steps.old) (S.fold steps.new) (S.seen first.now) groups.new.items pages.new.items tail.new }
    ensures report { IfOk result (λ e. IsReport e (piece_view head.now) (all_pieces pages.old.items) (all_pieces pages.new.items) tail.old tail.new) }
    ensures resized { OnOk result (Resized pages.old.items pages.new.items spot.page 1 0) }
    ensures unchanged { OnErr result (IsUntouched pages.old.items pages.new.items tail.old tail.new) }
{
    reserve_in(pages, spot.page)?;
    let (edited, _taken) = edit_either(
        alloc,
        steps,
        head,
        first,
        groups,
        pages,
        tail,
        l,
        spot.page,
        spot.at,
        Some(value),
        0,
    )?;
    Ok(edited)
}

// Removes the input at one place and inserts it at another one. No page is added or removed.
fn shift_in<S: Steps>(
    alloc: Global,
    steps: &mut S,
    head: &Piece,
    first: &S::State,
    groups: &mut Vec<Group>,
    pages: &mut Vec<Page<S::State>>,
    tail: &mut Piece,
    k: usize,
    from: Spot,
    l: usize,
    to: Spot,
) -> Result<Moved, NoMemory>
    requires at { IsAt pages.old.items k from.page from.at 0 1 }
    requires to { IsTarget pages.old.items from.page to.page to.at l }
    requires summed { IsSummed groups.old.items pages.old.items }
    requires held { ∥ IsHeld S.seen (S.fold steps.old) (S.seen first.now) pages.old.items tail.old ∥₁ }
    ensures shifted { IfOk result (λ m. IsShiftIn S.seen (S.fold steps.old) (S.seen first.now) (piece_view head.now) pages.old.items pages.new.items tail.old tail.new k l from.page to.page m) }
    ensures back { OnErr result (map parts pages.new.items ≡ map parts pages.old.items) }
    ensures kept { IsKept S.seen (S.fold steps.old) (S.fold steps.new) (S.seen first.now) groups.new.items pages.new.items tail.new }
    ensures starts { IsMoveStart (S.fold steps.old) (S.seen first.now) (all_inputs pages.old.items) k l from.at to.at (S.starts steps.old) (S.starts steps.new) result }
{
    let value = copy_of(pages, from)?;
    let (removal, taken) = edit_either(
        alloc, steps, head, first, groups, pages, tail, k, from.page, from.at, None, 1,
    )?;
    let between = totals_now(head, groups, pages, tail);
    let starts = steps.count();
    match insert_in(alloc, steps, head, first, groups, pages, tail, l, to, value) {
        Ok(insertion) => Ok(Moved {
            removal,
            between,
            starts,
            insertion,
        }),
        Err(refused) => {
            put_back(groups, pages, tail, from, taken);
            Err(refused)
        }
    }
}

// The place before the removal of input `k` that is place `l` after it.
fn gap_of(k: usize, l: usize) -> usize
    requires { l < 2 ^ 32 }
    ensures later { k ≤ l → result ≡ l + 1 }
    ensures earlier { l < k → result ≡ l }
{
    if l >= k { l + 1 } else { l }
}

// The place of the insertion, by that of the room for it: the removal moves the later inputs of its page by one.
fn target_of<T>(pages: &[Page<T>], from: Spot, k: usize, l: usize, page: usize, at: usize) -> Spot
    requires from { IsPlace pages.now from.page from.at 0 1 }
    requires room { IsPlace pages.now page at 1 0 }
    requires spot { count_in (take from.page pages.now) + from.at ≡ k }
    requires later { k ≤ l → count_in (take page pages.now) + at ≡ l + 1 }
    requires earlier { l < k → count_in (take page pages.now) + at ≡ l }
    ensures target { IsTarget pages.now from.page result.page result.at l }
    ensures page { result.page ≡ page }
    ensures at { result.at ≤ at }
{
    if l >= k && page == from.page {
        Spot { page, at: at - 1 }
    } else {
        Spot { page, at }
    }
}

// Moves input `k` to place `l` of the shorter list. Room for it is made before it is removed.
pub(crate) fn shift_at<S: Steps>(
    alloc: Global,
    steps: &mut S,
    head: &Piece,
    first: &S::State,
    groups: &mut Vec<Group>,
    pages: &mut Vec<Page<S::State>>,
    tail: &mut Piece,
    k: usize,
    l: usize,
) -> Result<Moved, NoMemory>
    requires places { (k < count_in pages.old.items) × (l < count_in pages.old.items) }
    requires few { count_in pages.old.items < 2 ^ 32 }
    requires stored { IsStored S.seen (S.fold steps.old) (S.seen first.now) groups.old.items pages.old.items tail.old }
    ensures shifted { IfOk result (λ m. ∥ IsShift S.seen (S.fold steps.old) (S.seen first.now) (piece_view head.now) pages.old.items pages.new.items tail.old tail.new k l m ∥₁) }
    ensures unchanged { OnErr result (all_inputs pages.new.items ≡ all_inputs pages.old.items) }
    ensures stored { IsStored S.seen (S.fold steps.new) (S.seen first.now) groups.new.items pages.new.items tail.new }
    ensures same { S.fold steps.new ≡ S.fold steps.old }
    ensures starts { IsMoveStart (S.fold steps.old) (S.seen first.now) (all_inputs pages.old.items) k l 64 64 (S.starts steps.old) (S.starts steps.new) result }
{
    let gap = gap_of(k, l);
    let (page, at) = make_room(alloc, steps, first, groups, pages, gap)?;
    let (from_page, from_at) = find(groups, pages, k);
    let from = Spot {
        page: from_page,
        at: from_at,
    };
    let to = target_of(pages, from, k, l, page, at);
    match shift_in(
        alloc, steps, head, first, groups, pages, tail, k, from, l, to,
    ) {
        Ok(moved) => {
            settle(alloc, steps, first, groups, pages, tail, from_page);
            Ok(moved)
        }
        Err(refused) => {
            settle(alloc, steps, first, groups, pages, tail, page);
            Err(refused)
        }
    }
}
