// Room for one more input.
ghost use Rattle.std.specs.Prelude.{◌≡◌, ℕ, ◌+◌, ◌<◌, ◌≤◌, length, map, IfOk, OnOk, OnErr, IsTrue, slice_index_or};
ghost use Rattle.jq_pages.specs.private.Groups.{IsIndex};
ghost use Rattle.jq_pages.specs.private.Keeps.{IsRearranged, IsRoom, IsRoomStart};
ghost use Rattle.jq_pages.specs.private.Pages.{parts, HasInputRoom, HasRoom, IsFilled, IsFilledBut, IsFreePlace, IsPaged};
ghost use Rattle.jq_pages.specs.private.Placed.{Opened};
ghost use Rattle.jq_pages.specs.private.Reruns.{count_in};

use crate::dividing::{HALF, split_page};
use crate::following::kept_after;
use crate::grouping::{Group, cut_groups, find};
use crate::listing::PieceList;
use crate::page::{MOST_IN_PAGE, Page};
use crate::placing::drop_empty;
use crate::steps::Steps;
use jv_data::NoMemory;
use std::alloc::Global;

// Inserts an empty page before page `j`, or after the last page. No input and no piece changes, and nothing is started.
fn open_page<S: Steps>(
    alloc: Global,
    steps: &S,
    first: &S::State,
    pages: &mut Vec<Page<S::State>>,
    j: usize,
) -> Result<(), NoMemory>
    requires { j ≤ length pages.old.items }
    ensures pages { OnOk result (Opened S.seen (S.seen first.now) pages.old.items pages.new.items j) }
    ensures unchanged { OnErr result (pages.new.items ≡ pages.old.items) }
{
    let exit = steps.copy(kept_after::<S>(first, &pages[..j]))?;
    let page = Page {
        inputs: Vec::new(alloc),
        pieces: PieceList::new(alloc),
        exit,
    };
    pages.insert(j, page)?;
    Ok(())
}

// Whether there is a page `j` with room for one more input.
fn has_room<T>(pages: &[Page<T>], j: usize) -> bool
    ensures page { IsTrue result → j < length pages.now }
    ensures room { IsTrue result → (d : Page T) → length (slice_index_or pages.now j d).inputs.items + 1 ≤ 64 }
{
    j < pages.len() && pages[j].inputs.len() < MOST_IN_PAGE
}

// Finds or makes a page that is not full at a place: the page that has the place before, the next page, a new page, or a part of a
// full page that is divided. No input and no piece changes.
fn find_room<S: Steps>(
    alloc: Global,
    steps: &mut S,
    first: &S::State,
    groups: &mut Vec<Group>,
    pages: &mut Vec<Page<S::State>>,
    k: usize,
) -> Result<(usize, usize), NoMemory>
    requires place { k ≤ count_in pages.old.items }
    requires index { IsIndex groups.old.items pages.old.items }
    requires paged { IsPaged S.seen (S.fold steps.old) (S.seen first.now) pages.old.items }
    ensures free { IfOk result (λ r. IsFreePlace pages.new.items k r.0 r.1) }
    ensures filled { IfOk result (λ r. IsFilled pages.old.items → IsFilledBut r.0 pages.new.items) }
    ensures rearranged { IsRearranged S.seen (S.fold steps.old) (S.fold steps.new) (S.seen first.now) groups.new.items pages.old.items pages.new.items }
    ensures unchanged { OnErr result (pages.new.items ≡ pages.old.items) }
    ensures starts { IsRoomStart (S.fold steps.old).plain (S.starts steps.old) (S.starts steps.new) result }
{
    if k == 0 {
        if pages.is_empty() || pages[0].inputs.len() >= MOST_IN_PAGE {
            open_page(alloc, steps, first, pages, 0)?;
            cut_groups(groups, 0);
        }
        return Ok((0, 0));
    }
    let (j, i) = find(groups, pages, k - 1);
    if pages[j].inputs.len() < MOST_IN_PAGE {
        return Ok((j, i + 1));
    }
    if i + 1 == MOST_IN_PAGE {
        if has_room(pages, j + 1) {
            return Ok((j + 1, 0));
        }
        open_page(alloc, steps, first, pages, j + 1)?;
        cut_groups(groups, j + 1);
        return Ok((j + 1, 0));
    }
    split_page(alloc, steps, first, pages, j)?;
    cut_groups(groups, j);
    if i + 1 <= HALF {
        return Ok((j, i + 1));
    }
    Ok((j + 1, i + 1 - HALF))
}

// Reserves memory for one more input of page `j`, and for its piece. Nothing else changes.
pub(crate) fn reserve_in<T: Drop>(pages: &mut Vec<Page<T>>, j: usize) -> Result<(), NoMemory>
    requires { j < length pages.old.items }
    ensures same { map parts pages.new.items ≡ map parts pages.old.items }
    ensures room { OnOk result (HasRoom pages.new.items j) }
    ensures kept { (n : ℕ) → HasInputRoom pages.old.items n → HasInputRoom pages.new.items n }
    ensures kept_both { (n : ℕ) → HasRoom pages.old.items n → HasRoom pages.new.items n }
{
    let page = &mut pages[j];
    page.inputs.reserve(1)?;
    page.pieces.reserve_one()
}

// Makes room for one more input at a place: the later insertion needs no memory. No input and no piece changes.
pub(crate) fn make_room<S: Steps>(
    alloc: Global,
    steps: &mut S,
    first: &S::State,
    groups: &mut Vec<Group>,
    pages: &mut Vec<Page<S::State>>,
    k: usize,
) -> Result<(usize, usize), NoMemory>
    requires place { k ≤ count_in pages.old.items }
    requires index { IsIndex groups.old.items pages.old.items }
    requires paged { IsPaged S.seen (S.fold steps.old) (S.seen first.now) pages.old.items }
    requires filled { ∥ IsFilled pages.old.items ∥₁ }
    ensures room { IfOk result (λ r. IsRoom pages.new.items k r.0 r.1) }
    ensures filled { OnErr result (∥ IsFilled pages.new.items ∥₁) }
    ensures rearranged { IsRearranged S.seen (S.fold steps.old) (S.fold steps.new) (S.seen first.now) groups.new.items pages.old.items pages.new.items }
    ensures starts { IsRoomStart (S.fold steps.old).plain (S.starts steps.old) (S.starts steps.new) result }
{
    let (j, i) = find_room(alloc, steps, first, groups, pages, k)?;
    match reserve_in(pages, j) {
        Ok(()) => Ok((j, i)),
        Err(refused) => {
            drop_empty(groups, pages, j);
            Err(refused)
        }
    }
}
