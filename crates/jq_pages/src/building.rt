// The pages of the first inputs.
ghost use Rattle.std.specs.Prelude.{◌≡◌, ◌+◌, ◌<◌, [], ◌∷◌, ◌++◌, length, map, IfOk, OnOk, slice_index_or};
ghost use Rattle.jv_data.specs.View.{view};
ghost use Rattle.jq_pages.specs.Changes.{IsStart};
ghost use Rattle.jq_pages.specs.Folds.{Rises};
ghost use Rattle.jq_pages.specs.private.Groups.{IsIndex};
ghost use Rattle.jq_pages.specs.private.Pages.{all_inputs, IsBegun, IsFilled, IsHeld, IsPaged};
ghost use Rattle.jq_pages.specs.private.Placed.{Grown};

use crate::following::kept_after;
use crate::grouping::{Group, add_groups};
use crate::listing::PieceList;
use crate::page::{FIRST_IN_PAGE, Page};
use crate::pieces::Piece;
use crate::steps::Steps;
use jv_data::{NoMemory, Val};
use std::alloc::Global;

// Adds a page with one input after the last page.
fn add_page<T: Drop>(
    alloc: Global,
    pages: &mut Vec<Page<T>>,
    value: Val,
    piece: Piece,
    exit: T,
) -> Result<(), NoMemory>
    ensures { OnOk result (Grown pages.old.items pages.new.items value piece exit) }
{
    let mut inputs = Vec::new(alloc);
    inputs.push(value)?;
    let mut pieces = PieceList::new(alloc);
    pieces.push(piece)?;
    pages.push(Page {
        inputs,
        pieces,
        exit,
    })?;
    Ok(())
}

// Adds an input to the last page.
fn add_to_last<T: Drop>(
    pages: &mut Vec<Page<T>>,
    j: usize,
    value: Val,
    piece: Piece,
    exit: T,
) -> Result<(), NoMemory>
    requires last { length pages.old.items ≡ j + 1 }
    requires fits { (d : Page T) → length (slice_index_or pages.old.items j d).inputs.items < 64 }
    ensures { OnOk result (Grown pages.old.items pages.new.items value piece exit) }
{
    let page = &mut pages[j];
    page.inputs.push(value)?;
    page.pieces.push(piece)?;
    page.exit = exit;
    Ok(())
}

// Runs over one more input.
fn add_input<S: Steps>(
    alloc: Global,
    steps: &mut S,
    first: &S::State,
    pages: &mut Vec<Page<S::State>>,
    value: Val,
) -> Result<(), NoMemory>
    requires paged { IsPaged S.seen (S.fold steps.old) (S.seen first.now) pages.old.items }
    requires filled { ∥ IsFilled pages.old.items ∥₁ }
    ensures inputs { OnOk result (all_inputs pages.new.items ≡ all_inputs pages.old.items ++ view value ∷ []) }
    ensures paged { OnOk result (IsPaged S.seen (S.fold steps.old) (S.seen first.now) pages.new.items) }
    ensures filled { OnOk result (∥ IsFilled pages.new.items ∥₁) }
    ensures same { S.fold steps.new ≡ S.fold steps.old }
    ensures rises { Rises (S.starts steps.old) (S.starts steps.new) 1 }
{
    let (piece, exit) = steps.step(kept_after::<S>(first, pages), &value)?;
    let count = pages.len();
    if count == 0 || pages[count - 1].inputs.len() >= FIRST_IN_PAGE {
        return add_page(alloc, pages, value, piece, exit);
    }
    add_to_last(pages, count - 1, value, piece, exit)
}

// Runs over the first inputs, in pages of 48 and a last one.
pub(crate) fn fill_pages<S: Steps>(
    alloc: Global,
    steps: &mut S,
    first: &S::State,
    inputs: Vec<Val>,
) -> Result<Vec<Page<S::State>>, NoMemory>
    ensures inputs { IfOk result (λ p. all_inputs p.items ≡ map view inputs.items) }
    ensures paged { IfOk result (λ p. IsPaged S.seen (S.fold steps.old) (S.seen first.now) p.items) }
    ensures filled { IfOk result (λ p. ∥ IsFilled p.items ∥₁) }
    ensures same { S.fold steps.new ≡ S.fold steps.old }
    ensures rises { Rises (S.starts steps.old) (S.starts steps.new) (length inputs.items) }
{
    let mut pages = Vec::new(alloc);
    for value in inputs {
        add_input(alloc, steps, first, &mut pages, value)?;
    }
    Ok(pages)
}

/// What all steps gave: the first piece and the first state, the pages with their groups, the last piece.
#[derive(Drop)]
pub(crate) struct First<T> {
    pub(crate) head: Piece,
    pub(crate) first: T,
    pub(crate) groups: Vec<Group>,
    pub(crate) pages: Vec<Page<T>>,
    pub(crate) tail: Piece,
}

// Runs all steps over the first inputs.
pub(crate) fn run_all<S: Steps>(
    alloc: Global,
    steps: &mut S,
    inputs: Vec<Val>,
) -> Result<First<S::State>, NoMemory>
    ensures begun { IfOk result (λ f. ∥ IsBegun S.seen (S.fold steps.new) f.head f.first ∥₁) }
    ensures held { IfOk result (λ f. ∥ IsHeld S.seen (S.fold steps.new) (S.seen f.first) f.pages.items f.tail ∥₁) }
    ensures filled { IfOk result (λ f. ∥ IsFilled f.pages.items ∥₁) }
    ensures index { IfOk result (λ f. IsIndex f.groups.items f.pages.items) }
    ensures inputs { IfOk result (λ f. all_inputs f.pages.items ≡ map view inputs.items) }
    ensures same { S.fold steps.new ≡ S.fold steps.old }
    ensures started { IsStart (S.fold steps.old) (length inputs.items) (S.starts steps.old) (S.starts steps.new) }
{
    let (head, first) = steps.begin()?;
    let pages = fill_pages(alloc, steps, &first, inputs)?;
    let tail = steps.close(kept_after::<S>(&first, &pages))?;
    let mut groups = Vec::new(alloc);
    add_groups(&mut groups, &pages);
    Ok(First {
        head,
        first,
        groups,
        pages,
        tail,
    })
}
