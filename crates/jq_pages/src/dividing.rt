// A full page that is divided into two.
ghost use Rattle.std.specs.Prelude.{◌≡◌, ℕ, ◌+◌, ◌<◌, ◌≤◌, [], ◌∷◌, ◌++◌, length, take, drop, map, vec_capacity, slice_index_or, IfOk, OnOk, OnErr, IsTrue};
ghost use Rattle.jv_data.specs.View.{view};
ghost use Rattle.jq_pages.specs.Folds.{Rises, state_after};
ghost use Rattle.jq_pages.specs.private.Reruns.{Holds};
ghost use Rattle.jq_pages.specs.private.Placed.{Divided, Halved};

use crate::following::kept_after;
use crate::listing::PieceList;
use crate::lists::move_tail;
use crate::page::Page;
use crate::running::run_on;
use crate::steps::Steps;
use jv_data::{NoMemory, Val};
use std::alloc::Global;
use std::mem;

/// The number of inputs that the first part of a divided page keeps.
pub(crate) const HALF: usize = 32;

// The state after some inputs of a page. If all states are equal, no step runs.
fn middle_of<S: Steps>(
    alloc: Global,
    steps: &mut S,
    entry: &S::State,
    exit: &S::State,
    inputs: &[Val],
) -> Result<S::State, NoMemory>
    ensures state { IfOk result (λ t. S.seen t ≡ state_after (S.fold steps.old) (S.seen entry.now) (map view inputs.now)) }
    ensures same { S.fold steps.new ≡ S.fold steps.old }
    ensures rises { Rises (S.starts steps.old) (S.starts steps.new) (length inputs.now) }
    ensures silent { IsTrue (S.fold steps.old).plain → S.starts steps.new ≡ S.starts steps.old }
{
    if steps.plain() {
        return steps.copy(exit);
    }
    let start = steps.copy(entry)?;
    run_on(steps, start, inputs, &mut PieceList::new(alloc))
}

// The inputs that the first part of a divided page keeps.
fn first_half<T>(page: &Page<T>) -> &[Val]
    requires { 32 ≤ length page.now.inputs.items }
    ensures inputs { result.now ≡ take 32 page.now.inputs.items }
    ensures len { length result.now ≡ 32 }
{
    &page.inputs[..HALF]
}

// Inserts a page into a list that has room for it.
fn put_page<T: Drop>(pages: &mut Vec<Page<T>>, at: usize, page: Page<T>)
    requires place { at ≤ length pages.old.items }
    requires room { length pages.old.items + 1 ≤ vec_capacity pages.old }
    ensures { pages.new.items ≡ take at pages.old.items ++ (page ∷ drop at pages.old.items) }
{
    let _ = pages.insert(at, page);
}

// Divides page `j`. The lists are where the later inputs and pieces move to.
fn divide<T: Drop>(
    pages: &mut Vec<Page<T>>,
    j: usize,
    middle: T,
    mut inputs: Vec<Val>,
    mut pieces: PieceList,
)
    requires page { j < length pages.old.items }
    requires long { (d : Page T) → 32 ≤ length (slice_index_or pages.old.items j d).inputs.items }
    requires full { (d : Page T) → 32 ≤ length (slice_index_or pages.old.items j d).pieces.items.items }
    requires empty { (inputs.items ≡ []) × (pieces.items.items ≡ []) }
    requires inputs { (d : Page T) → length (slice_index_or pages.old.items j d).inputs.items ≤ vec_capacity inputs }
    requires pieces { (d : Page T) → length (slice_index_or pages.old.items j d).pieces.items.items ≤ vec_capacity pieces.items }
    requires room { length pages.old.items + 1 ≤ vec_capacity pages.old }
    ensures { Divided pages.old.items pages.new.items j middle }
{
    let page = &mut pages[j];
    move_tail(&mut page.inputs, &mut inputs, HALF);
    page.pieces.move_tail(&mut pieces, HALF);
    let exit = mem::replace(&mut page.exit, middle);
    let later = Page {
        inputs,
        pieces,
        exit,
    };
    put_page(pages, j + 1, later);
}

// Divides page `j` into two. No input and no piece changes.
pub(crate) fn split_page<S: Steps>(
    alloc: Global,
    steps: &mut S,
    first: &S::State,
    pages: &mut Vec<Page<S::State>>,
    j: usize,
) -> Result<(), NoMemory>
    requires page { j < length pages.old.items }
    requires long { (d : Page S.State) → 32 ≤ length (slice_index_or pages.old.items j d).inputs.items }
    requires holds { ∥ Holds S.seen (S.fold steps.old) (S.seen first.now) pages.old.items ∥₁ }
    ensures halved { OnOk result (Halved S.seen (S.fold steps.old) (S.seen first.now) pages.old.items pages.new.items j) }
    ensures unchanged { OnErr result (pages.new.items ≡ pages.old.items) }
    ensures same { S.fold steps.new ≡ S.fold steps.old }
    ensures rises { Rises (S.starts steps.old) (S.starts steps.new) 32 }
    ensures silent { IsTrue (S.fold steps.old).plain → S.starts steps.new ≡ S.starts steps.old }
{
    let page = &pages[j];
    let entry = kept_after::<S>(first, &pages[..j]);
    let middle = middle_of(alloc, steps, entry, &page.exit, first_half(page))?;
    let inputs = Vec::with_capacity(alloc, page.inputs.len())?;
    let pieces = PieceList::with_capacity(alloc, page.pieces.items.len())?;
    pages.reserve(1)?;
    divide(pages, j, middle, inputs, pieces);
    Ok(())
}
