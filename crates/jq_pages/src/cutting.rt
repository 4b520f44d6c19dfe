// The splices of an edit, which are made before anything changes.
ghost use Rattle.std.specs.List.{flat_map};
ghost use Rattle.std.specs.Prelude.{◌≡◌, ◌+◌, ◌<◌, ◌≤◌, ◌^◌, ◌∷◌, ◌++◌, length, map, take, slice_index_or, IfOk, OnOk};
ghost use Rattle.jq_pages.specs.Pieces.{piece_view};
ghost use Rattle.jq_pages.specs.Totals.{totals};
ghost use Rattle.jq_pages.specs.private.Bounds.{IsBounded};
ghost use Rattle.jq_pages.specs.private.Cuts.{closing_if, made_pieces, AddsBytes, AreMadeCuts, ArePlaceCuts, HasBytes};
ghost use Rattle.jq_pages.specs.private.Groups.{IsIndex};
ghost use Rattle.jq_pages.specs.private.Pages.{all_pieces};
ghost use Rattle.jq_pages.specs.private.Reruns.{run_pieces};

use crate::editing::Made;
use crate::grouping::{Group, totals_before};
use crate::lists::piece_slice;
use crate::page::{Page, Rerun};
use crate::pieces::Piece;
use crate::splices::{Splice, Splices};
use crate::summing::totals_in;
use crate::totals::{Totals, totals_of};
use jv_data::NoMemory;
use std::alloc::Global;

/// The output and the errors of some pieces, joined.
#[derive(Drop)]
pub(crate) struct Bytes {
    pub(crate) out: Vec<u8>,
    pub(crate) err: Vec<u8>,
}

// Adds the bytes of some pieces.
fn add_bytes(bytes: &mut Bytes, pieces: &[Piece]) -> Result<(), NoMemory>
    ensures { OnOk result (AddsBytes bytes.old bytes.new (map piece_view pieces.now)) }
{
    for piece in pieces {
        bytes.out.extend_from_slice(&piece.out)?;
        bytes.err.extend_from_slice(&piece.err)?;
    }
    Ok(())
}

// The bytes of these pieces.
fn bytes_of(alloc: Global, pieces: &[Piece]) -> Result<Bytes, NoMemory>
    ensures { IfOk result (λ b. HasBytes b (map piece_view pieces.now)) }
{
    let mut bytes = Bytes {
        out: Vec::new(alloc),
        err: Vec::new(alloc),
    };
    add_bytes(&mut bytes, pieces)?;
    Ok(bytes)
}

// Adds the bytes of the pieces of some runs.
fn add_runs<T>(bytes: &mut Bytes, runs: &[Rerun<T>]) -> Result<(), NoMemory>
    ensures { OnOk result (AddsBytes bytes.old bytes.new (flat_map run_pieces runs.now)) }
{
    for run in runs {
        add_bytes(bytes, &run.pieces.items)?;
    }
    Ok(())
}

// The bytes of what was run for an edit.
fn bytes_made<T>(alloc: Global, made: &Made<T>) -> Result<Bytes, NoMemory>
    ensures { IfOk result (λ b. HasBytes b (made_pieces made.now)) }
{
    let mut bytes = bytes_of(alloc, &made.run.pieces.items)?;
    add_runs(&mut bytes, &made.runs)?;
    add_bytes(&mut bytes, piece_slice(&made.tail))?;
    Ok(bytes)
}

// The splices that put these bytes in the place of those with the totals `gone`.
fn splices_at(before: Totals, gone: Totals, bytes: Bytes) -> Splices
    ensures out { (result.out.at ≡ before.out) × (result.out.cut ≡ gone.out) × (result.out.put ≡ bytes.out) }
    ensures err { (result.err.at ≡ before.err) × (result.err.cut ≡ gone.err) × (result.err.put ≡ bytes.err) }
{
    Splices {
        out: Splice {
            at: before.out,
            cut: gone.out,
            put: bytes.out,
        },
        err: Splice {
            at: before.err,
            cut: gone.err,
            put: bytes.err,
        },
    }
}

// The totals of the first piece and of those before page `j`.
pub(crate) fn totals_with<T>(head: &Piece, groups: &[Group], pages: &[Page<T>], j: usize) -> Totals
    requires index { IsIndex groups.now pages.now }
    requires page { j ≤ length pages.now }
    requires few { length (all_pieces pages.now) < 2 ^ 32 }
    ensures value { result ≡ totals (piece_view head.now ∷ all_pieces (take j pages.now)) }
    ensures bounded { IsBounded result (length (all_pieces (take j pages.now)) + 1) }
{
    Totals::of(head).and(totals_before(groups, pages, j))
}

// The totals of the pieces that an edit takes out of some pages, with that of `close` if it was run again.
fn totals_gone<T>(pages: &[Page<T>], tail: &Piece, closing: &Option<Piece>) -> Totals
    requires { length (all_pieces pages.now) < 2 ^ 32 }
    ensures { result ≡ totals (all_pieces pages.now ++ closing_if closing.now (piece_view tail.now)) }
{
    let gone = totals_in(pages);
    match closing {
        Some(_) => gone.and(Totals::of(tail)),
        None => gone,
    }
}

// The splices of an edit that runs page `j` and some pages after it.
pub(crate) fn splices_made<T>(
    alloc: Global,
    head: &Piece,
    groups: &[Group],
    pages: &[Page<T>],
    tail: &Piece,
    j: usize,
    made: &Made<T>,
) -> Result<Splices, NoMemory>
    requires index { IsIndex groups.now pages.now }
    requires few { length (all_pieces pages.now) < 2 ^ 32 }
    requires page { j + 1 + length made.now.runs.items ≤ length pages.now }
    ensures { IfOk result (λ s. AreMadeCuts s (piece_view head.now) pages.now tail.now j made.now) }
{
    let bytes = bytes_made(alloc, made)?;
    let before = totals_with(head, groups, pages, j);
    let gone = totals_gone(&pages[j..j + (1 + made.runs.len())], tail, &made.tail);
    Ok(splices_at(before, gone, bytes))
}

// The splices of an edit that runs one place of page `j`.
pub(crate) fn splices_one<T>(
    alloc: Global,
    head: &Piece,
    groups: &[Group],
    pages: &[Page<T>],
    j: usize,
    i: usize,
    cut: usize,
    put: &[Piece],
) -> Result<Splices, NoMemory>
    requires index { IsIndex groups.now pages.now }
    requires few { length (all_pieces pages.now) < 2 ^ 32 }
    requires page { j < length pages.now }
    requires place { (d : Page T) → i + cut ≤ length (slice_index_or pages.now j d).pieces.items.items }
    requires small { i < 2 ^ 32 }
    ensures { IfOk result (λ s. ArePlaceCuts s (piece_view head.now) pages.now j i cut (map piece_view put.now)) }
{
    let bytes = bytes_of(alloc, put)?;
    let pieces = &pages[j].pieces.items;
    let before = totals_with(head, groups, pages, j).and(totals_of(&pieces[..i]));
    let gone = totals_of(&pieces[i..i + cut]);
    Ok(splices_at(before, gone, bytes))
}
