// The pieces of some inputs, with their totals.
ghost use Rattle.std.specs.Prelude.{◌≡◌, ◌+◌, ◌≤◌, [], ◌∷◌, ◌++◌, length, take, drop, map, vec_capacity, None, IfOk, OnOk};
ghost use Rattle.std.specs.Option.{option_to_list};
ghost use Rattle.jq_pages.specs.Pieces.{piece_view};
ghost use Rattle.jq_pages.specs.Totals.{totals};
ghost use Rattle.jq_pages.specs.private.Bounds.{IsBounded};

use crate::lists::{append_list, edit_list, move_tail};
use crate::pieces::Piece;
use crate::totals::{Totals, totals_of};
use jv_data::NoMemory;
use std::alloc::Global;

/// Pieces and their totals.
#[derive(Drop)]
pub(crate) struct PieceList {
    pub(crate) items: Vec<Piece>,
    pub(crate) sum: Totals,
    ghost summed: { sum ≡ totals (map piece_view items.items) },
    ghost bounded: { IsBounded sum (length items.items) },
}

impl PieceList {
    pub(crate) fn new(alloc: Global) -> PieceList
        ensures items { result.items.items ≡ [] }
    {
        PieceList {
            items: Vec::new(alloc),
            sum: Totals::none(),
        }
    }

    // A list without pieces, with room for some.
    pub(crate) fn with_capacity(alloc: Global, room: usize) -> Result<PieceList, NoMemory>
        ensures items { IfOk result (λ l. l.items.items ≡ []) }
        ensures room { IfOk result (λ l. room ≤ vec_capacity l.items) }
    {
        Ok(PieceList {
            items: Vec::with_capacity(alloc, room)?,
            sum: Totals::none(),
        })
    }

    // Adds a piece at the end.
    pub(crate) fn push(&mut self, piece: Piece) -> Result<(), NoMemory>
        ensures items { OnOk result (self.new.items.items ≡ self.old.items.items ++ piece ∷ []) }
    {
        let sum = self.sum.and(Totals::of(&piece));
        self.items.push(piece)?;
        self.sum = sum;
        Ok(())
    }

    // Moves the pieces from a place on to a list without pieces.
    pub(crate) fn move_tail(&mut self, to: &mut PieceList, at: usize)
        requires place { at ≤ length self.old.items.items }
        requires empty { to.old.items.items ≡ [] }
        requires room { length self.old.items.items ≤ vec_capacity to.old.items }
        ensures first { self.new.items.items ≡ take at self.old.items.items }
        ensures last { to.new.items.items ≡ drop at self.old.items.items }
    {
        move_tail(&mut self.items, &mut to.items, at);
        self.sum = totals_of(&self.items);
        to.sum = totals_of(&to.items);
    }

    // Reserves room for one more piece.
    pub(crate) fn reserve_one(&mut self) -> Result<(), NoMemory>
        ensures items { self.new.items.items ≡ self.old.items.items }
        ensures room { OnOk result (length self.new.items.items + 1 ≤ vec_capacity self.new.items) }
        ensures capacity { vec_capacity self.old.items ≤ vec_capacity self.new.items }
    {
        self.items.reserve(1)?;
        Ok(())
    }

    // Removes `cut` pieces at a place and inserts one there, if there is one. There is room for an insertion.
    pub(crate) fn edit(&mut self, i: usize, put: Option<Piece>, cut: usize) -> Option<Piece>
        requires cut { cut ≤ 1 }
        requires place { i + cut ≤ length self.old.items.items }
        requires room { cut ≡ 0 → length self.old.items.items + 1 ≤ vec_capacity self.old.items }
        ensures taken { option_to_list result ≡ take cut (drop i self.old.items.items) }
        ensures room { cut ≡ 1 → put ≡ None → length self.new.items.items + 1 ≤ vec_capacity self.new.items }
        ensures items { self.new.items.items ≡ (take i self.old.items.items ++ option_to_list put) ++ drop (i + cut) self.old.items.items }
    {
        let taken = edit_list(&mut self.items, i, put, cut);
        self.sum = totals_of(&self.items);
        taken
    }

    // Adds other pieces at the end. All move to `room`.
    pub(crate) fn append(&mut self, room: Vec<Piece>, others: PieceList)
        requires empty { room.items ≡ [] }
        requires room { length self.old.items.items + length others.items.items ≤ vec_capacity room }
        ensures { self.new.items.items ≡ self.old.items.items ++ others.items.items }
    {
        append_list(&mut self.items, room, others.items);
        self.sum = totals_of(&self.items);
    }
}
