// What totals say of pieces.
ghost use Rattle.std.specs.Prelude.{◌≡◌, ◌≢◌, ◌<◌, ◌↔◌, ◌∷◌, ◌++◌, List, length, None, IsSome, IsTrue};
ghost use Rattle.std.specs.List.{flat_map, All, Any};
ghost use Rattle.jq_pages.specs.Pieces.{PieceView};
ghost use Rattle.jq_pages.specs.Totals.{totals};
ghost use Rattle.jq_pages.specs.declared.pieces.Last.TheVariants as last;

/// The totals of pieces have the lengths of their joined output and of their joined errors, and count a failure if a piece failed.
#[tactic(auto, using(crate::proofs::Sums::out_is, crate::proofs::Sums::err_is, crate::proofs::Sums::fails))]
pub fn totals_count_bytes_and_failures()
    ensures out { (ps : List PieceView) → (totals ps).out ≡ length (flat_map (λ p. p.out) ps) }
    ensures err { (ps : List PieceView) → (totals ps).err ≡ length (flat_map (λ p. p.err) ps) }
    ensures failed { (ps : List PieceView) → (0 < (totals ps).failed) ↔ Any (λ p. IsTrue p.failed) ps }
{}

/// The totals of pieces have the status of the first piece with one, and the last output of the last piece with an output.
#[tactic(auto, using(crate::proofs::Sums::no_halt, crate::proofs::Sums::first_halt, crate::proofs::Sums::no_output, crate::proofs::Sums::last_output))]
pub fn totals_have_the_first_halt_and_the_last_output()
    ensures no_halt { (ps : List PieceView) → All (λ p. p.halt ≡ None) ps → (totals ps).halt ≡ None }
    ensures halt { (ps qs : List PieceView) (p : PieceView) → All (λ q. q.halt ≡ None) ps → IsSome p.halt → (totals (ps ++ p ∷ qs)).halt ≡ p.halt }
    ensures no_output { (ps : List PieceView) → All (λ p. p.last ≡ last.Nothing) ps → (totals ps).last ≡ last.Nothing }
    ensures last { (ps qs : List PieceView) (p : PieceView) → All (λ q. q.last ≡ last.Nothing) qs → p.last ≢ last.Nothing → (totals (ps ++ p ∷ qs)).last ≡ p.last }
{}
