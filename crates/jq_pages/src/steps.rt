// The steps of a fold, which are run input by input.
ghost use Rattle.std.specs.Prelude.{◌≡◌, ◌↔◌, ℕ, IfOk, IsTrue};
ghost use Rattle.jv_data.specs.View.{view};
ghost use Rattle.jq_pages.specs.Folds.{Fold, Rises};
ghost use Rattle.jq_pages.specs.Pieces.{piece_view};

use crate::pieces::Piece;
use jv_data::{NoMemory, Val};

/// The steps of a fold. Each call that succeeds returns what one fold says of the state and the input; no call changes this fold.
///
/// A call must return `NoMemory` only if an allocation was refused in it. No contract can say this, so the implementer has to ensure it.
pub trait Steps: Drop {
    type State: Drop;

    // what a state represents
    ghost Seen: { Type 0 };

    ghost seen: { Self.State → Seen };

    // the fold that the calls make
    ghost fold: { Self → Fold Seen };

    // how often the filter was started
    ghost starts: { Self → ℕ };

    /// Whether all states are equal. Then a piece depends on its input alone, and an edit runs no other input.
    fn plain(&self) -> bool
        ensures value { result ≡ (fold self.now).plain }
        ensures alike { IsTrue result → (a b : Seen) → a ≡ b };

    /// How often the filter was started.
    fn count(&self) -> u64
        ensures { result ≡ starts self.now };

    /// The first piece and the first state. Like `step` and `close`, it starts the filter at most once, also if it fails. In a plain
    /// fold it starts nothing.
    fn begin(&mut self) -> Result<(Piece, Self::State), NoMemory>
        ensures piece { IfOk result (λ r. piece_view r.0 ≡ (fold self.old).begin.0) }
        ensures state { IfOk result (λ r. seen r.1 ≡ (fold self.old).begin.1) }
        ensures same { fold self.new ≡ fold self.old }
        ensures rises { Rises (starts self.old) (starts self.new) 1 }
        ensures silent { IsTrue (fold self.old).plain → starts self.new ≡ starts self.old };

    /// The piece of an input and the next state.
    fn step(&mut self, state: &Self::State, input: &Val) -> Result<(Piece, Self::State), NoMemory>
        ensures piece { IfOk result (λ r. piece_view r.0 ≡ ((fold self.old).step (seen state.now) (view input.now)).0) }
        ensures state { IfOk result (λ r. seen r.1 ≡ ((fold self.old).step (seen state.now) (view input.now)).1) }
        ensures same { fold self.new ≡ fold self.old }
        ensures rises { Rises (starts self.old) (starts self.new) 1 };

    /// The piece after the last input. In a plain fold it starts nothing.
    fn close(&mut self, state: &Self::State) -> Result<Piece, NoMemory>
        ensures piece { IfOk result (λ p. piece_view p ≡ (fold self.old).close (seen state.now)) }
        ensures same { fold self.new ≡ fold self.old }
        ensures rises { Rises (starts self.old) (starts self.new) 1 }
        ensures silent { IsTrue (fold self.old).plain → starts self.new ≡ starts self.old };

    /// Whether two states are equal.
    fn meets(&self, one: &Self::State, other: &Self::State) -> bool
        ensures { IsTrue result ↔ (seen one.now ≡ seen other.now) };

    /// An equal state.
    fn copy(&self, state: &Self::State) -> Result<Self::State, NoMemory>
        ensures { IfOk result (λ s. seen s ≡ seen state.now) };
}
