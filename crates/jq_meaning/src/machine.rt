// Laws of the machine.

ghost use Rattle.std.specs.Prelude.{◌≡◌, ℕ, ◌<◌, List, [], ◌∷◌};
ghost use Rattle.jv_data.specs.Value.{Value};
ghost use Rattle.jq_tree.specs.Tree.{Name, Tree};
ghost use Rattle.jq_meaning.specs.Runs.{Item, Ending, Run, before, ended};
ghost use Rattle.jq_meaning.specs.Meaning.{meaning, run_of};
ghost use Rattle.jq_meaning.specs.machine.State.{Scope, Frame, ForkPoint, State, moves, outputs, finishes};
ghost use Rattle.jq_meaning.specs.machine.Heights.{Fit};
ghost use Rattle.jq_meaning.specs.machine.Machine.{step, Produces, Reaches};
ghost use Rattle.jq_meaning.specs.laws.Starts.{start, starting, to_run, run_at_once};

/// The machine that runs a filter gives the filter's outputs in order and then its ending, after finitely many transitions.
pub fn the_machine_makes_the_run_of_a_filter()
    ensures in_a_scope { (t : Tree) (p : Scope) (x : Item) → Produces (start t p x) (meaning p.depth t p.env p.level x) }
    ensures of_a_program { (depth : ℕ) (variables : List (Name × Value)) (inputs : Run Value) (t : Tree) (v : Value) →
        Produces (starting depth variables inputs t v) (run_of depth variables inputs t v) }
{}

/// A state produces only one run.
pub fn a_state_has_one_run()
    ensures { (s : State) (r q : Run Item) → Produces s r → Produces s q → r ≡ q }
{}

/// A transition either leaves the remaining run unchanged, or gives the run's first item, or its ending.
pub fn a_transition_keeps_the_run()
    ensures moves { (s t : State) (r : Run Item) → Produces s r → step s ≡ moves t → Produces t r }
    ensures outputs { (s t : State) (x : Item) (r : Run Item) → Produces s r → step s ≡ outputs x t → (q : Run Item) × Produces t q × (r ≡ before (x ∷ []) q) }
    ensures finishes { (s : State) (e : Ending) (r : Run Item) → Produces s r → step s ≡ finishes e → r ≡ ended e }
{}

/// Several transitions in a row keep what one transition keeps.
pub fn several_transitions_keep_the_run()
    ensures run { (s t : State) (r : Run Item) → Produces s r → Reaches s t → Produces t r }
    ensures back { (s t : State) (r : Run Item) → Reaches s t → Produces t r → Produces s r }
    ensures heights { (s t : State) → Fit s → Reaches s t → Fit t }
{}

/// The heights in a state's frames are those of existing fork points: at the start, and after each transition.
pub fn heights_stay_in_range()
    ensures start { (t : Tree) (p : Scope) (x : Item) → Fit (start t p x) }
    ensures moves { (s t : State) → Fit s → step s ≡ moves t → Fit t }
    ensures outputs { (s t : State) (x : Item) → Fit s → step s ≡ outputs x t → Fit t }
{}

/// A number falls with each transition, so the machine cannot run forever between two outputs.
pub fn a_number_falls()
    ensures { (left : State → ℕ) × ((s t : State) → Fit s → step s ≡ moves t → left t < left s) }
{}

/// A filter whose run is known may be run at once: its first item is given, and the others are kept.
pub fn a_filter_may_run_at_once()
    ensures { (t : Tree) (p : Scope) (x : Item) (k : List Frame) (fs : List ForkPoint) (r : Run Item) →
        Fit (to_run t p x k fs) → Produces (to_run t p x k fs) r → Produces (run_at_once t p x k fs) r }
{}
