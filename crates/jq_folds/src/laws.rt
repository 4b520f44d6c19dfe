// Laws of folds over the inputs.
ghost use Rattle.std.specs.Prelude.{◌≡◌, true, None};
ghost use Rattle.jv_data.specs.Value.{Value};
ghost use Rattle.jq_tree.specs.Inputs.{at_most_one};
ghost use Rattle.jq_meaning.specs.Meaning.{meaning};
ghost use Rattle.jq_meaning.specs.Runs.{Item, plain};
ghost use Rattle.jq_meaning.specs.machine.Heights.{Fit};
ghost use Rattle.jq_meaning.specs.machine.Machine.{Produces};
ghost use Rattle.jq_meaning.specs.machine.State.{Scope};
ghost use Rattle.jq_folds.specs.Folding.{Fold, steps_of};
ghost use Rattle.jq_folds.specs.Pieces.{begun, with_state};
ghost use Rattle.jq_folds.specs.laws.Machine.{begin_state, step_state, close_state};
ghost use Rattle.jq_folds.specs.laws.Programs.{DefinitionsLeaveInputsAlone};
ghost use Rattle.jq_folds.specs.laws.Statements.{FoldsAreFolded, StatesAreValues, NextIsValue, BeginLeads, StepLeads, PiecesEndOnce};

/// The run of an accepted filter with the plan of a fold, over any inputs, is that of its pieces, one after the other.
pub fn a_fold_is_its_pieces()
    ensures { FoldsAreFolded }
{}

/// The bindings after definitions that neither call nor define `inputs` leave it alone.
pub fn definitions_leave_inputs_alone()
    ensures { DefinitionsLeaveInputsAlone }
{}

/// Each state of a fold is a value. A piece leads to a state exactly if it ends with Done, and after any other ending the fold has
/// stopped.
pub fn states_and_endings_of_pieces()
    ensures values { StatesAreValues }
    ensures next { NextIsValue }
    ensures begin { BeginLeads }
    ensures step { StepLeads }
    ensures once { PiecesEndOnce }
{}

/// From the states of a fold the machine gives the outputs of a piece, and then the next state.
pub fn the_machine_makes_the_pieces()
    ensures begin { (f : Fold) (p : Scope) (v : Value) → at_most_one f.start ≡ true
        → Produces (begin_state f p (plain v)) (with_state (begun (meaning p.depth f.start p.env p.level (plain v)))) }
    ensures step { (f : Fold) (p : Scope) (s : Item) (v : Value)
        → Produces (step_state f p s v) (with_state ((steps_of p.depth p.env p.level f).step s v)) }
    ensures close { (f : Fold) (p : Scope) (s : Item) → f.extract ≡ None
        → Produces (close_state f p s) ((steps_of p.depth p.env p.level f).close s) }
    ensures fits { (f : Fold) (p : Scope) (s : Item) (v : Value) → Fit (step_state f p s v) }
{}
