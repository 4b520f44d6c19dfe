// Worked examples: runs at a call depth of 0.

ghost use Rattle.std.specs.Prelude.{◌≡◌, [], ◌∷◌};
ghost use Rattle.jq_laws.specs.examples.Depth.{number, gives, gives_then_too_deep, run_without_depth, length_alone, one_call, number_then_call};

/// Natives and `empty` need no call depth.
pub fn natives_take_no_depth()
    ensures { run_without_depth length_alone ≡ gives (number 0 ∷ []) }
{}

/// A call needs call depth, and outputs before it stay.
pub fn calls_take_depth()
    ensures call { run_without_depth one_call ≡ gives_then_too_deep [] }
    ensures before { run_without_depth number_then_call ≡ gives_then_too_deep (number 7 ∷ []) }
{}
