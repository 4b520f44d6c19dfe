// Laws that hold for all filters.

ghost use Rattle.std.specs.Prelude.{◌≡◌, ◌↔◌, ℕ, ◌<◌, ℤ, pos, negsuc, ◌+ℤ◌, ◌*ℤ◌, ◌<ℤ◌, List, true};
ghost use Rattle.std.specs.List.{list_all};
ghost use Rattle.jv_data.specs.Value.{Value};
ghost use Rattle.jq_tree.specs.Tree.{Name, Tree};
ghost use Rattle.jq_natives.specs.Natives.{table};
ghost use Rattle.jq_tree.specs.Names.{core_names, natives, formats, is_bound, to_function};
ghost use Rattle.jq_meaning.specs.laws.Breaks.{IsNoBreak};
ghost use Rattle.jq_meaning.specs.Builtins.{steps_between};
ghost use Rattle.jq_meaning.specs.laws.KnownNames.{is_known};
ghost use Rattle.jq_meaning.specs.Meaning.{run_of};
ghost use Rattle.jq_meaning.specs.Runs.{Run};

/// No run of a whole filter ends in a break, if `inputs` does not: each break is inside its label, which stops it.
pub fn no_filter_ends_in_a_break()
    ensures { (depth : ℕ) (variables : List (Name × Value)) (inputs : Run Value) (t : Tree) (v : Value) →
        IsNoBreak inputs.ending → IsNoBreak (run_of depth variables inputs t v).ending }
{}

/// Each name that a filter can use without defining it has a meaning, and the natives are all among these names.
pub fn bound_names_have_a_meaning()
    ensures functions { list_all is_known core_names ≡ true }
    ensures natives { list_all is_known natives ≡ true }
    ensures formats { list_all is_known formats ≡ true }
    ensures table { list_all (λ r. is_bound (to_function r.name r.arguments) natives) table ≡ true }
{}

/// `range` gives the numbers `start + i * step` while they are before the end, and no further ones.
pub fn ranges_stop_at_the_end()
    ensures upwards { (start end : ℤ) (step i : ℕ) → 0 < step → (i < steps_between start end (pos step))
        ↔ ((start +ℤ (pos i *ℤ pos step)) <ℤ end) }
    ensures downwards { (start end : ℤ) (step i : ℕ) → (i < steps_between start end (negsuc step))
        ↔ (end <ℤ (start +ℤ (pos i *ℤ negsuc step))) }
{}
