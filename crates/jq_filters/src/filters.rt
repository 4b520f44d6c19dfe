// A compiled filter.
ghost use Rattle.std.specs.Prelude.{◌≡◌, ℕ, List, false};
ghost use Rattle.std.proofs.Props.{props};
ghost use Rattle.jq_state.specs.Listed.{items_in};
ghost use Rattle.jq_inputs.specs.Plans.{view_of};
ghost use Rattle.jq_filters.specs.Accepted.{mode_in};
ghost use Rattle.jq_filters.specs.Compiled.{IsFilter};
ghost use Rattle.jq_filters.specs.Runner.{mode_of, run_in};
ghost use Rattle.jq_filters.specs.Unhalted.{NeverHalts};
ghost use Rattle.jq_syntax.specs.Chosen.{Chosen, chosen};

use crate::laws::{bindings_stand_for_the_prelude, filters_without_a_call_of_halt_never_halt};
use crate::programs::bindings_of;
use crate::runner::Runner;
use crate::settings::{Mode, Settings};
use jq_ast::Tree;
use jq_inputs::Plan;
use jq_state::programs::ProgramBindings;
use jq_syntax::{CompileFault, Options, compile};
use std::alloc::Global;

/// A filter that was compiled under the options of a command, with all that it is run with.
#[derive(Drop)]
pub struct Filter {
    tree: Box<Tree>,
    bindings: ProgramBindings,
    depth: u32,
    settings: Settings,
    plan: Plan,
    halts: bool,
    ghost accepted: { ∥ ((o : Chosen) × ((text : List ℕ) × IsFilter o text settings depth tree.value (items_in bindings) (view_of plan) halts)) ∥₁ },
    ghost unhalting: { halts ≡ false → NeverHalts (run_in depth tree.value (items_in bindings)) } by { Prim.hlevel props },
}

impl Filter {
    ghost use Rattle.std.specs.Prelude.{IfErr, IfOk};
    ghost use Rattle.std.specs.Str.{chars};
    ghost use Rattle.jq_filters.specs.Filters.{IsFilterOf};
    ghost use Rattle.jq_syntax.specs.Chosen.{setting_of};
    ghost use Rattle.jq_syntax.specs.Compiled.{IsRefusal};

    /// Compiles a filter's text under the options of a command (manual of jq 1.7, "Invoking jq").
    pub fn compile(alloc: Global, text: &str, options: Options) -> Result<Filter, CompileFault>
        ensures accepted { IfOk result (IsFilterOf (chosen options) (chars text.now)) }
        ensures refused { IfErr result (IsRefusal (chars text.now) (setting_of options)) }
    {
        bindings_stand_for_the_prelude();
        filters_without_a_call_of_halt_never_halt();
        let program = compile(alloc, text, &options)?;
        let settings = settings_of(&options, program.reads());
        let depth = options.depth;
        let plan = program.plan();
        let halts = program.halts();
        let (tree, functions) = program.into_parts();
        let bindings = bindings_of(alloc, options.vars, functions, &tree)?;
        Ok(Filter {
            tree,
            bindings,
            depth,
            settings,
            plan,
            halts,
        })
    }

    /// What the engine runs.
    pub fn runner(&self) -> Runner<'_>
        ensures depth { result.depth ≡ self.now.depth }
        ensures tree { result.tree.now ≡ self.now.tree.value }
        ensures bindings { result.bindings.now ≡ self.now.bindings }
    {
        Runner {
            tree: &self.tree,
            bindings: &self.bindings,
            depth: self.depth,
        }
    }

    /// How it runs.
    pub fn settings(&self) -> Settings
        ensures { result ≡ self.now.settings }
    {
        self.settings
    }

    /// Which runs it needs for its inputs.
    pub fn plan(&self) -> Plan
        ensures { result ≡ self.now.plan }
    {
        self.plan
    }

    /// Whether it calls a function that halts. If it does not, none of its runs halts.
    pub fn halts(&self) -> bool
        ensures { result ≡ self.now.halts }
    {
        self.halts
    }
}

// How a filter runs under these options, depending on whether it has `inputs`.
fn settings_of(options: &Options, reads: bool) -> Settings
    ensures mode { mode_of result.mode ≡ mode_in (chosen options.now) reads }
    ensures style { result.style ≡ options.now.style }
    ensures exit { result.exit ≡ options.now.exit }
{
    let mode = if options.null {
        Mode::OnNull { reads }
    } else if options.slurp {
        Mode::OnAll
    } else {
        Mode::OnEach
    };
    Settings {
        mode,
        style: options.style,
        exit: options.exit,
    }
}
