// Environments by index: those of the program's own bindings, and a node for each binding that a run adds.
ghost use Rattle.std.specs.Prelude.{ℕ, ◌+◌, ◌-◌, ◌^◌, ◌<◌, length};
ghost use Rattle.jq_state.specs.Nodes.{NodesFit};
ghost use Rattle.jq_state.specs.laws.Propositions.{NodesFit-prop};

use crate::programs::ProgramBindings;
use jq_ast::{Function, Tree};
use jv_data::{NoMemory, Val};
use std::alloc::Global;

/// A binding of the program: a variable of the options, or a function of the prelude.
#[derive(Drop)]
pub enum ProgramBinding {
    Value(String, Val),
    Function(Function<Tree>),
}

/// A binding that a run adds, with its name in the tree. A closure has the index of
/// its own environment, and a label its level.
#[derive(Drop)]
pub enum Binding<'p> {
    Value(&'p String, Val),
    Function(&'p Function<Tree>),
    Closure(&'p String, &'p Tree, u32),
    Label(&'p String, u32),
}

impl<'p> Binding<'p> {
    ghost use Rattle.std.specs.Prelude.{◌≡◌, List, IfOk};
    ghost use Rattle.jq_meaning.specs.Env.{Env};
    ghost use Rattle.jq_state.specs.Nodes.{BindingFits, binding_in};

    /// The same binding. It fails only if the reference count of a value is at its maximum.
    fn copy(&self) -> Result<Binding<'p>, NoMemory>
        ensures same { IfOk result (λ b. (envs : List Env) → binding_in envs b ≡ binding_in envs self.now) }
        ensures fits { IfOk result (λ b. (count : ℕ) → BindingFits count self.now → BindingFits count b) }
    {
        match self {
            Binding::Value(name, value) => Ok(Binding::Value(*name, value.copy()?)),
            Binding::Function(function) => Ok(Binding::Function(*function)),
            Binding::Closure(name, tree, env) => Ok(Binding::Closure(*name, *tree, *env)),
            Binding::Label(name, level) => Ok(Binding::Label(*name, *level)),
        }
    }
}

/// A binding with the index of the environment outside of it.
#[derive(Drop)]
pub struct Node<'p> {
    pub binding: Binding<'p>,
    pub outer: u32,
}

/// The environments of a run. Index i of those up to the count of the program's bindings is the environment of its first i
/// bindings; each further index is a node's.
#[derive(Drop)]
pub struct Nodes<'p> {
    program: &'p ProgramBindings,
    nodes: Vec<Node<'p>>,
    ghost small: { length program.now.items.items + length nodes.items < 2 ^ 32 - 1 },
    ghost fit: { NodesFit (length program.now.items.items + 1) nodes.items } by { NodesFit-prop (length program.now.items.items + 1) nodes.items },
}

impl<'p> Nodes<'p> {
    ghost use Rattle.std.specs.Prelude.{◌≡◌, ◌≤◌, ◌++◌, ◌∷◌, [], IfOk, OnOk, IfSome, IfNone, take, map};
    ghost use Rattle.jv_data.specs.Value.{Value};
    ghost use Rattle.jq_meaning.specs.Env.{outermost};
    ghost use Rattle.jq_meaning.specs.Runs.{Run};
    ghost use Rattle.jq_meaning.specs.Programs.{program_env};
    ghost use Rattle.jq_state.specs.Nodes.{BindingFits, NodeFits, env_at, node_in, program_binding, program_envs};
    ghost use Rattle.jq_state.specs.Listed.{bindings_in, items_in};
    ghost use Rattle.jq_state.specs.Environments.{count_of, envs_of, first_count, program_of};

    /// The program's own environments alone. Out of memory only if the program has 2^32 - 1 bindings or more.
    pub fn new(alloc: Global, program: &'p ProgramBindings) -> Result<Nodes<'p>, NoMemory>
        ensures program { IfOk result (λ n. program_of n ≡ map program_binding (items_in program.now)) }
        ensures count { IfOk result (λ n. count_of n ≡ length (items_in program.now) + 1) }
        ensures envs { IfOk result (λ n. (inputs : Run Value) → envs_of inputs n ≡ program_envs (map program_binding (items_in program.now)) (outermost inputs)) }
    {
        if program.len() >= 4_294_967_295 {
            return Err(NoMemory);
        }
        Ok(Nodes {
            program,
            nodes: Vec::new(alloc),
        })
    }

    /// The same environments, each binding copied. It fails also if the reference count of a value is at its maximum.
    pub fn copy(&self, alloc: Global) -> Result<Nodes<'p>, NoMemory>
        ensures count { IfOk result (λ n. count_of n ≡ count_of self.now) }
        ensures envs { IfOk result (λ n. (inputs : Run Value) (i : ℕ) → i < count_of self.now → env_at (envs_of inputs n) i ≡ env_at (envs_of inputs self.now) i) }
    {
        let mut copy = Nodes::new(alloc, self.program)?;
        self.program_comes_first();
        copy.program_comes_first();
        for node in self.nodes.as_slice() {
            copy.push(node.binding.copy()?, node.outer)?;
        }
        Ok(copy)
    }

    /// The number of environments. Each smaller number is the index of one.
    #[inline(always)]
    pub fn count(&self) -> u32
        ensures { result ≡ count_of self.now }
    {
        (self.program.len() + self.nodes.len() + 1) as u32
    }

    /// The number of the program's own environments.
    pub(crate) fn first_count(&self) -> u32
        ensures { result ≡ first_count self.now }
    {
        (self.program.len() + 1) as u32
    }

    /// Adds a binding to an environment, and returns the index of the environment that this makes. Out of memory also if there
    /// are 2^32 - 1 environments already.
    pub fn push(&mut self, binding: Binding<'p>, outer: u32) -> Result<u32, NoMemory>
        requires outer { outer < count_of self.old }
        requires own { BindingFits (count_of self.old) binding }
        ensures index { IfOk result (λ i. i ≡ count_of self.old) }
        ensures count { OnOk result (count_of self.new ≡ count_of self.old + 1) }
        ensures first { first_count self.new ≡ first_count self.old }
        ensures grows { count_of self.old ≤ count_of self.new }
        ensures envs { OnOk result ((inputs : Run Value) → envs_of inputs self.new ≡ envs_of inputs self.old ++ node_in (envs_of inputs self.old) (record { binding = binding.entry; outer = outer }) ∷ []) }
    {
        let index = self.count();
        if index == u32::MAX {
            return Err(NoMemory);
        }
        self.nodes.push(Node { binding, outer })?;
        Ok(index)
    }

    /// Removes the newest environments, down to a count.
    pub(crate) fn cut(&mut self, count: u32)
        requires program { length (program_of self.old) < count }
        requires within { count ≤ count_of self.old }
        ensures count { count_of self.new ≡ count }
        ensures first { first_count self.new ≡ first_count self.old }
        ensures program { program_of self.new ≡ program_of self.old }
        ensures envs { (inputs : Run Value) → envs_of inputs self.new ≡ take count (envs_of inputs self.old) }
    {
        let kept = count as usize - self.program.len() - 1;
        self.nodes.truncate(kept);
    }

    /// The node of an environment: its innermost binding, and the environment outside of it.
    /// The program's own environments have none.
    #[inline(always)]
    pub fn node(&self, index: u32) -> Option<&Node<'p>>
        requires { index < count_of self.now }
        ensures none { IfNone result (index ≤ length (program_of self.now)) }
        ensures env { IfSome result (λ n. (inputs : Run Value) → env_at (envs_of inputs self.now) index ≡ node_in (envs_of inputs self.now) n.now) }
        ensures fits { IfSome result (λ n. NodeFits index n.now) }
    {
        let own = self.program.len();
        if index as usize <= own {
            return None;
        }
        Some(&self.nodes[index as usize - own - 1])
    }

    /// The program's bindings.
    #[inline(always)]
    pub fn program(&self) -> &'p ProgramBindings
        ensures { bindings_in result.now ≡ program_of self.now }
    {
        self.program
    }

    /// The first environments are those of the program's first bindings.
    pub fn program_comes_first(&self)
        ensures { (inputs : Run Value) (j : ℕ) → j ≤ length (program_of self.now) → env_at (envs_of inputs self.now) j ≡ program_env (program_of self.now) j inputs }
    {
        let _ = self.program;
    }
}
