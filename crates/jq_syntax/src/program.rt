// A compiled filter.
ghost use Rattle.std.specs.Prelude.{◌≡◌};

use jq_ast::{Function, Tree};
use jq_inputs::Plan;

/// A compiled filter, with the functions of the prelude. Only `compile` makes one.
#[derive(Drop)]
pub struct Program {
    functions: Vec<Function<Tree>>,
    tree: Box<Tree>,
    plan: Plan,
    reads: bool,
    halts: bool,
}

impl Program {
    pub(crate) fn new(
        functions: Vec<Function<Tree>>,
        tree: Box<Tree>,
        plan: Plan,
        reads: bool,
        halts: bool,
    ) -> Program
        ensures functions { result.functions ≡ functions }
        ensures tree { result.tree ≡ tree }
        ensures plan { result.plan ≡ plan }
        ensures reads { result.reads ≡ reads }
        ensures halts { result.halts ≡ halts }
    {
        Program {
            functions,
            tree,
            plan,
            reads,
            halts,
        }
    }

    /// The filter, with what each name refers to. `Referent::Outer` is a position in the program's own list: the options'
    /// variables, the last one first, and then the functions.
    pub fn tree(&self) -> &Tree
        ensures { result.now ≡ self.now.tree.value }
    {
        &self.tree
    }

    /// The functions of the prelude in the order of its text. Each sees those before it and itself; their names are resolved.
    pub fn functions(&self) -> &[Function<Tree>]
        ensures { result.now ≡ self.now.functions.items }
    {
        self.functions.as_slice()
    }

    /// How the filter runs.
    pub fn plan(&self) -> Plan
        ensures { result ≡ self.now.plan }
    {
        self.plan
    }

    /// Whether the filter calls `inputs`.
    pub fn reads(&self) -> bool
        ensures { result ≡ self.now.reads }
    {
        self.reads
    }

    /// Whether the filter calls `halt`, `halt_error` or `halt_error(f)` and does not bind the name itself. A call in a function
    /// that is never called counts too; without such a call no run of the program halts.
    pub fn halts(&self) -> bool
        ensures { result ≡ self.now.halts }
    {
        self.halts
    }

    /// The filter, and the functions of the prelude.
    pub fn into_parts(self) -> (Box<Tree>, Vec<Function<Tree>>)
        ensures tree { result.0 ≡ self.tree }
        ensures functions { result.1 ≡ self.functions }
    {
        let Program {
            functions,
            tree,
            plan: _plan,
            reads: _reads,
            halts: _halts,
        } = self;
        (tree, functions)
    }
}
