// The first name of a program that nothing binds.
ghost use Rattle.std.specs.Prelude.{◌≡◌, IfOk};
ghost use Rattle.jq_tree.specs.Binders.{uses, without_binder};
ghost use Rattle.jq_ast.specs.Bound.{means_format, means_native};
ghost use Rattle.jq_ast.specs.CoreNames.{core_reference};
ghost use Rattle.jq_tree.specs.Names.{same_reference};
ghost use Rattle.jq_resolver.specs.Programs.{bound_program};
ghost use Rattle.jq_resolver.specs.Undefined.{IsFirstUndefined, reference_of};
ghost use Rattle.jq_resolver.specs.private.Waiting.{is_somewhere, use_of};

use crate::uses::{Sort, UsedName, Uses};
use jq_ast::{Core, Function, Referent, Tree, core_of};
use jq_natives::{Native, native_of};
use jv_data::NoMemory;
use jv_text::{Format, format_of};
use std::alloc::Global;
use std::fmt;

/// A name that nothing binds.
#[derive(Debug, PartialEq, Eq, Drop)]
pub enum Undefined {
    /// `f`, called with this number of arguments.
    Function { name: String, arity: usize },
    /// `$x`.
    Variable(String),
    /// `break $x`.
    Label(String),
    /// `@x`.
    Format(String),
}

/// The name as it is printed when a filter is refused: `f/2`, `$x`, `break $x`, `@x`.
impl fmt::Display for Undefined {
    ghost use Rattle.std.specs.Prelude.{Some};
    ghost use lib.Utf8.{encodes};
    ghost use Rattle.jq_tree.specs.Names.{printed_reference};
    ghost use Rattle.jq_resolver.specs.Undefined.{reference_of};

    ghost output = { λ u. Some (encodes (printed_reference (reference_of u))) };

    fn fmt<W: fmt::Write>(&self, f: &mut fmt::Formatter<W>) -> fmt::Result {
        match self {
            Undefined::Function { name, arity } => {
                let arity = *arity;
                write!(f, "{name}/{arity}")
            }
            Undefined::Variable(name) => write!(f, "${name}"),
            Undefined::Label(name) => write!(f, "break ${name}"),
            Undefined::Format(name) => write!(f, "@{name}"),
        }
    }
}

/// The first name of a program that nothing binds, in the order of the text: first the functions, then the tree.
/// `resolve` has set what the names refer to, and `variables` is the number of variables that it was given.
///
/// The parts that are still to be visited are kept in a list, so a deep tree takes no stack.
pub fn first_undefined(
    alloc: Global,
    variables: usize,
    functions: &[Function<Tree>],
    tree: &Tree,
) -> Result<Option<Undefined>, NoMemory>
    ensures { IfOk result (IsFirstUndefined (without_binder (uses (bound_program functions.now tree.now variables)))) }
{
    let mut uses = Uses::of(alloc, variables, functions, tree)?;
    while let Some(name) = uses.next()? {
        if !is_bound(name) {
            return Ok(Some(refused(alloc, name)?));
        }
    }
    Ok(None)
}

fn refused(alloc: Global, used: UsedName) -> Result<Undefined, NoMemory>
    ensures { IfOk result (λ u. reference_of u ≡ (use_of used.entry).0) }
{
    let name = String::from_str(alloc, used.name.text.as_str())?;
    Ok(match used.sort {
        Sort::Function(arity) => Undefined::Function { name, arity },
        Sort::Variable => Undefined::Variable(name),
        Sort::Label => Undefined::Label(name),
        Sort::Format => Undefined::Format(name),
    })
}

// Whether a binder around the name or the language binds it.
fn is_bound(used: UsedName) -> bool
    ensures { result ≡ is_somewhere (use_of used.entry).1 }
{
    match used.name.referent {
        Referent::Unresolved => false,
        Referent::Inner(_) => true,
        Referent::Outer(position) => (position as usize) < used.around,
        Referent::Native(native) => is_native(used, native),
        Referent::Core(core) => is_core(used, core),
        Referent::Format(format) => is_format(used, format),
    }
}

fn is_native(used: UsedName, native: Native) -> bool
    ensures { result ≡ means_native native (use_of used.entry).0 }
{
    match used.sort {
        Sort::Function(arity) => match native_of(used.name.text.as_str(), arity) {
            Some(found) => found == native,
            None => false,
        },
        _ => false,
    }
}

fn is_core(used: UsedName, core: Core) -> bool
    ensures { result ≡ same_reference (core_reference core) (use_of used.entry).0 }
{
    match used.sort {
        Sort::Function(arity) => match core_of(used.name.text.as_str(), arity) {
            Some(found) => found == core,
            None => false,
        },
        _ => false,
    }
}

fn is_format(used: UsedName, format: Format) -> bool
    ensures { result ≡ means_format format (use_of used.entry).0 }
{
    match used.sort {
        Sort::Format => match format_of(used.name.text.as_str()) {
            Some(found) => found == format,
            None => false,
        },
        _ => false,
    }
}
