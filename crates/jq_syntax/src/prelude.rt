// The definitions that come before every filter.
ghost use Rattle.std.specs.Prelude.{◌≡◌, ◌∷◌, [], ◌++◌, IfOk, OnOk, IfErr};
ghost use Rattle.jq_ast.specs.Named.{named};
ghost use Rattle.jq_tree.specs.Tree as tree;
ghost use Rattle.jq_tree.specs.Prelude.{IsPrelude, followed_by};
ghost use Rattle.jq_syntax.specs.private.Reading.{IsOutOfMemory, AreThePreludes, nested};

use crate::faults::CompileFault;
use crate::prelude_laws::prelude_is_accepted;
use jq_ast::{Function, Tree};
use jq_lexer::{LexFault, Token, lex};
use jq_parser::laws::one_tree;
use jq_parser::{ParseFault, parse};
use jq_tree::lexing::one_reading;
use jq_tree::prelude::PRELUDE;
use std::alloc::Global;

// The functions of the prelude, in the order of its text. Their names are not resolved yet.
pub(crate) fn read_prelude(alloc: Global) -> Result<Vec<Function<Tree>>, CompileFault>
    ensures functions { IfOk result (λ fs. AreThePreludes fs.items) }
    ensures fault { IfErr result IsOutOfMemory }
{
    let tree = prelude_tree(alloc)?;
    let mut functions = Vec::new(alloc);
    take_definitions(&mut functions, tree)?;
    Ok(functions)
}

fn prelude_tree(alloc: Global) -> Result<Box<Tree>, CompileFault>
    ensures tree { IfOk result (λ t. IsPrelude (named t.value)) }
    ensures fault { IfErr result IsOutOfMemory }
{
    prelude_is_accepted();
    one_reading();
    let tokens = match lex(alloc, PRELUDE) {
        Ok(tokens) => tokens,
        Err(LexFault::BadToken { .. }) => unreachable!(),
        Err(LexFault::NoMemory) => return Err(CompileFault::NoMemory),
    };
    match parse(alloc, tokens) {
        Ok(tree) => Ok(tree),
        Err(ParseFault::Syntax) => unreachable!(),
        Err(ParseFault::NoMemory) => Err(CompileFault::NoMemory),
    }
}

// Moves the definitions that the tree begins with into the list.
#[cycle(definitions)]
fn take_definitions(
    functions: &mut Vec<Function<Tree>>,
    filter: Box<Tree>,
) -> Result<(), CompileFault>
    ensures taken { OnOk result ((t : tree.Tree) → nested functions.new.items t ≡ nested functions.old.items (followed_by (named filter.value) t)) }
    ensures fault { IfErr result IsOutOfMemory }
{
    match Box::into_inner(filter) {
        Tree::Define(function, rest) => {
            functions.push(Box::into_inner(function))?;
            take_definitions(functions, rest)?;
            Ok(())
        }
        Tree::Identity => Ok(()),
        Tree::Empty => Ok(()),
        Tree::Literal(_a) => Ok(()),
        Tree::Text(_a, _b, _c) => Ok(()),
        Tree::Format(_a) => Ok(()),
        Tree::Variable(_a) => Ok(()),
        Tree::Field(_a, _b, _c) => Ok(()),
        Tree::Index(_a, _b, _c) => Ok(()),
        Tree::Slice(_a, _b, _c, _d) => Ok(()),
        Tree::Iterate(_a, _b) => Ok(()),
        Tree::Pipe(_a, _b) => Ok(()),
        Tree::Comma(_a, _b) => Ok(()),
        Tree::Binary(_a, _b, _c) => Ok(()),
        Tree::And(_a, _b) => Ok(()),
        Tree::Or(_a, _b) => Ok(()),
        Tree::Alternative(_a, _b) => Ok(()),
        Tree::Negation(_a) => Ok(()),
        Tree::Array(_a) => Ok(()),
        Tree::Object(_a) => Ok(()),
        Tree::Choice(_a, _b, _c) => Ok(()),
        Tree::TryCatch(_a, _b) => Ok(()),
        Tree::Label(_a, _b) => Ok(()),
        Tree::Break(_a) => Ok(()),
        Tree::BindAs(_a, _b, _c) => Ok(()),
        Tree::Reduce(_a, _b, _c, _d) => Ok(()),
        Tree::Foreach(_a, _b, _c, _d, _e) => Ok(()),
        Tree::Call(_a, _b) => Ok(()),
        Tree::PreludeCall(_a, _b) => Ok(()),
        Tree::Update(_a, _b) => Ok(()),
    }
}
