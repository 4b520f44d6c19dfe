// The trees of filters, built from their parts.
ghost use Rattle.std.specs.Prelude.{◌≡◌, ◌∷◌, ◌++◌, [], map, pos, false, bytes_eq, IfOk, Some, None};
ghost use Rattle.std.specs.Str.{chars};
ghost use Rattle.jv_data.specs.Text.{text_of};
ghost use Rattle.jq_tree.specs.Tree as tree;
ghost use Rattle.jq_tree.specs.Token.{keyword_text};
ghost use Rattle.jq_tree.specs.Grammar as g;
ghost use Rattle.jq_tree.specs.WrittenOut as written;
ghost use Rattle.jq_ast.specs.Named.{named, named_as_pattern, named_as_part, name_of, named_entry};
ghost use Rattle.jq_ast.specs.Leaves.{operator_of};
ghost use Rattle.jq_lexer.specs.Views.{symbol_of, keyword_of, token_of};
ghost use Rattle.jq_builders.specs.Trees as built;
ghost use Rattle.jq_builders.specs.Views.{tree_in, pattern_in, maybe, branch_of, piece_of, pieces_of, entry_key_of, value_key_of, part_key_of, parameter_of, definition_of};

use crate::parts::*;
use jq_ast::{
    Entry, Key, Literal, Member, Modify, Name, Operator, Pattern, Piece, Referent, Tree, boxed,
};
use jq_lexer::{Keyword, Natural, Symbol, Token};
use std::alloc::{AllocError, Global};

/// A name without its binder.
pub fn unresolved(text: String) -> Name
    ensures { name_of result ≡ text_of text }
{
    Name {
        text,
        referent: Referent::Unresolved,
    }
}

fn name_from(alloc: Global, text: &str) -> Result<Name, AllocError>
    ensures { IfOk result (λ n. name_of n ≡ chars text.now) }
{
    Ok(unresolved(String::from_str(alloc, text)?))
}

fn copied(text: &String) -> Result<String, AllocError>
    ensures { IfOk result (λ s. text_of s ≡ text_of text.now) }
{
    text.clone()
}

/// Allocates the box of a pattern.
pub fn boxed_pattern(alloc: Global, pattern: Pattern) -> Result<Box<Pattern>, AllocError>
    ensures { IfOk result (λ x. x.value ≡ pattern) }
{
    Ok(Box::new(alloc, pattern)?)
}

/// A string as a filter.
pub fn string_tree(alloc: Global, text: String) -> Result<Box<Tree>, AllocError>
    ensures { IfOk result (λ t. tree_in t ≡ g.name_of (text_of text)) }
{
    let literal = Literal::string(alloc, text)?;
    boxed(alloc, Tree::Literal(literal))
}

/// The missing bound of a slice.
pub fn null_tree(alloc: Global) -> Result<Box<Tree>, AllocError>
    ensures { IfOk result (λ t. tree_in t ≡ g.no_bound) }
{
    boxed(alloc, Tree::Literal(Literal::null()))
}

fn boolean_tree(alloc: Global, value: bool) -> Result<Box<Tree>, AllocError>
    ensures { IfOk result (λ t. tree_in t ≡ tree.literal (tree.boolean value)) }
{
    boxed(alloc, Tree::Literal(Literal::boolean(value)))
}

/// A number as a filter.
pub fn number_tree(alloc: Global, number: Natural) -> Result<Box<Tree>, AllocError>
    ensures { IfOk result (λ t. tree_in t ≡ tree.literal (tree.number (pos number.value))) }
{
    boxed(alloc, Tree::Literal(Literal::number(number.value as i64)))
}

/// `..`.
#[tactic(auto, using(crate::proofs::Levels::named_prelude_call, crate::proofs::Levels::recurse_characters))]
pub fn recurse_all(alloc: Global) -> Result<Box<Tree>, AllocError>
    ensures { IfOk result (λ t. tree_in t ≡ written.recurse_all) }
{
    let name = name_from(alloc, "recurse")?;
    boxed(alloc, Tree::PreludeCall(name, Vec::new(alloc)))
}

/// `try f`: an error of the filter ends it silently.
pub fn attempt(alloc: Global, t: Box<Tree>) -> Result<Box<Tree>, AllocError>
    ensures { IfOk result (λ r. tree_in r ≡ written.attempt (tree_in t)) }
{
    let none = boxed(alloc, Tree::Empty)?;
    boxed(alloc, Tree::TryCatch(t, none))
}

/// A `?` directly after a step guards that step alone.
pub fn with_question(alloc: Global, last: bool, a: Box<Tree>) -> Result<Box<Tree>, AllocError>
    ensures { IfOk result (λ r. tree_in r ≡ built.with_question last (tree_in a)) }
{
    if last {
        guarded(alloc, a)
    } else {
        attempt(alloc, a)
    }
}

#[tactic(auto, using(crate::proofs::Levels::named_call, crate::proofs::Levels::named_prelude_call, crate::proofs::Levels::named_update, crate::proofs::Levels::named_object, crate::proofs::Levels::named_text))]
fn guarded(alloc: Global, a: Box<Tree>) -> Result<Box<Tree>, AllocError>
    ensures { IfOk result (λ r. tree_in r ≡ written.guarded (tree_in a)) }
{
    match Box::into_inner(a) {
        Tree::Field(f, key, _) => boxed(alloc, Tree::Field(f, key, true)),
        Tree::Index(f, key, _) => boxed(alloc, Tree::Index(f, key, true)),
        Tree::Slice(f, from, to, _) => boxed(alloc, Tree::Slice(f, from, to, true)),
        Tree::Iterate(f, _) => boxed(alloc, Tree::Iterate(f, true)),
        Tree::Identity => boxed(alloc, Tree::Identity),
        Tree::Empty => boxed(alloc, Tree::Empty),
        Tree::Literal(a) => boxed(alloc, Tree::Literal(a)),
        Tree::Text(a, b, c) => boxed(alloc, Tree::Text(a, b, c)),
        Tree::Format(a) => boxed(alloc, Tree::Format(a)),
        Tree::Variable(a) => boxed(alloc, Tree::Variable(a)),
        Tree::Pipe(a, b) => boxed(alloc, Tree::Pipe(a, b)),
        Tree::Comma(a, b) => boxed(alloc, Tree::Comma(a, b)),
        Tree::Binary(a, b, c) => boxed(alloc, Tree::Binary(a, b, c)),
        Tree::And(a, b) => boxed(alloc, Tree::And(a, b)),
        Tree::Or(a, b) => boxed(alloc, Tree::Or(a, b)),
        Tree::Alternative(a, b) => boxed(alloc, Tree::Alternative(a, b)),
        Tree::Negation(a) => boxed(alloc, Tree::Negation(a)),
        Tree::Array(a) => boxed(alloc, Tree::Array(a)),
        Tree::Object(a) => boxed(alloc, Tree::Object(a)),
        Tree::Choice(a, b, c) => boxed(alloc, Tree::Choice(a, b, c)),
        Tree::TryCatch(a, b) => boxed(alloc, Tree::TryCatch(a, b)),
        Tree::Label(a, b) => boxed(alloc, Tree::Label(a, b)),
        Tree::Break(a) => boxed(alloc, Tree::Break(a)),
        Tree::BindAs(a, b, c) => boxed(alloc, Tree::BindAs(a, b, c)),
        Tree::Reduce(a, b, c, d) => boxed(alloc, Tree::Reduce(a, b, c, d)),
        Tree::Foreach(a, b, c, d, e) => boxed(alloc, Tree::Foreach(a, b, c, d, e)),
        Tree::Define(a, b) => boxed(alloc, Tree::Define(a, b)),
        Tree::Call(a, b) => boxed(alloc, Tree::Call(a, b)),
        Tree::PreludeCall(a, b) => boxed(alloc, Tree::PreludeCall(a, b)),
        Tree::Update(a, b) => boxed(alloc, Tree::Update(a, b)),
    }
}

/// A name alone: `null`, `true` and `false` are literals.
#[tactic(auto, using(crate::proofs::Levels::named_call, crate::proofs::Levels::literal_true, crate::proofs::Levels::literal_false, crate::proofs::Levels::null_characters, crate::proofs::Levels::true_characters, crate::proofs::Levels::false_characters))]
pub fn bare_name(alloc: Global, name: String) -> Result<Box<Tree>, AllocError>
    ensures { IfOk result (λ t. tree_in t ≡ built.bare_name (g.literal_named (text_of name)) (text_of name)) }
{
    if is_text(&name, "null") {
        return null_tree(alloc);
    }
    if is_text(&name, "true") {
        return boolean_tree(alloc, true);
    }
    if is_text(&name, "false") {
        return boolean_tree(alloc, false);
    }
    boxed(alloc, Tree::Call(unresolved(name), Vec::new(alloc)))
}

fn is_text(text: &String, wanted: &str) -> bool
    ensures { result ≡ bytes_eq (text_of text.now) (chars wanted.now) }
{
    text.as_str() == wanted
}

/// `name(f; g)`.
#[tactic(auto, using(crate::proofs::Levels::named_call))]
pub fn call_tree(alloc: Global, name: String, arguments: Vec<Tree>) -> Result<Box<Tree>, AllocError>
    ensures { IfOk result (λ t. tree_in t ≡ tree.call (text_of name) (built.onto tree.more_trees (map named arguments.items) tree.no_trees)) }
{
    boxed(alloc, Tree::Call(unresolved(name), arguments))
}

/// `{a: f, b: g}`.
#[tactic(auto, using(crate::proofs::Levels::named_object))]
pub fn object_tree(alloc: Global, entries: Vec<Entry<Tree>>) -> Result<Box<Tree>, AllocError>
    ensures { IfOk result (λ t. tree_in t ≡ tree.object (built.onto tree.more_entries (map named_entry entries.items) tree.no_entries)) }
{
    boxed(alloc, Tree::Object(entries))
}

/// The filter of a string: one without interpolation is a literal.
#[tactic(auto, using(crate::proofs::Levels::named_text, crate::proofs::Levels::some_pieces, crate::proofs::Levels::text_characters))]
pub fn text_tree(alloc: Global, text: Text) -> Result<Box<Tree>, AllocError>
    ensures { IfOk result (λ t. tree_in t ≡ g.text_of (pieces_of text)) }
{
    let Text { pieces, last } = text;
    if pieces.is_empty() {
        return string_tree(alloc, last);
    }
    let format = name_from(alloc, "text")?;
    boxed(alloc, Tree::Text(format, pieces, last))
}

/// `@format "text"`.
#[tactic(auto, using(crate::proofs::Levels::named_text))]
pub fn formatted_tree(alloc: Global, format: String, text: Text) -> Result<Box<Tree>, AllocError>
    ensures { IfOk result (λ t. tree_in t ≡ tree.text (text_of format) (pieces_of text)) }
{
    boxed(
        alloc,
        Tree::Text(unresolved(format), text.pieces, text.last),
    )
}

/// `f, g`, or `g` alone where no filter comes before it.
pub fn with_comma(
    alloc: Global,
    before: Option<Box<Tree>>,
    t: Box<Tree>,
) -> Result<Box<Tree>, AllocError>
    ensures { IfOk result (λ r. tree_in r ≡ built.with_comma (maybe before) (tree_in t)) }
{
    match before {
        None => Ok(t),
        Some(a) => boxed(alloc, Tree::Comma(a, t)),
    }
}

/// The branches of an `if`, around the filter for when no test holds.
#[tactic(auto, using(crate::proofs::Levels::branches_last))]
pub fn choices(
    alloc: Global,
    branches: Vec<Branch>,
    otherwise: Box<Tree>,
) -> Result<Box<Tree>, AllocError>
    ensures { IfOk result (λ t. tree_in t ≡ built.onto built.branch_before (map branch_of branches.items) (tree_in otherwise)) }
{
    let mut branches = branches;
    let mut t = otherwise;
    while let Some(branch) = branches.pop() {
        t = chosen(alloc, branch, t)?;
    }
    Ok(t)
}

fn chosen(alloc: Global, branch: Branch, otherwise: Box<Tree>) -> Result<Box<Tree>, AllocError>
    ensures { IfOk result (λ t. tree_in t ≡ tree.choice (tree_in branch.test) (tree_in branch.holds) (tree_in otherwise)) }
{
    let Branch { test, holds } = branch;
    boxed(alloc, Tree::Choice(test, holds, otherwise))
}

// ---- lists

fn unboxed(t: Box<Tree>) -> Tree
    ensures { result ≡ t.value }
{
    Box::into_inner(t)
}

/// Adds the last argument.
pub fn with_argument(arguments: Vec<Tree>, t: Box<Tree>) -> Result<Vec<Tree>, AllocError>
    ensures { IfOk result (λ v. map named v.items ≡ map named arguments.items ++ tree_in t ∷ []) }
{
    let mut arguments = arguments;
    arguments.push(unboxed(t))?;
    Ok(arguments)
}

/// Adds the last branch.
pub fn with_branch(
    branches: Vec<Branch>,
    test: Box<Tree>,
    holds: Box<Tree>,
) -> Result<Vec<Branch>, AllocError>
    ensures { IfOk result (λ v. map branch_of v.items ≡ map branch_of branches.items ++ (tree_in test, tree_in holds) ∷ []) }
{
    let mut branches = branches;
    branches.push(Branch { test, holds })?;
    Ok(branches)
}

/// Adds the last piece of a string, and the filter after it.
pub fn with_piece(
    pieces: Vec<Piece<Tree>>,
    before: String,
    t: Box<Tree>,
) -> Result<Vec<Piece<Tree>>, AllocError>
    ensures { IfOk result (λ v. map piece_of v.items ≡ map piece_of pieces.items ++ (text_of before, tree_in t) ∷ []) }
{
    let mut pieces = pieces;
    pieces.push(Piece {
        before,
        tree: unboxed(t),
    })?;
    Ok(pieces)
}

/// Adds the last entry.
pub fn with_entry(
    entries: Vec<Entry<Tree>>,
    entry: Entry<Tree>,
) -> Result<Vec<Entry<Tree>>, AllocError>
    ensures { IfOk result (λ v. map named_entry v.items ≡ map named_entry entries.items ++ named_entry entry ∷ []) }
{
    let mut entries = entries;
    entries.push(entry)?;
    Ok(entries)
}

/// Adds the last item of an array's pattern.
pub fn with_pattern(patterns: Vec<Pattern>, x: Box<Pattern>) -> Result<Vec<Pattern>, AllocError>
    ensures { IfOk result (λ v. map named_as_pattern v.items ≡ map named_as_pattern patterns.items ++ pattern_in x ∷ []) }
{
    let mut patterns = patterns;
    patterns.push(Box::into_inner(x))?;
    Ok(patterns)
}

/// Adds the last part of an object's pattern.
pub fn with_member(members: Vec<Member>, member: Member) -> Result<Vec<Member>, AllocError>
    ensures { IfOk result (λ v. map named_as_part v.items ≡ map named_as_part members.items ++ named_as_part member ∷ []) }
{
    let mut members = members;
    members.push(member)?;
    Ok(members)
}

/// The same, from the part's key and its pattern.
pub fn with_keyed(
    members: Vec<Member>,
    key: PartKey,
    x: Box<Pattern>,
) -> Result<Vec<Member>, AllocError>
    ensures { IfOk result (λ v. map named_as_part v.items ≡ map named_as_part members.items ++ built.part_with (part_key_of key) (pattern_in x) ∷ []) }
{
    with_member(members, keyed(key, x))
}

fn keyed(key: PartKey, x: Box<Pattern>) -> Member
    ensures { named_as_part result ≡ built.part_with (part_key_of key) (pattern_in x) }
{
    let pattern = Box::into_inner(x);
    match key {
        PartKey::Tree(key) => Member::Keyed(key, pattern),
        PartKey::Variable(name) => Member::KeyedVariable(name, pattern),
    }
}

// ---- entries and parts

fn entry_named(alloc: Global, key: String, value: Box<Tree>) -> Result<Entry<Tree>, AllocError>
    ensures { IfOk result (λ e. named_entry e ≡ tree.named (text_of key) (tree_in value)) }
{
    let key = Key::new(alloc, key)?;
    Ok(Entry::Named(key, unboxed(value)))
}

/// `{$x}`.
pub fn variable_entry(alloc: Global, name: String) -> Result<Entry<Tree>, AllocError>
    ensures { IfOk result (λ e. named_entry e ≡ tree.named (text_of name) (tree.variable (text_of name))) }
{
    let key = copied(&name)?;
    let value = boxed(alloc, Tree::Variable(unresolved(name)))?;
    entry_named(alloc, key, value)
}

// `{a}`.
fn own_named(alloc: Global, name: String) -> Result<Entry<Tree>, AllocError>
    ensures { IfOk result (λ e. named_entry e ≡ tree.named (text_of name) (tree.field tree.identity (text_of name) false)) }
{
    let key = Key::new(alloc, copied(&name)?)?;
    let input = boxed(alloc, Tree::Identity)?;
    let value = boxed(alloc, Tree::Field(input, key, false))?;
    entry_named(alloc, name, value)
}

/// `{a}`, `{"a"}` or `{@format "a"}`.
pub fn entry_without_value(alloc: Global, key: EntryKey) -> Result<Entry<Tree>, AllocError>
    ensures { IfOk result (λ e. named_entry e ≡ built.entry_of (entry_key_of key) None) }
{
    match key {
        EntryKey::Word(name) => own_named(alloc, name),
        EntryKey::Text(text) => own_text(alloc, text),
        EntryKey::Formatted(format, text) => {
            let t = formatted_tree(alloc, format, text)?;
            Ok(Entry::Own(unboxed(t)))
        }
    }
}

#[tactic(auto, using(crate::proofs::Levels::some_pieces))]
fn own_text(alloc: Global, text: Text) -> Result<Entry<Tree>, AllocError>
    ensures { IfOk result (λ e. named_entry e ≡ g.own_entry (pieces_of text)) }
{
    if text.pieces.is_empty() {
        return own_named(alloc, text.last);
    }
    let t = text_tree(alloc, text)?;
    Ok(Entry::Own(unboxed(t)))
}

/// `{a: f}`, `{"a": f}`, `{@format "a": f}` or `{(g): f}`.
pub fn entry_with(alloc: Global, key: ValueKey, value: Box<Tree>) -> Result<Entry<Tree>, AllocError>
    ensures { IfOk result (λ e. named_entry e ≡ built.entry_with (value_key_of key) (tree_in value)) }
{
    match key {
        ValueKey::Computed(key) => Ok(Entry::Computed(unboxed(key), unboxed(value))),
        ValueKey::Keyed(EntryKey::Word(name)) => entry_named(alloc, name, value),
        ValueKey::Keyed(EntryKey::Text(text)) => text_entry(alloc, text, value),
        ValueKey::Keyed(EntryKey::Formatted(format, text)) => {
            let key = formatted_tree(alloc, format, text)?;
            Ok(Entry::Computed(unboxed(key), unboxed(value)))
        }
    }
}

#[tactic(auto, using(crate::proofs::Levels::some_pieces))]
fn text_entry(alloc: Global, text: Text, value: Box<Tree>) -> Result<Entry<Tree>, AllocError>
    ensures { IfOk result (λ e. named_entry e ≡ g.text_entry (pieces_of text) (tree_in value)) }
{
    if text.pieces.is_empty() {
        return entry_named(alloc, text.last, value);
    }
    let key = text_tree(alloc, text)?;
    Ok(Entry::Computed(unboxed(key), unboxed(value)))
}

/// `$k` alone in a pattern is `k: $k`.
pub fn variable_member(alloc: Global, name: String) -> Result<Member, AllocError>
    ensures { IfOk result (λ x. named_as_part x ≡ tree.keyed (g.name_of (text_of name)) (tree.whole (text_of name))) }
{
    let key = string_tree(alloc, copied(&name)?)?;
    Ok(Member::Keyed(key, Pattern::Whole(name)))
}

/// `[$a, $b]`.
#[tactic(auto, using(crate::proofs::Levels::named_items))]
pub fn items_pattern(alloc: Global, patterns: Vec<Pattern>) -> Result<Box<Pattern>, AllocError>
    ensures { IfOk result (λ x. pattern_in x ≡ tree.items (built.onto tree.more_patterns (map named_as_pattern patterns.items) tree.no_patterns)) }
{
    boxed_pattern(alloc, Pattern::Items(patterns))
}

/// `{a: $a, b: $b}`.
#[tactic(auto, using(crate::proofs::Levels::named_members))]
pub fn members_pattern(alloc: Global, members: Vec<Member>) -> Result<Box<Pattern>, AllocError>
    ensures { IfOk result (λ x. pattern_in x ≡ tree.members (built.onto tree.more_parts (map named_as_part members.items) tree.no_parts)) }
{
    boxed_pattern(alloc, Pattern::Members(members))
}

// ---- operators

/// `f op g`.
pub fn joined(
    alloc: Global,
    operator: Token,
    a: Box<Tree>,
    b: Box<Tree>,
) -> Result<Box<Tree>, AllocError>
    ensures { IfOk result (λ t. tree_in t ≡ g.joined (token_of operator) (tree_in a) (tree_in b)) }
{
    match operator {
        Token::Keyword(Keyword::And) => boxed(alloc, Tree::And(a, b)),
        Token::Keyword(Keyword::Or) => boxed(alloc, Tree::Or(a, b)),
        Token::Symbol(symbol) => joined_by(alloc, symbol, a, b),
        _ => boxed(alloc, Tree::Empty),
    }
}

fn joined_by(
    alloc: Global,
    symbol: Symbol,
    a: Box<Tree>,
    b: Box<Tree>,
) -> Result<Box<Tree>, AllocError>
    ensures { IfOk result (λ t. tree_in t ≡ g.joined_by (symbol_of symbol) (tree_in a) (tree_in b)) }
{
    match symbol {
        Symbol::Times => boxed(alloc, Tree::Binary(Operator::Times, a, b)),
        Symbol::Divided => boxed(alloc, Tree::Binary(Operator::Divided, a, b)),
        Symbol::Modulo => boxed(alloc, Tree::Binary(Operator::Modulo, a, b)),
        Symbol::Plus => boxed(alloc, Tree::Binary(Operator::Plus, a, b)),
        Symbol::Minus => boxed(alloc, Tree::Binary(Operator::Minus, a, b)),
        Symbol::Equal => boxed(alloc, Tree::Binary(Operator::Equal, a, b)),
        Symbol::NotEqual => boxed(alloc, Tree::Binary(Operator::NotEqual, a, b)),
        Symbol::Less => boxed(alloc, Tree::Binary(Operator::Less, a, b)),
        Symbol::LessOrEqual => boxed(alloc, Tree::Binary(Operator::LessOrEqual, a, b)),
        Symbol::Greater => boxed(alloc, Tree::Binary(Operator::Greater, a, b)),
        Symbol::GreaterOrEqual => boxed(alloc, Tree::Binary(Operator::GreaterOrEqual, a, b)),
        Symbol::Assign => assigned(alloc, a, b),
        Symbol::ModifyAssign => modified(alloc, a, b),
        Symbol::PlusAssign => update(alloc, Operator::Plus, a, b),
        Symbol::MinusAssign => update(alloc, Operator::Minus, a, b),
        Symbol::TimesAssign => update(alloc, Operator::Times, a, b),
        Symbol::DividedAssign => update(alloc, Operator::Divided, a, b),
        Symbol::ModuloAssign => update(alloc, Operator::Modulo, a, b),
        Symbol::AlternativeAssign => update_alternative(alloc, a, b),
        Symbol::Alternative => boxed(alloc, Tree::Alternative(a, b)),
        _ => boxed(alloc, Tree::Empty),
    }
}

fn no_text(alloc: Global) -> String
    ensures { text_of result ≡ [] }
{
    String::new(alloc)
}

// The variable that no filter can name.
fn unnamed_variable(alloc: Global) -> Result<Box<Tree>, AllocError>
    ensures { IfOk result (λ t. tree_in t ≡ tree.variable written.unnamed) }
{
    boxed(alloc, Tree::Variable(unresolved(no_text(alloc))))
}

fn unnamed_pattern(alloc: Global) -> Result<Box<Pattern>, AllocError>
    ensures { IfOk result (λ x. pattern_in x ≡ tree.whole written.unnamed) }
{
    boxed_pattern(alloc, Pattern::Whole(no_text(alloc)))
}

#[tactic(auto, using(crate::proofs::Levels::named_update))]
fn modified(alloc: Global, a: Box<Tree>, b: Box<Tree>) -> Result<Box<Tree>, AllocError>
    ensures { IfOk result (λ t. tree_in t ≡ written.modify (tree_in a) (tree_in b)) }
{
    let name = Modify::new(alloc)?;
    let parts = Box::new(alloc, [unboxed(a), unboxed(b)])?;
    boxed(alloc, Tree::Update(name, parts))
}

#[tactic(auto, using(crate::proofs::Levels::named_prelude_call, crate::proofs::Levels::assign_characters))]
fn assigned(alloc: Global, a: Box<Tree>, b: Box<Tree>) -> Result<Box<Tree>, AllocError>
    ensures { IfOk result (λ t. tree_in t ≡ written.assign (tree_in a) (tree_in b)) }
{
    let name = name_from(alloc, "_assign")?;
    let mut arguments = Vec::new(alloc);
    arguments.push(unboxed(a))?;
    arguments.push(unboxed(b))?;
    boxed(alloc, Tree::PreludeCall(name, arguments))
}

// `f op= g` is `g as $v | f |= (. op $v)`.
fn update(
    alloc: Global,
    operator: Operator,
    a: Box<Tree>,
    b: Box<Tree>,
) -> Result<Box<Tree>, AllocError>
    ensures { IfOk result (λ t. tree_in t ≡ written.update (operator_of operator) (tree_in a) (tree_in b)) }
{
    let input = boxed(alloc, Tree::Identity)?;
    let value = unnamed_variable(alloc)?;
    let changed = boxed(alloc, Tree::Binary(operator, input, value))?;
    bound_update(alloc, a, b, changed)
}

fn update_alternative(alloc: Global, a: Box<Tree>, b: Box<Tree>) -> Result<Box<Tree>, AllocError>
    ensures { IfOk result (λ t. tree_in t ≡ written.update_alternative (tree_in a) (tree_in b)) }
{
    let input = boxed(alloc, Tree::Identity)?;
    let value = unnamed_variable(alloc)?;
    let changed = boxed(alloc, Tree::Alternative(input, value))?;
    bound_update(alloc, a, b, changed)
}

fn bound_update(
    alloc: Global,
    a: Box<Tree>,
    b: Box<Tree>,
    changed: Box<Tree>,
) -> Result<Box<Tree>, AllocError>
    ensures { IfOk result (λ t. tree_in t ≡ tree.bind_as (tree_in b) (tree.whole written.unnamed) (written.modify (tree_in a) (tree_in changed))) }
{
    let body = modified(alloc, a, changed)?;
    let pattern = unnamed_pattern(alloc)?;
    boxed(alloc, Tree::BindAs(b, pattern, body))
}
