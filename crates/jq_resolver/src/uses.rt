// The names that a program uses, in the order of its text.
ghost use Rattle.std.specs.Prelude.{◌≡◌, ◌∷◌, [], ◌+◌, ◌<◌, ◌++◌, ℕ, suc, List, true, IsTrue, IfOk, OnOk, IfSome, MatchOption, if◌then◌else◌, length, map};
ghost use Rattle.jq_tree.specs.Binders.{Use, in_text_order, uses, uses_entries, uses_entry, uses_part, uses_parts, uses_pattern, uses_patterns, uses_pieces, uses_trees};
ghost use Rattle.jq_ast.specs.Bound.{bound, bound_parts, bound_patterns, bound_trees};
ghost use Rattle.jq_resolver.specs.private.BoundForms.{binding_uses, binding_visits, fold_uses, fold_visits};
ghost use Rattle.jq_resolver.specs.private.BoundParts.{bound_as_part, bound_as_pattern};
ghost use Rattle.jq_ast.specs.Named.{named};
ghost use Rattle.jq_resolver.specs.Programs.{bound_program};
ghost use Rattle.jq_resolver.specs.private.Forms.{is_binder};
ghost use Rattle.jq_resolver.specs.private.Resolved.{entries_at, entry_at};
ghost use Rattle.jq_resolver.specs.private.Visits.{entries_visits, entry_visits, part_visits, parts_visits, pattern_visits, patterns_visits, pieces_visits, tree_visits, trees_visits};
ghost use Rattle.jq_resolver.specs.private.Waiting.{names_left, pieces_at, program_visits, visits_left, visits_of, then_left, use_at, use_of, uses_of};

use crate::depths::{deeper, inside_member, inside_pattern, one_deeper};
use jq_ast::{Entry, Function, Member, Name, Pattern, Piece, Tree};
use jv_data::NoMemory;
use std::alloc::Global;

// The kind of a name that is used: that of its binder, or a format.
#[derive(Clone, Copy)]
pub(crate) enum Sort {
    // With this number of arguments.
    Function(usize),
    Variable,
    Label,
    Format,
}

// A use of a name, and the number of binders around it.
#[derive(Clone, Copy)]
pub(crate) struct UsedName<'a> {
    pub sort: Sort,
    pub name: &'a Name,
    pub around: usize,
}

// A part of a program. A list is visited item by item.
#[derive(Clone, Copy)]
enum Part<'a> {
    Program(&'a [Function<Tree>], &'a Tree),
    Name(Sort, &'a Name),
    Tree(&'a Tree),
    Trees(&'a [Tree]),
    Pieces(&'a [Piece<Tree>]),
    Entries(&'a [Entry<Tree>]),
    Pattern(&'a Pattern),
    Patterns(&'a [Pattern]),
    Members(&'a [Member]),
}

// A part of a program that is still to be visited, and the number of binders around it.
#[derive(Clone, Copy)]
struct Waiting<'a> {
    part: Part<'a>,
    around: usize,
}

// The names that are still to come. The next part in the order of the text is the last one of the list.
#[derive(Drop)]
pub(crate) struct Uses<'a> {
    waiting: Vec<Waiting<'a>>,
}

impl<'a> Uses<'a> {
    // The names of a program that has this number of variables around it.
    pub(crate) fn of(
        alloc: Global,
        variables: usize,
        functions: &'a [Function<Tree>],
        tree: &'a Tree,
    ) -> Result<Uses<'a>, NoMemory>
        ensures { IfOk result (λ all. names_left all ≡ uses (bound_program functions.now tree.now variables)) }
    {
        let mut all = Uses {
            waiting: Vec::new(alloc),
        };
        all.push(Part::Program(functions, tree), variables)?;
        Ok(all)
    }

    // The next name in the order of the text. None after the last one.
    pub(crate) fn next(&mut self) -> Result<Option<UsedName<'a>>, NoMemory>
        ensures uses { IfOk result (λ next. MatchOption next (names_left self.old ≡ []) (λ name. names_left self.old ≡ use_of name ∷ names_left self.new)) }
        ensures fewer { IfOk result (λ next. IfSome next (λ _. visits_left self.new < visits_left self.old)) }
    {
        while let Some(waiting) = self.waiting.pop() {
            if let Some(name) = self.open(waiting)? {
                return Ok(Some(name));
            }
        }
        Ok(None)
    }

    // Returns the part if it is a name. Otherwise adds the parts inside it to the waiting ones.
    fn open(&mut self, waiting: Waiting<'a>) -> Result<Option<UsedName<'a>>, NoMemory>
        ensures uses { IfOk result (λ next. uses_of waiting.entry.part waiting.entry.around ++ names_left self.old ≡ then_left next (names_left self.new)) }
        ensures fewer { IfOk result (λ _. visits_left self.new < visits_of waiting.entry.part waiting.entry.around + visits_left self.old) }
    {
        let around = waiting.around;
        match waiting.part {
            Part::Name(sort, name) => return Ok(Some(UsedName { sort, name, around })),
            Part::Program(functions, tree) => self.open_program(functions, tree, around)?,
            Part::Tree(tree) => self.open_tree(tree, around)?,
            Part::Trees(trees) => self.open_trees(trees, around)?,
            Part::Pieces(pieces) => self.open_pieces(pieces, around)?,
            Part::Entries(entries) => self.open_entries(entries, around)?,
            Part::Pattern(pattern) => self.open_pattern(pattern, around)?,
            Part::Patterns(patterns) => self.open_patterns(patterns, around)?,
            Part::Members(members) => self.open_members(members, around)?,
        }
        Ok(None)
    }

    fn push(&mut self, part: Part<'a>, around: usize) -> Result<(), NoMemory>
        ensures uses { OnOk result (names_left self.new ≡ uses_of part.entry around ++ names_left self.old) }
        ensures visits { OnOk result (visits_left self.new ≡ visits_of part.entry around + visits_left self.old) }
    {
        self.waiting.push(Waiting { part, around })?;
        Ok(())
    }

    fn push_name(&mut self, sort: Sort, name: &'a Name, around: usize) -> Result<(), NoMemory>
        ensures uses { OnOk result (names_left self.new ≡ use_at sort name.now around ∷ names_left self.old) }
        ensures visits { OnOk result (visits_left self.new ≡ suc (visits_left self.old)) }
    {
        self.push(Part::Name(sort, name), around)
    }

    fn push_tree(&mut self, tree: &'a Tree, around: usize) -> Result<(), NoMemory>
        ensures uses { OnOk result (names_left self.new ≡ uses (bound tree.now around) ++ names_left self.old) }
        ensures visits { OnOk result (visits_left self.new ≡ tree_visits (bound tree.now around) + visits_left self.old) }
    {
        self.push(Part::Tree(tree), around)
    }

    fn push_pattern(&mut self, pattern: &'a Pattern, around: usize) -> Result<(), NoMemory>
        ensures uses { OnOk result (names_left self.new ≡ uses_pattern (bound_as_pattern pattern.now around) ++ names_left self.old) }
        ensures visits { OnOk result (visits_left self.new ≡ pattern_visits (bound_as_pattern pattern.now around) + visits_left self.old) }
    {
        self.push(Part::Pattern(pattern), around)
    }

    fn push_two(&mut self, first: &'a Tree, second: &'a Tree, around: usize) -> Result<(), NoMemory>
        ensures uses { OnOk result (names_left self.new ≡ uses (bound first.now around) ++ uses (bound second.now around) ++ names_left self.old) }
        ensures visits { OnOk result (visits_left self.new ≡ tree_visits (bound first.now around) + tree_visits (bound second.now around) + visits_left self.old) }
    {
        self.push_tree(second, around)?;
        self.push_tree(first, around)
    }

    fn push_three(
        &mut self,
        first: &'a Tree,
        second: &'a Tree,
        third: &'a Tree,
        around: usize,
    ) -> Result<(), NoMemory>
        ensures uses { OnOk result (names_left self.new ≡ uses (bound first.now around) ++ uses (bound second.now around) ++ uses (bound third.now around) ++ names_left self.old) }
        ensures visits { OnOk result (visits_left self.new ≡ tree_visits (bound first.now around) + tree_visits (bound second.now around) + tree_visits (bound third.now around) + visits_left self.old) }
    {
        self.push_tree(third, around)?;
        self.push_two(first, second, around)
    }

    // Pushes a call: the name comes before the arguments.
    fn push_call(
        &mut self,
        name: &'a Name,
        arguments: &'a [Tree],
        around: usize,
    ) -> Result<(), NoMemory>
        ensures uses { OnOk result (names_left self.new ≡ use_at (Sort.Function (length arguments.now)) name.now around ∷ (uses_trees (bound_trees (map bound arguments.now) around) ++ names_left self.old)) }
        ensures visits { OnOk result (visits_left self.new ≡ suc (trees_visits (bound_trees (map bound arguments.now) around) + visits_left self.old)) }
    {
        self.push(Part::Trees(arguments), around)?;
        self.push_name(Sort::Function(arguments.len()), name, around)
    }

    // Pushes `f as P | g`. The form for `f op= g` binds a variable without a name, and there the body comes first in the text.
    fn push_binding(
        &mut self,
        source: &'a Tree,
        pattern: &'a Pattern,
        body: &'a Tree,
        around: usize,
    ) -> Result<(), NoMemory>
        ensures uses { OnOk result (names_left self.new ≡ binding_uses source.now pattern.now body.now around (names_left self.old)) }
        ensures visits { OnOk result (visits_left self.new < suc (binding_visits source.now pattern.now body.now around) + visits_left self.old) }
    {
        let inside = inside_pattern(pattern, around)?;
        if is_unnamed(pattern) {
            self.push_tree(source, around)?;
            return self.push_tree(body, inside);
        }
        self.push_tree(body, inside)?;
        self.push_pattern(pattern, around)?;
        self.push_tree(source, around)
    }

    // Pushes the source of a fold, its pattern, its start and its update.
    fn push_fold(
        &mut self,
        source: &'a Tree,
        pattern: &'a Pattern,
        start: &'a Tree,
        update: &'a Tree,
        around: usize,
    ) -> Result<(), NoMemory>
        ensures uses { OnOk result (names_left self.new ≡ fold_uses source.now pattern.now start.now update.now around (names_left self.old)) }
        ensures visits { OnOk result (visits_left self.new ≡ fold_visits source.now pattern.now start.now update.now around + visits_left self.old) }
    {
        let inside = inside_pattern(pattern, around)?;
        self.push_tree(update, inside)?;
        self.push_tree(start, around)?;
        self.push_pattern(pattern, around)?;
        self.push_tree(source, around)
    }

    // Pushes the body of a function; `around` is the number of binders around its parameters.
    fn push_body(&mut self, function: &'a Function<Tree>, around: usize) -> Result<(), NoMemory>
        ensures uses { OnOk result (names_left self.new ≡ uses (bound function.now.body (around + length function.now.parameters.items)) ++ names_left self.old) }
        ensures visits { OnOk result (visits_left self.new ≡ tree_visits (bound function.now.body (around + length function.now.parameters.items)) + visits_left self.old) }
    {
        let inside = deeper(around, function.parameters.len())?;
        self.push_tree(&function.body, inside)
    }

    // Opens a program: its first function, then the rest, in which that function is bound.
    fn open_program(
        &mut self,
        functions: &'a [Function<Tree>],
        tree: &'a Tree,
        around: usize,
    ) -> Result<(), NoMemory>
        ensures uses { OnOk result (names_left self.new ≡ uses (bound_program functions.now tree.now around) ++ names_left self.old) }
        ensures fewer { OnOk result (visits_left self.new < program_visits functions.now tree.now around + visits_left self.old) }
    {
        let Some((first, rest)) = functions.split_first() else {
            return self.push_tree(tree, around);
        };
        let inside = one_deeper(around)?;
        self.push(Part::Program(rest, tree), inside)?;
        self.push_body(first, inside)
    }

    fn open_tree(&mut self, tree: &'a Tree, around: usize) -> Result<(), NoMemory>
        ensures uses { OnOk result (names_left self.new ≡ uses (bound tree.now around) ++ names_left self.old) }
        ensures fewer { OnOk result (visits_left self.new < tree_visits (bound tree.now around) + visits_left self.old) }
    {
        match tree {
            Tree::Identity | Tree::Empty | Tree::Literal(_) => Ok(()),
            Tree::Text(format, pieces, _) => {
                self.push(Part::Pieces(pieces.as_slice()), around)?;
                self.push_name(Sort::Format, format, around)
            }
            Tree::Format(format) => self.push_name(Sort::Format, format, around),
            Tree::Variable(name) => self.push_name(Sort::Variable, name, around),
            Tree::Break(name) => self.push_name(Sort::Label, name, around),
            Tree::Field(inner, _, _)
            | Tree::Iterate(inner, _)
            | Tree::Negation(inner)
            | Tree::Array(inner) => self.push_tree(inner, around),
            Tree::Index(first, second, _)
            | Tree::Pipe(first, second)
            | Tree::Comma(first, second)
            | Tree::Binary(_, first, second)
            | Tree::And(first, second)
            | Tree::Or(first, second)
            | Tree::Alternative(first, second)
            | Tree::TryCatch(first, second) => self.push_two(first, second, around),
            Tree::Slice(first, second, third, _) | Tree::Choice(first, second, third) => {
                self.push_three(first, second, third, around)
            }
            Tree::Object(entries) => self.push(Part::Entries(entries.as_slice()), around),
            Tree::Call(name, arguments) => self.push_call(name, arguments.as_slice(), around),
            Tree::PreludeCall(name, arguments) => {
                self.push_call(name, arguments.as_slice(), around)
            }
            Tree::Update(modify, parts) => self.push_call(&modify.name, &**parts, around),
            Tree::Label(_, _)
            | Tree::BindAs(_, _, _)
            | Tree::Reduce(_, _, _, _)
            | Tree::Foreach(_, _, _, _, _)
            | Tree::Define(_, _) => self.open_binder(tree, around),
        }
    }

    // Opens a form that binds names around its last parts.
    fn open_binder(&mut self, tree: &'a Tree, around: usize) -> Result<(), NoMemory>
        requires { is_binder (named tree.now) ≡ true }
        ensures uses { OnOk result (names_left self.new ≡ uses (bound tree.now around) ++ names_left self.old) }
        ensures fewer { OnOk result (visits_left self.new < tree_visits (bound tree.now around) + visits_left self.old) }
    {
        match tree {
            Tree::Label(_, body) => self.push_tree(body, one_deeper(around)?),
            Tree::BindAs(source, pattern, body) => {
                self.push_binding(source, pattern, body, around)
            }
            Tree::Reduce(source, pattern, start, update) => {
                self.push_fold(source, pattern, start, update, around)
            }
            Tree::Foreach(source, pattern, start, update, extract) => {
                self.push_tree(extract, inside_pattern(pattern, around)?)?;
                self.push_fold(source, pattern, start, update, around)
            }
            Tree::Define(function, rest) => {
                let inside = one_deeper(around)?;
                self.push_tree(rest, inside)?;
                self.push_body(function, inside)
            }
            _ => unreachable!(),
        }
    }

    fn open_trees(&mut self, trees: &'a [Tree], around: usize) -> Result<(), NoMemory>
        ensures uses { OnOk result (names_left self.new ≡ uses_trees (bound_trees (map bound trees.now) around) ++ names_left self.old) }
        ensures fewer { OnOk result (visits_left self.new < trees_visits (bound_trees (map bound trees.now) around) + visits_left self.old) }
    {
        let Some((first, rest)) = trees.split_first() else {
            return Ok(());
        };
        self.push(Part::Trees(rest), around)?;
        self.push_tree(first, around)
    }

    fn open_pieces(&mut self, pieces: &'a [Piece<Tree>], around: usize) -> Result<(), NoMemory>
        ensures uses { OnOk result (names_left self.new ≡ uses_pieces (pieces_at pieces.now around) ++ names_left self.old) }
        ensures fewer { OnOk result (visits_left self.new < pieces_visits (pieces_at pieces.now around) + visits_left self.old) }
    {
        let Some((first, rest)) = pieces.split_first() else {
            return Ok(());
        };
        self.push(Part::Pieces(rest), around)?;
        self.push_tree(&first.tree, around)
    }

    fn open_entries(&mut self, entries: &'a [Entry<Tree>], around: usize) -> Result<(), NoMemory>
        ensures uses { OnOk result (names_left self.new ≡ uses_entries (entries_at entries.now around) ++ names_left self.old) }
        ensures fewer { OnOk result (visits_left self.new < entries_visits (entries_at entries.now around) + visits_left self.old) }
    {
        let Some((first, rest)) = entries.split_first() else {
            return Ok(());
        };
        self.push(Part::Entries(rest), around)?;
        self.open_entry(first, around)
    }

    fn open_entry(&mut self, entry: &'a Entry<Tree>, around: usize) -> Result<(), NoMemory>
        ensures uses { OnOk result (names_left self.new ≡ uses_entry (entry_at entry.now around) ++ names_left self.old) }
        ensures visits { OnOk result (visits_left self.new ≡ entry_visits (entry_at entry.now around) + visits_left self.old) }
    {
        match entry {
            Entry::Named(_, value) => self.push_tree(value, around),
            Entry::Computed(key, value) => self.push_two(key, value, around),
            Entry::Own(key) => self.push_tree(key, around),
        }
    }

    fn open_pattern(&mut self, pattern: &'a Pattern, around: usize) -> Result<(), NoMemory>
        ensures uses { OnOk result (names_left self.new ≡ uses_pattern (bound_as_pattern pattern.now around) ++ names_left self.old) }
        ensures fewer { OnOk result (visits_left self.new < pattern_visits (bound_as_pattern pattern.now around) + visits_left self.old) }
    {
        match pattern {
            Pattern::Whole(_) => Ok(()),
            Pattern::Items(patterns) => self.push(Part::Patterns(patterns.as_slice()), around),
            Pattern::Members(members) => self.push(Part::Members(members.as_slice()), around),
        }
    }

    // Each pattern is inside the variables of those before it.
    fn open_patterns(&mut self, patterns: &'a [Pattern], around: usize) -> Result<(), NoMemory>
        ensures uses { OnOk result (names_left self.new ≡ uses_patterns (bound_patterns (map bound_as_pattern patterns.now) around) ++ names_left self.old) }
        ensures fewer { OnOk result (visits_left self.new < patterns_visits (bound_patterns (map bound_as_pattern patterns.now) around) + visits_left self.old) }
    {
        let Some((first, rest)) = patterns.split_first() else {
            return Ok(());
        };
        self.push(Part::Patterns(rest), inside_pattern(first, around)?)?;
        self.push_pattern(first, around)
    }

    fn open_members(&mut self, members: &'a [Member], around: usize) -> Result<(), NoMemory>
        ensures uses { OnOk result (names_left self.new ≡ uses_parts (bound_parts (map bound_as_part members.now) around) ++ names_left self.old) }
        ensures fewer { OnOk result (visits_left self.new < parts_visits (bound_parts (map bound_as_part members.now) around) + visits_left self.old) }
    {
        let Some((first, rest)) = members.split_first() else {
            return Ok(());
        };
        self.push(Part::Members(rest), inside_member(first, around)?)?;
        self.open_member(first, around)
    }

    fn open_member(&mut self, member: &'a Member, around: usize) -> Result<(), NoMemory>
        ensures uses { OnOk result (names_left self.new ≡ uses_part (bound_as_part member.now around) ++ names_left self.old) }
        ensures visits { OnOk result (visits_left self.new ≡ part_visits (bound_as_part member.now around) + visits_left self.old) }
    {
        match member {
            Member::Keyed(key, pattern) => {
                self.push_pattern(pattern, around)?;
                self.push_tree(key, around)
            }
            Member::KeyedVariable(_, pattern) => self.push_pattern(pattern, one_deeper(around)?),
        }
    }
}

// Whether the pattern is the variable that no filter can name.
fn is_unnamed(pattern: &Pattern) -> bool
    ensures order { (n : ℕ) (source body : List Use) → in_text_order (bound_as_pattern pattern.now n) source body ≡ (if result then body ++ source else source ++ body) }
    ensures none { (n : ℕ) → IsTrue result → uses_pattern (bound_as_pattern pattern.now n) ≡ [] }
{
    match pattern {
        Pattern::Whole(name) => name.as_str().is_empty(),
        Pattern::Items(_) => false,
        Pattern::Members(_) => false,
    }
}
