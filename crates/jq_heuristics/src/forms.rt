// Filters by their form.
use jq_ast::{Core, Name, Operator, Pattern, Referent, Tree};

/// Whether a filter does not change its input, or changes each part of it, so that it may change a copy.
pub fn goes_over_all(tree: &Tree) -> bool {
    match tree {
        Tree::Choice(_, holds, fails) => goes_over_all(holds) && goes_over_all(fails),
        // Functions of the prelude that make a new value or go over all parts of their input.
        Tree::Call(name, _) => matches!(
            name.text.as_str(),
            "map" | "map_values" | "to_entries" | "from_entries" | "with_entries" | "walk"
        ),
        _ => is_reading(tree),
    }
}

/// Whether a filter may have at most one output. What changes its input before a `|` is left to the machine, where nobody else
/// holds the input.
pub fn is_tried(tree: &Tree) -> bool {
    match tree {
        Tree::Binary(_, _, _) => true,
        Tree::Alternative(_, _) => true,
        Tree::Choice(_, _, _) => true,
        Tree::TryCatch(body, _) => is_reading(body),
        Tree::Pipe(first, second) => is_reading(first) && !takes_apart(second),
        Tree::BindAs(_, pattern, _) => is_whole(pattern),
        Tree::Call(name, _) => may_run(name),
        _ => is_reading(tree),
    }
}

/// Whether a filter is an update, `f |= g`.
#[inline(always)]
pub fn is_update(tree: &Tree) -> bool {
    match tree {
        Tree::Update(_, _) => true,
        _ => false,
    }
}

fn is_value(tree: &Tree) -> bool {
    match tree {
        Tree::Identity => true,
        Tree::Empty => true,
        Tree::Literal(_) => true,
        Tree::Variable(_) => true,
        _ => false,
    }
}

// Whether a filter makes a value, or takes a part of its input, and does not change the input. A sum or a product may change
// its left operand in place.
fn is_reading(tree: &Tree) -> bool {
    match tree {
        Tree::Binary(operator, _, _) => !matches!(operator, Operator::Plus | Operator::Times),
        Tree::Reduce(_, _, start, _) => !matches!(&**start, Tree::Identity),
        Tree::Field(_, _, _) | Tree::Index(_, _, _) | Tree::Slice(_, _, _, _) => true,
        Tree::And(_, _) | Tree::Or(_, _) | Tree::Negation(_) => true,
        Tree::Array(_) | Tree::Object(_) | Tree::Text(_, _, _) | Tree::Format(_) => true,
        Tree::Identity | Tree::Empty | Tree::Literal(_) | Tree::Variable(_) => true,
        _ => false,
    }
}

// Whether a filter takes its input apart by a pattern, which is not run at once.
fn takes_apart(tree: &Tree) -> bool {
    match tree {
        Tree::BindAs(_, pattern, _) => !is_whole(pattern),
        _ => false,
    }
}

fn is_whole(pattern: &Pattern) -> bool {
    match pattern {
        Pattern::Whole(_) => true,
        _ => false,
    }
}

// Whether a call is of a function, a parameter, a native or `empty`.
fn may_run(name: &Name) -> bool {
    match name.referent {
        Referent::Inner(_) => true,
        Referent::Outer(_) => true,
        Referent::Native(_) => true,
        Referent::Core(Core::Empty) => true,
        _ => false,
    }
}

/// Whether a filter makes a value of simple parts.
pub fn is_small(tree: &Tree) -> bool {
    match tree {
        Tree::Field(target, _, _) => is_simple(target),
        Tree::Index(target, key, _) => is_simple(target) && is_simple(key),
        Tree::Pipe(first, second) => is_part(first) && is_part(second),
        Tree::Binary(_, left, right) => is_simple(left) && is_simple(right),
        Tree::And(left, right) => is_simple(left) && is_simple(right),
        Tree::Or(left, right) => is_simple(left) && is_simple(right),
        Tree::Alternative(left, right) => is_simple(left) && is_simple(right),
        Tree::Negation(operand) => is_simple(operand),
        Tree::Choice(condition, holds, fails) => {
            is_simple(condition) && is_simple(holds) && is_simple(fails)
        }
        Tree::Call(name, arguments) => is_native(name) && are_parts(arguments.as_slice()),
        _ => false,
    }
}

/// Whether a filter is a part of the input, a variable or a constant, or makes a value of two of these.
pub fn is_simple(tree: &Tree) -> bool {
    match tree {
        Tree::Field(target, _, _) => is_part(target),
        Tree::Index(target, key, _) => is_part(target) && is_part(key),
        Tree::Binary(_, left, right) => is_part(left) && is_part(right),
        Tree::And(left, right) => is_part(left) && is_part(right),
        Tree::Or(left, right) => is_part(left) && is_part(right),
        Tree::Negation(operand) => is_part(operand),
        Tree::Array(filter) => is_part(filter),
        Tree::Call(name, arguments) => is_native(name) && are_parts(arguments.as_slice()),
        _ => is_part(tree),
    }
}

// Whether a filter is the input, a field of it, a field of a field, a variable or a constant.
fn is_part(tree: &Tree) -> bool {
    match tree {
        Tree::Field(target, _, _) => is_step(target),
        _ => is_step(tree),
    }
}

fn is_step(tree: &Tree) -> bool {
    match tree {
        Tree::Field(target, _, _) => is_value(target),
        _ => is_value(tree),
    }
}

fn is_native(name: &Name) -> bool {
    match name.referent {
        Referent::Native(_) => true,
        _ => false,
    }
}

fn are_parts(trees: &[Tree]) -> bool {
    match trees {
        [] => true,
        [first] => is_part(first),
        [first, second] => is_part(first) && is_part(second),
        _ => false,
    }
}
