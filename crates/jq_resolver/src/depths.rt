// The number of binders around each part of a tree.
ghost use Rattle.std.specs.Prelude.{◌≡◌, ◌+◌, suc, IfOk, map};
ghost use Rattle.jq_ast.specs.Bound.{bound_parts, bound_patterns, variables_in, variables_in_items, variables_in_part, variables_in_parts};
ghost use Rattle.jq_resolver.specs.private.BoundParts.{bound_as_part, bound_as_pattern};

use jq_ast::{Member, Pattern};
use jv_data::NoMemory;

pub(crate) fn deeper(around: usize, more: usize) -> Result<usize, NoMemory>
    ensures { IfOk result (λ n. n ≡ around + more) }
{
    match around.checked_add(more) {
        Some(inside) => Ok(inside),
        None => Err(NoMemory),
    }
}

pub(crate) fn one_deeper(around: usize) -> Result<usize, NoMemory>
    ensures { IfOk result (λ n. n ≡ suc around) }
{
    deeper(around, 1)
}

// The number of binders around a part that sees a pattern's variables. Patterns are nested no deeper than brackets.
#[cycle(entering)]
pub(crate) fn inside_pattern(pattern: &Pattern, around: usize) -> Result<usize, NoMemory>
    ensures { IfOk result (λ n. n ≡ around + variables_in (bound_as_pattern pattern.now around)) }
{
    match pattern {
        Pattern::Whole(_) => deeper(around, 1),
        Pattern::Items(patterns) => inside_patterns(patterns.as_slice(), around),
        Pattern::Members(members) => inside_members(members.as_slice(), around),
    }
}

#[cycle(entering)]
fn inside_patterns(patterns: &[Pattern], around: usize) -> Result<usize, NoMemory>
    ensures { IfOk result (λ n. n ≡ around + variables_in_items (bound_patterns (map bound_as_pattern patterns.now) around)) }
{
    let mut here = around;
    for pattern in patterns {
        here = inside_pattern(pattern, here)?;
    }
    Ok(here)
}

#[cycle(entering)]
fn inside_members(members: &[Member], around: usize) -> Result<usize, NoMemory>
    ensures { IfOk result (λ n. n ≡ around + variables_in_parts (bound_parts (map bound_as_part members.now) around)) }
{
    let mut here = around;
    for member in members {
        here = inside_member(member, here)?;
    }
    Ok(here)
}

#[cycle(entering)]
pub(crate) fn inside_member(member: &Member, around: usize) -> Result<usize, NoMemory>
    ensures { IfOk result (λ n. n ≡ around + variables_in_part (bound_as_part member.now around)) }
{
    match member {
        Member::Keyed(_, pattern) => inside_pattern(pattern, around),
        Member::KeyedVariable(_, pattern) => inside_pattern(pattern, one_deeper(around)?),
    }
}
