// Whether a value contains another. The containers that are being searched are in a list, so that depth takes no stack.
ghost use Rattle.std.specs.Prelude.{◌≡◌, ◌&&◌, ◌||◌, IfOk, MatchResult, String, false, nat_eq, option_map};
ghost use Rattle.std.specs.declared.alloc.Global.{Global};
ghost use Rattle.std.specs.Option.{option_map_or};
ghost use Rattle.std.specs.Str.{chars};
ghost use Rattle.jv_data.specs.Fails.{AnswersAs};
ghost use Rattle.jv_data.specs.Held.{members_in};
ghost use Rattle.jv_data.specs.Value.{rank};
ghost use Rattle.jv_data.specs.View.{items_view, members_view, view};
ghost use Rattle.jq_natives.specs.Answers.{is_same};
ghost use Rattle.jq_natives.specs.Containment.{contained_in, contains_of, is_within, items_contained, members_contained};
ghost use Rattle.jq_natives.specs.private.Searches.{after, found_by, in_one_of, leads_to};

use jv_data::{Fail, Iter, Object, Val, kind, order, raise_kinds};
use std::alloc::{AllocError, Global};

// What is left to find in a container.
#[derive(Drop)]
enum Search<'a> {
    // Each of the first items in one of the second items.
    Items(&'a [Val], &'a [Val]),
    // An item in one of the items that were not tried for it, and each of the items after it in one of the last.
    Item(&'a Val, &'a [Val], &'a [Val], &'a [Val]),
    // Each of the members in the member of the same key.
    Members(Iter<'a, Val>, &'a Object<Val>),
}

// What a search does next.
#[derive(Drop)]
enum Step<'a> {
    Answer(bool),
    Next(Search<'a>),
    // The first search decides how the second one goes on.
    Deeper(Search<'a>, Search<'a>),
}

/// `contains(part)`: a substring of a string, each item of an array in some item, each member of an object in the member of
/// the same key, else an equal value. For values of two kinds an error is raised.
pub(crate) fn contains(alloc: Global, value: &Val, part: &Val) -> Result<Val, Fail>
    ensures { AnswersAs result (contains_of (view value.now) (view part.now)) }
{
    if are_of_one_kind(value, part) {
        Ok(Val::Bool(is_contained(alloc, part, value)?))
    } else {
        let text = " cannot have their containment checked";
        Err(raise_kinds(alloc, value, part, text))
    }
}

fn are_of_one_kind(left: &Val, right: &Val) -> bool
    ensures { result ≡ nat_eq (rank (view left.now)) (rank (view right.now)) }
{
    kind(left) == kind(right)
}

fn is_contained(alloc: Global, part: &Val, whole: &Val) -> Result<bool, AllocError>
    ensures { IfOk result (λ b. b ≡ contained_in (view part.now) (view whole.now)) }
{
    let mut open = Vec::new(alloc);
    let mut step = first_step(part, whole);
    // (this many steps are never made, but show that the loop ends)
    for _ in 0..u64::MAX {
        match step {
            Step::Answer(answer) => match open.pop() {
                None => return Ok(answer),
                Some(search) => {
                    step = resumed(search, answer);
                    continue;
                }
            },
            Step::Next(search) => {
                step = next_step(search);
                continue;
            }
            Step::Deeper(inner, outer) => {
                open.push(outer)?;
                step = Step::Next(inner);
            }
        }
    }
    Err(AllocError)
}

fn first_step<'a>(part: &'a Val, whole: &'a Val) -> Step<'a>
    ensures { leads_to result ≡ contained_in (view part.now) (view whole.now) }
{
    match search_of(part, whole) {
        Ok(search) => Step::Next(search),
        Err(answer) => Step::Answer(answer),
    }
}

// The search of two containers of one kind, or the answer for other values.
fn search_of<'a>(part: &'a Val, whole: &'a Val) -> Result<Search<'a>, bool>
    ensures { MatchResult result
        (λ search. found_by search ≡ contained_in (view part.now) (view whole.now))
        (λ answer. answer ≡ contained_in (view part.now) (view whole.now)) }
{
    match (part, whole) {
        (Val::Text(part), Val::Text(whole)) => Err(is_within(part.as_str(), whole.as_str())),
        (Val::List(parts), Val::List(wholes)) => {
            Ok(Search::Items(parts.as_slice(), wholes.as_slice()))
        }
        (Val::Table(parts), Val::Table(wholes)) => Ok(Search::Members(parts.iter(), wholes)),
        _ => Err(is_same(part, whole)),
    }
}

// A search goes on after the answer that it waits for.
fn resumed<'a>(search: Search<'a>, answer: bool) -> Step<'a>
    ensures { leads_to result ≡ after search.entry answer }
{
    match search {
        Search::Items(parts, wholes) => next_if(answer, Search::Items(parts, wholes)),
        Search::Item(part, untried, parts, wholes) => Step::Next(if answer {
            Search::Items(parts, wholes)
        } else {
            Search::Item(part, untried, parts, wholes)
        }),
        Search::Members(parts, wholes) => next_if(answer, Search::Members(parts, wholes)),
    }
}

fn next_if<'a>(answer: bool, search: Search<'a>) -> Step<'a>
    ensures { leads_to result ≡ (answer && found_by search.entry) }
{
    if answer {
        Step::Next(search)
    } else {
        Step::Answer(false)
    }
}

fn next_step<'a>(search: Search<'a>) -> Step<'a>
    ensures { leads_to result ≡ found_by search.entry }
{
    match search {
        Search::Items(parts, wholes) => match parts.split_first() {
            None => Step::Answer(true),
            Some((part, parts)) => next_try(part, wholes, parts, wholes),
        },
        Search::Item(part, untried, parts, wholes) => next_try(part, untried, parts, wholes),
        Search::Members(parts, wholes) => next_member(parts, wholes),
    }
}

fn next_try<'a>(part: &'a Val, untried: &'a [Val], parts: &'a [Val], wholes: &'a [Val]) -> Step<'a>
    ensures { leads_to result ≡ (in_one_of part.now untried.now && items_contained (items_view parts.now) (items_view wholes.now)) }
{
    match first_container(part, untried) {
        Ok((inner, untried)) => Step::Deeper(inner, Search::Item(part, untried, parts, wholes)),
        Err(true) => Step::Next(Search::Items(parts, wholes)),
        Err(false) => Step::Answer(false),
    }
}

// The search of the first item that is a container of the part's kind, and the items after it; or the answer.
fn first_container<'a>(part: &'a Val, wholes: &'a [Val]) -> Result<(Search<'a>, &'a [Val]), bool>
    ensures { MatchResult result
        (λ r. in_one_of part.now wholes.now ≡ (found_by r.0 || in_one_of part.now r.1.now))
        (λ answer. answer ≡ in_one_of part.now wholes.now) }
{
    let mut rest = wholes;
    while let Some((whole, untried)) = rest.split_first() {
        rest = untried;
        match search_of(part, whole) {
            Ok(search) => return Ok((search, rest)),
            Err(true) => return Err(true),
            Err(false) => {}
        }
    }
    Err(false)
}

fn next_member<'a>(parts: Iter<'a, Val>, wholes: &'a Object<Val>) -> Step<'a>
    ensures { leads_to result ≡ members_contained (members_view parts.entry) (members_in wholes.now) }
{
    let mut rest = parts;
    match rest.next() {
        None => Step::Answer(true),
        Some((key, part)) => match wholes.get(key.as_str()) {
            None => Step::Answer(false),
            Some(whole) => match search_of(part, whole) {
                Ok(inner) => Step::Deeper(inner, Search::Members(rest, wholes)),
                Err(true) => Step::Next(Search::Members(rest, wholes)),
                Err(false) => Step::Answer(false),
            },
        },
    }
}

fn is_within(part: &str, whole: &str) -> bool
    ensures { result ≡ is_within (chars part.now) (chars whole.now) }
{
    whole.contains(part)
}

fn is_same(left: &Val, right: &Val) -> bool
    ensures { result ≡ is_same (view left.now) (view right.now) }
{
    order(left, right).is_eq()
}
