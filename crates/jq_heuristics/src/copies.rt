// Values by what it costs to copy them.
use jv_data::Val;

// A string of at most this many bytes is cheap to copy.
const SHORT: usize = 64;

// A fold may copy so many parts of its input, and so many more for each step.
const FOR_ALL: usize = 64;

const FOR_EACH: usize = 16;

/// Whether a fold over some values changes a copy of its input in no more time than its steps take. The values are paths of
/// parts that are changed, as those of an assignment; of others this is not known.
pub fn pays_for_copy(input: &Val, values: &[Val]) -> bool {
    match values {
        [Val::List(path), ..] => {
            let for_steps = values.len().saturating_mul(FOR_EACH);
            size_along(input, path.as_slice()) <= for_steps.saturating_add(FOR_ALL)
        }
        [] => true,
        _ => false,
    }
}

// The number of parts of the containers that a path goes through.
fn size_along(input: &Val, path: &[Val]) -> usize {
    let mut size = size_of(input);
    let mut at = input;
    for key in path.iter() {
        match part_of(at, key) {
            Some(part) => {
                size = size.saturating_add(size_of(part));
                at = part;
            }
            None => return size,
        }
    }
    size
}

fn size_of(value: &Val) -> usize {
    match value {
        Val::List(items) => items.len(),
        Val::Table(members) => members.len(),
        _ => 0,
    }
}

fn part_of<'v>(value: &'v Val, key: &Val) -> Option<&'v Val> {
    match (value, key) {
        (Val::Table(members), Val::Text(name)) => members.get(name.as_str()),
        (Val::List(items), Val::Num(place)) => match usize::try_from(*place) {
            Ok(place) => items.get(place),
            Err(_) => None,
        },
        _ => None,
    }
}

/// Whether a copy of a value takes constant time, when a filter changes it and it is still needed.
pub fn is_cheap(value: &Val) -> bool {
    match value {
        Val::Text(text) => text.as_str().len() <= SHORT,
        Val::List(_) | Val::Table(_) => false,
        _ => true,
    }
}
