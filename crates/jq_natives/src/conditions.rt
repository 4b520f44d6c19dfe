// Which values count as true.
ghost use Rattle.std.specs.Prelude.{◌≡◌};
ghost use Rattle.jv_data.specs.View.{view};
ghost use Rattle.jq_natives.specs.Answers.{is_true};

use jv_data::Val;

/// Whether a value counts as true: neither null nor false (manual of jq 1.7, "if-then-else-end").
pub fn truth(value: &Val) -> bool
    ensures { result ≡ is_true (view value.now) }
{
    match value {
        Val::Null => false,
        Val::Bool(value) => *value,
        Val::Num(_) => true,
        Val::Text(_) => true,
        Val::List(_) => true,
        Val::Table(_) => true,
    }
}
