// Items and their values.
ghost use Rattle.std.specs.Prelude.{◌≡◌};
ghost use Rattle.jv_data.specs.View.{view};
ghost use Rattle.jq_natives.specs.Answers.{is_true};
ghost use Rattle.jq_meaning.specs.Runs.{as_value, value_in};
ghost use Rattle.jq_state.specs.Items.{item_of};

use jq_natives::truth;
use jq_state::items::Item;
use jv_data::Val;

/// The value of an item.
pub(crate) fn into_value(item: Item) -> Val
    ensures { view result ≡ value_in (item_of item) }
{
    let Item { value, path } = item;
    drop(path);
    value
}

/// The value of an item as an item without a path.
pub(crate) fn into_plain(item: Item) -> Item
    ensures { item_of result ≡ as_value (item_of item) }
{
    Item::plain(into_value(item))
}

/// Whether an item counts as true.
pub(crate) fn is_true(item: &Item) -> bool
    ensures { result ≡ is_true (value_in (item_of item.now)) }
{
    truth(&item.value)
}
