// Laws of the natives: of their table, of sorting and grouping, and of code points.

ghost use Rattle.std.specs.Prelude.{◌≡◌, ℕ, List, Ok, Some, flat_map, map, true};
ghost use Rattle.std.specs.List.{list_all};
ghost use Rattle.jv_data.specs.Value.{Value, string};
ghost use Rattle.jq_natives.specs.Answers.{counts};
ghost use Rattle.jq_natives.specs.Natives.{answer_of_native, native_named, table};
ghost use Rattle.jq_natives.specs.Sorting.{Keyed, sorted, groups};
ghost use Rattle.jq_natives.specs.Texts.{is_code_point, implode_of, explode_of};
ghost use Rattle.jq_natives.specs.laws.Sorting.{IsArranged, AreGroups};

/// Each entry of the table is found by its name and its number of arguments, and by its native, so no entry hides another.
pub fn no_entry_hides_another()
    ensures names { map (λ r. native_named r.name r.arguments) table ≡ map (λ r. Some r.means) table }
    ensures answers { (input : Value) (arguments : List Value) →
        map (λ r. answer_of_native r.means input arguments) table ≡ map (λ r. r.answers input arguments) table }
{}

/// A sort keeps the items, puts them in the order of their keys, and keeps the order of items with equal keys. No other
/// list has these properties.
pub fn sorted_list_is_the_only_one()
    ensures arranged { (items : List Keyed) → IsArranged items (sorted items) }
    ensures only { (items list : List Keyed) → IsArranged items list → list ≡ sorted items }
{}

/// The groups of a list, one after the other, are the list. The items of a group have
/// one key, and the next group has another.
pub fn groups_are_the_list()
    ensures joined { (items : List Keyed) → flat_map (λ group. group) (groups items) ≡ items }
    ensures apart { (items : List Keyed) → AreGroups (groups items) }
{}

/// `explode` returns the code points of a string, and `implode` makes the string from them again.
pub fn implode_undoes_explode()
    ensures explode { (s : List ℕ) → explode_of (string s) ≡ Ok (counts s) }
    ensures implode { (s : List ℕ) → list_all is_code_point s ≡ true → implode_of (counts s) ≡ Ok (string s) }
{}
