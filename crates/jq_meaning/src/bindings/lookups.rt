// The binding that a name finds in an environment is the one at the name's place.

ghost use Rattle.jq_meaning.specs.laws.Lookups.{BindingsHaveTheirNames, ValuesStandAtTheirPlaces, LevelsStandAtTheirPlaces, CalleesStandAtTheirPlaces, LanguageNamesFindNothing, PreludeFunctionsStandAtTheirPlaces, UnboundPreludeNamesFindNothing, LanguageNamesAreKnown, FormatsAreNotBound};

use crate::laws::bound_names_have_a_meaning;

/// The binding at a name's place binds the name.
pub fn bindings_have_their_names()
    ensures { BindingsHaveTheirNames }
{}

/// Variables and labels find the binding at their place.
pub fn values_and_labels_stand_at_their_places()
    ensures values { ValuesStandAtTheirPlaces }
    ensures levels { LevelsStandAtTheirPlaces }
{}

/// Calls find the binding at their place, and builtins find none.
pub fn callees_stand_at_their_places()
    ensures bound { CalleesStandAtTheirPlaces }
    ensures builtin { LanguageNamesFindNothing }
{}

/// Calls of the prelude's own functions find the binding at their place.
pub fn prelude_functions_stand_at_their_places()
    ensures bound { PreludeFunctionsStandAtTheirPlaces }
    ensures unbound { UnboundPreludeNamesFindNothing }
{}

/// A name of the language is a builtin or a format.
pub fn language_names_are_known()
    ensures known { LanguageNamesAreKnown }
    ensures formats { FormatsAreNotBound }
{
    bound_names_have_a_meaning();
}
