// Places counted from the inside and from the outside, and environments in two parts.

ghost use Rattle.jq_meaning.specs.laws.Places.{StepsLeadOutwards, WalksGoOn, WalksAdd, PlacesCountFromBothEnds, OuterPlacesStay, ListsGiveOuterPlaces, ListsGiveOutermostPlaces, CountsAdd, InnerPlaces, OuterPlaces, OuterPlacesFromOutside, OuterBinders, ListsAdd, LastIsInnermost, InnerWalks, PreludeBindersStay, PreludeFunctionsStay, InputsStayOutwards, InputsStay, InputsStayInCalls};

/// A walk outwards, one binding at a time, reaches each place.
pub fn walks_reach_places()
    ensures step { StepsLeadOutwards }
    ensures rest { WalksGoOn }
    ensures both { WalksAdd }
{}

/// A place counted from the outside keeps its binding when more bindings are added inside.
pub fn outer_places_stay()
    ensures both_ends { PlacesCountFromBothEnds }
    ensures stay { OuterPlacesStay }
    ensures list { ListsGiveOuterPlaces }
    ensures outermost { ListsGiveOutermostPlaces }
{}

/// Each place of an environment in two parts is in one of them.
pub fn environments_split()
    ensures lists { ListsAdd }
    ensures last { LastIsInnermost }
    ensures count { CountsAdd }
    ensures inner { InnerPlaces }
    ensures walk { InnerWalks }
    ensures outer { OuterPlaces }
    ensures from_outside { OuterPlacesFromOutside }
    ensures binders { OuterBinders }
{}

/// The prelude's own functions keep their places from the outside.
pub fn prelude_functions_stay()
    ensures binders { PreludeBindersStay }
    ensures functions { PreludeFunctionsStay }
{}

/// Bindings do not change the outputs of `inputs`.
pub fn inputs_stay()
    ensures outwards { InputsStayOutwards }
    ensures inwards { InputsStay }
    ensures calls { InputsStayInCalls }
{}
