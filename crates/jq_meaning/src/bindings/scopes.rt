// The names that the meaning binds are those of the scopes that give a tree's names their places.

ghost use Rattle.jq_meaning.specs.laws.Scopes.{DefinitionsBindTheirNames, LabelsBindTheirNames, CallsBindParameters, BodiesKeepTheirPlaces, CallsAddArguments, OptionsBindTheirNames, OptionsAddVariables, PatternsBindTheirNames, ItemPatternsBindTheirNames, MemberPatternsBindTheirNames, SourcesBindTheirNames};

/// Definitions and labels bind their names in what follows them.
pub fn definitions_and_labels_bind_their_names()
    ensures definitions { DefinitionsBindTheirNames }
    ensures labels { LabelsBindTheirNames }
{}

/// The body of a called function runs in the scope of its definition.
pub fn calls_bind_parameters()
    ensures names { CallsBindParameters }
    ensures body { BodiesKeepTheirPlaces }
    ensures added { CallsAddArguments }
{}

/// The options' variables are bound in order, the first one innermost.
pub fn options_bind_variables()
    ensures names { OptionsBindTheirNames }
    ensures added { OptionsAddVariables }
{}

/// Each environment that a pattern makes has the pattern's variables inside the bindings from before.
pub fn patterns_bind_their_names()
    ensures whole { PatternsBindTheirNames }
    ensures items { ItemPatternsBindTheirNames }
    ensures members { MemberPatternsBindTheirNames }
    ensures source { SourcesBindTheirNames }
{}
