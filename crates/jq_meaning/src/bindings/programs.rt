// A program's own bindings, read from its list by their places from the outside.

ghost use Rattle.jq_meaning.specs.laws.Programs.{FiltersRunInTheProgram, ProgramsBindTheirNames, FiltersKeepTheirPlaces, ProgramsGrow, ProgramsCount, ProgramsBegin, BindingsStayOver, CallsStayOver, PatternsStayOver, WalksStayOver, ProgramsGiveInputs, NamesInTheProgram, ValuesInTheProgram, FunctionsInTheProgram, PreludeFunctionsInTheProgram};

/// A filter runs in the program's own bindings: the options' variables, and inside them the functions defined before it.
pub fn filters_run_in_the_program()
    ensures run { FiltersRunInTheProgram }
    ensures names { ProgramsBindTheirNames }
    ensures places { FiltersKeepTheirPlaces }
{}

/// Each of a program's bindings is inside those before it in its list.
pub fn programs_are_lists()
    ensures grow { ProgramsGrow }
    ensures count { ProgramsCount }
{}

/// Each step of a run keeps the program's bindings as the outermost ones.
pub fn environments_stand_over_programs()
    ensures begin { ProgramsBegin }
    ensures bindings { BindingsStayOver }
    ensures calls { CallsStayOver }
    ensures patterns { PatternsStayOver }
    ensures walks { WalksStayOver }
    ensures inputs { ProgramsGiveInputs }
{}

/// A name whose place is in the program's list finds the item there.
pub fn names_are_found_in_programs()
    ensures names { NamesInTheProgram }
    ensures values { ValuesInTheProgram }
    ensures functions { FunctionsInTheProgram }
    ensures prelude { PreludeFunctionsInTheProgram }
{}
