// The laws of updates.
ghost use Rattle.jq_meaning.specs.laws.Updates.{ModifyStays, UpdatesAreTurns};

/// The run of `f |= g`, on values and inside `path(f)`, at each call depth.
pub fn an_update_is_its_turns()
    ensures { UpdatesAreTurns }
{}

/// A definition of `_modify` inside of the prelude's changes no update.
pub fn the_preludes_update_stays()
    ensures { ModifyStays }
{}
