//! Law that joins the ids of a tree and the calls of a hierarchy.
ghost use Rattle.bw_laws.specs.Ids.{IdsAreGivenOnce};

/// Law: over any calls on a new hierarchy, a new group's id is above each id that was ever given.
///
/// So no id is given twice. The calls are those of the hierarchy, its handles and its builder.
pub fn ids_are_given_once()
    ensures { IdsAreGivenOnce }
{}
