//! The law that an entity of a bulk whose predicates all have a colour has one row at most.
#![tactic(auto)]

ghost use Rattle.layout_coloured_laws.specs.OneRow.{ColouredEntitiesHaveOneRow};

/// On a side whose known columns are the colours of a bulk, an entity of the bulk whose predicates all have a
/// colour has no row but its first.
pub fn coloured_entities_have_one_row()
    ensures { ColouredEntitiesHaveOneRow }
{}
