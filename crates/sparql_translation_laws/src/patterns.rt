//! Laws of the patterns of a translated group.

ghost use Rattle.std.specs.Prelude.{◌≡◌, ◌++◌};
ghost use Rattle.sparql_meaning.specs.declared.gathered.Gathered.{Gathered};
ghost use Rattle.sparql_meaning.specs.Translation.{Part, take_part};
ghost use Rattle.sparql_translation_laws.specs.TreePatterns.{gathered_patterns, part_patterns};

/// Each element adds its patterns behind those before it.
// For the numbers of the patterns of a query.
pub fn parts_add_their_patterns()
    ensures { (g : Gathered) (p : Part) → gathered_patterns (take_part g p) ≡ gathered_patterns g ++ part_patterns p }
{}
