//! Steps that are put behind others.

ghost use Rattle.std.specs.Prelude.{◌≡◌, ℕ, Bool, false, List, ◌++◌};
ghost use Rattle.rdf_meaning.specs.Terms.{RdfTerm};
ghost use Rattle.query_eval_meaning.specs.Mapping.{Mapping};
ghost use Rattle.sql_meaning.specs.declared.script.Step.{Step};
ghost use Rattle.sql_rows_meaning.specs.Tables.{Relations};
ghost use Rattle.sql_rows_meaning.specs.Rows.{after_steps};
ghost use Rattle.sql_gen_step_laws.specs.Carried.{Name, Ids, Carries};
ghost use Rattle.sql_gen_chain_laws.specs.Chains.{is_named, IsApart, SameBase, Stands};

/// Further steps over the last table of some steps stand for what they make of its solutions.
// For the compiler's step of a Filter.
pub fn one_side_goes_on()
    ensures { (base : Name → Bool) (given : Relations) (ids : Ids) (known : RdfTerm → Bool) (vs us : List ℕ) (ms ns : List Mapping) (steps more : List Step) (a n : Name) →
        Stands base given ids known vs ms steps a → ((t : Relations) → SameBase base given t → Carries ids known vs ms (t a) → Carries ids known us ns (after_steps more t n)) → IsApart base more →
        Stands base given ids known us ns (steps ++ more) n }
{}

/// The steps of two sides, of which the second ones don't name the first side's last table anew, and further steps over the
/// last tables of both stand for what these make of the solutions of both.
// For the compiler's steps of Join, LeftJoin and Union.
pub fn both_sides_go_on()
    ensures { (base : Name → Bool) (given : Relations) (ids : Ids) (known : RdfTerm → Bool) (vs ws us : List ℕ) (ls rs ns : List Mapping) (left right more : List Step) (a b n : Name) →
        Stands base given ids known vs ls left a → Stands base given ids known ws rs right b → is_named a right ≡ false → IsApart base more →
        ((t : Relations) → SameBase base given t → Carries ids known vs ls (t a) → Carries ids known ws rs (t b) → Carries ids known us ns (after_steps more t n)) →
        Stands base given ids known us ns (left ++ right ++ more) n }
{}
