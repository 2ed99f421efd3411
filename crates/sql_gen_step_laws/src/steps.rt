//! The steps of Join, LeftJoin and Union.

ghost use Rattle.std.specs.Prelude.{ℕ, List, ◌++◌, Bool, true, false};
ghost use Rattle.std.specs.List.{AllByRecursion};
ghost use Rattle.rdf_meaning.specs.Terms.{RdfTerm};
ghost use Rattle.query_eval_meaning.specs.Mapping.{Mapping};
ghost use Rattle.query_eval_meaning.specs.Eval.{join, left_join};
ghost use Rattle.sql_rows_meaning.specs.Tables.{Relations};
ghost use Rattle.sql_rows_meaning.specs.Rows.{body_relation};
ghost use Rattle.sql_gen_step_laws.specs.Carried.{Name, Ids, Numbers, Carries, Binds, select_table};
ghost use Rattle.sql_gen_step_laws.specs.StepSelects.{join_core, both, union_body};

/// A join of two steps carries the join of what they carry. Variables that both sides are certain to bind are joined by
/// plain equality; the others also where a side is null.
// For the compiler's step of a Join.
pub fn join_steps()
    ensures { (ids : Ids) (known : RdfTerm → Bool) → Numbers ids known → (relations : Relations) (a b : Name) (vs ws : List ℕ) (certain : List ℕ) (ls rs : List Mapping) →
        Carries ids known vs ls (relations a) → Carries ids known ws rs (relations b) → AllByRecursion (Binds certain) ls → AllByRecursion (Binds certain) rs →
        Carries ids known (both vs ws) (join ls rs) (select_table relations (join_core false a b vs ws certain)) }
{}

/// A LEFT JOIN of two steps carries the optional join of what they carry.
// For the compiler's step of a LeftJoin without a condition.
pub fn left_join_steps()
    ensures { (ids : Ids) (known : RdfTerm → Bool) → Numbers ids known → (relations : Relations) (a b : Name) (vs ws : List ℕ) (certain : List ℕ) (ls rs : List Mapping) →
        Carries ids known vs ls (relations a) → Carries ids known ws rs (relations b) → AllByRecursion (Binds certain) ls → AllByRecursion (Binds certain) rs →
        Carries ids known (both vs ws) (left_join (λ m. true) ls rs) (select_table relations (join_core true a b vs ws certain)) }
{}

/// A UNION ALL of two steps carries both lists.
// For the compiler's step of a Union.
pub fn union_steps()
    ensures { (ids : Ids) (known : RdfTerm → Bool) (relations : Relations) (a b : Name) (vs ws : List ℕ) (ls rs : List Mapping) →
        Carries ids known vs ls (relations a) → Carries ids known ws rs (relations b) →
        Carries ids known (both vs ws) (ls ++ rs) (body_relation relations (union_body a b vs ws)) }
{}
