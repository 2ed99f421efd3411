//! The last SELECT, and the step before it that takes DISTINCT.

ghost use Rattle.std.specs.Prelude.{◌≡◌, ◌<◌, ℕ, Bool, true, List, Some};
ghost use Rattle.std.specs.List.{AllByRecursion};
ghost use Rattle.rdf_meaning.specs.Terms.{RdfTerm, is_term};
ghost use Rattle.query_meaning.specs.declared.modifiers.Modifiers.{Modifiers};
ghost use Rattle.query_eval_meaning.specs.Mapping.{Mapping, width};
ghost use Rattle.query_eval_meaning.specs.Answer.{ordered_answer};
ghost use Rattle.sql_rows_meaning.specs.Tables.{Relations};
ghost use Rattle.sql_rows_meaning.specs.Selects.{select_rows};
ghost use Rattle.sql_gen_answer_meaning.specs.Decode.{decode};
ghost use Rattle.sql_gen_step_laws.specs.Carried.{Name, Ids, Numbers, Carries, select_table};
ghost use Rattle.sql_gen_term_laws.specs.TermTable.{HasTerms};
ghost use Rattle.sql_gen_last_laws.specs.LastSelect.{last_core};
ghost use Rattle.sql_gen_last_laws.specs.DistinctSelect.{distinct_core, distinct_parts, is_distinct_first, repeated};

/// Over a step that carries the solutions, the rows of the last SELECT are read as the ordered answer, whichever
/// variables are taken for certain in its keys.
// For the last body of a compiled query, whose rows are the query's answer.
pub fn last_rows()
    ensures { (ids : Ids) (known : RdfTerm → Bool) (relations : Relations) (a terms : Name) → HasTerms ids known (relations terms) → ((t : RdfTerm) → known t ≡ true → is_term t.kind t.text t.aux ≡ true) →
        (vs certain : List ℕ) (ms : List Mapping) → Carries ids known vs ms (relations a) → (q : Modifiers) → decode (select_rows relations (last_core a terms vs certain q)) ≡ Some (ordered_answer q ms) }
{}

/// A SELECT DISTINCT over the numbers of some variables carries the parts of the solutions that differ there.
// For the step before the last SELECT, where DISTINCT is asked and each key is shown.
pub fn distinct_steps()
    ensures { (ids : Ids) (known : RdfTerm → Bool) → Numbers ids known → (relations : Relations) (a : Name) (vs us : List ℕ) (ms : List Mapping) → Carries ids known vs ms (relations a) → AllByRecursion (λ v. v < width) us →
        Carries ids known us (distinct_parts us ms) (select_table relations (distinct_core a vs us)) }
{}

/// Where DISTINCT is asked and each key is shown, the answer is that of the different shown parts without DISTINCT.
// For the last SELECT over such a step.
pub fn distinct_answers()
    ensures { (q : Modifiers) (ms : List Mapping) → is_distinct_first q ≡ true → ordered_answer (repeated q) (distinct_parts q.shown ms) ≡ ordered_answer q ms }
{}
