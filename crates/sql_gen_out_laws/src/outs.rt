//! Outs and further steps.

ghost use Rattle.std.specs.Prelude.{ℕ, ◌+◌, ◌<◌, List, length};
ghost use Rattle.std.specs.List.{AllByRecursion};
ghost use Rattle.rdf_meaning.specs.Terms.{RdfTriple};
ghost use Rattle.query_eval_meaning.specs.Mapping.{Mapping, width};
ghost use Rattle.query_eval_meaning.specs.Variables.{Variables, Binds};
ghost use Rattle.layout_meaning.specs.Facts.{FactsOf, IdOf};
ghost use Rattle.sql_gen_binding_laws.specs.StepColumns.{Once};
ghost use Rattle.sql_gen_numbered_meaning.specs.declared.numbered.NumberedBody.{NumberedBody};
ghost use Rattle.sql_gen_out_laws.specs.Outs.{Out, count, StandsOut};
ghost use Rattle.sql_gen_out_laws.specs.Further.{put_behind, before_more, Further, put_after, FurtherOne, FirstStep, first_out};

/// The steps of two outs, the second ones numbered on from the first ones', and more steps stand for what these make of the
/// solutions of both.
pub fn two_outs_stand()
    ensures { (facts : FactsOf) (ids : List IdOf) (x y : Out) (more : List NumberedBody) (n : ℕ) (us : List ℕ) (certain : Variables) (ls rs ns : List RdfTriple → List Mapping) (p q r : ℕ) →
        StandsOut facts ids ls p x → StandsOut facts ids rs q y → Further facts ids x y more n us ls rs ns r → n < before_more x y + length more → Once us → AllByRecursion (λ v. v < width) us →
        ((g : List RdfTriple) → AllByRecursion (Binds certain) (ns g)) → StandsOut facts ids ns (p + q + r) (put_behind x y more n us certain) }
{}

/// The steps of an out and more steps stand for what these make of its solutions.
pub fn further_steps_stand()
    ensures { (facts : FactsOf) (ids : List IdOf) (x : Out) (more : List NumberedBody) (n : ℕ) (us : List ℕ) (certain : Variables) (ls ns : List RdfTriple → List Mapping) (p r : ℕ) →
        StandsOut facts ids ls p x → FurtherOne facts ids x more n us ls ns r → n < count x + length more → Once us → AllByRecursion (λ v. v < width) us →
        ((g : List RdfTriple) → AllByRecursion (Binds certain) (ns g)) → StandsOut facts ids ns (p + r) (put_after x more n us certain) }
{}

/// A step over tables alone stands for what it carries.
pub fn steps_over_tables_stand()
    ensures { (facts : FactsOf) (ids : List IdOf) (b : NumberedBody) (us : List ℕ) (certain : Variables) (ns : List RdfTriple → List Mapping) (r : ℕ) →
        FirstStep facts ids b us ns r → Once us → AllByRecursion (λ v. v < width) us →
        ((g : List RdfTriple) → AllByRecursion (Binds certain) (ns g)) → StandsOut facts ids ns r (first_out b us certain) }
{}
