//! Laws of order.

ghost use Rattle.std.specs.Prelude.{◌≡◌, Option, List};
ghost use Rattle.std.specs.Cmp.{IsTotalOrder};
ghost use Rattle.std.specs.declared.cmp.Ordering.TheVariants.{Equal};
ghost use Rattle.bags.specs.Bag.{SameBag};
ghost use Rattle.rdf_meaning.specs.Terms.{RdfTerm};
ghost use Rattle.rdf_value_meaning.specs.TermOrder.{term_order, place_order};
ghost use Rattle.query_meaning.specs.declared.modifiers.Key.{Key};
ghost use Rattle.query_meaning.specs.declared.modifiers.Modifiers.{Modifiers};
ghost use Rattle.query_eval_meaning.specs.Mapping.{Mapping};
ghost use Rattle.query_eval_meaning.specs.Answer.{Row, row_order, ordered_answer};

/// Terms stand in a total order, and those that tie are equal.
// For the sorts of answers and of tables.
pub fn terms_in_order()
    ensures total { IsTotalOrder term_order }
    ensures ties { (a b : RdfTerm) → term_order a b ≡ Equal → a ≡ b }
{}

/// So do the places of a row, unbound ones before terms.
// For the keys of an answer.
pub fn places_in_order()
    ensures total { IsTotalOrder place_order }
    ensures ties { (x y : Option RdfTerm) → place_order x y ≡ Equal → x ≡ y }
{}

/// So do rows, whatever the keys and their directions.
// For the sort of an answer.
pub fn rows_in_order()
    ensures total { (keys : List Key) → IsTotalOrder (row_order keys) }
    ensures ties { (keys : List Key) (a b : Row) → row_order keys a b ≡ Equal → a ≡ b }
{}

/// Equal bags of solutions give one answer.
// Wherever a step of the compiler gives the solutions as a bag.
pub fn one_order()
    ensures { (q : Modifiers) (ms ns : List Mapping) → SameBag ms ns → ordered_answer q ms ≡ ordered_answer q ns }
{}
