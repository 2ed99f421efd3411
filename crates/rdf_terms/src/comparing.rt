//! The order of terms.

ghost use Rattle.std.specs.Prelude.{◌≡◌, option_copied};
ghost use Rattle.std.specs.Ordering.{int_cmp};
ghost use Rattle.std.specs.Option.{option_cmp};
ghost use Rattle.rdf_value_meaning.specs.TermOrder.{place_order, term_order};

use crate::value::rank_of;
use rdf_meaning::Term;
use std::cmp::Ordering;

/// The order of two values, with no value before every value.
pub fn order_of_values(a: Option<i128>, b: Option<i128>) -> Ordering
    ensures { result ≡ option_cmp int_cmp a b }
{
    match (a, b) {
        (None, None) => Ordering::Equal,
        (None, Some(_)) => Ordering::Less,
        (Some(_), None) => Ordering::Greater,
        (Some(x), Some(y)) => x.cmp(&y),
    }
}

/// The total order of terms: by class, then value, then the bytes of the text, then those of the
/// tag or datatype.
pub fn order(a: &Term, b: &Term) -> Ordering
    ensures { result ≡ term_order a.now b.now }
{
    let (first_class, first_value) = rank_of(a);
    let (second_class, second_value) = rank_of(b);
    first_class
        .cmp(&second_class)
        .then(order_of_values(first_value, second_value))
        .then_with(|| a.text.bytes().cmp(b.text.bytes()))
        .then_with(|| a.aux.bytes().cmp(b.aux.bytes()))
}

/// The order of two places of a row: an unbound one before every term, and terms by `order`.
pub fn order_places(a: Option<&Term>, b: Option<&Term>) -> Ordering
    ensures { result ≡ place_order (option_copied a.entry) (option_copied b.entry) }
{
    match (a, b) {
        (None, None) => Ordering::Equal,
        (None, Some(_)) => Ordering::Less,
        (Some(_), None) => Ordering::Greater,
        (Some(x), Some(y)) => order(x, y),
    }
}
