//! The law of integers: those within the width have their number as value.
#![tactic(auto)]

ghost use Rattle.std.specs.Prelude.{◌≡◌, ℤ, pos, ◌*ℤ◌, ◌^◌, ◌<◌, unsigned_abs, Some};
ghost use Rattle.rdf_meaning.specs.declared.text.KnownDatatype.TheVariants.{Integer};
ghost use Rattle.rdf_meaning.specs.Known.{known_bytes};
ghost use Rattle.rdf_meaning.specs.Terms.{typed};
ghost use Rattle.rdf_value_meaning.specs.Values.{class_of, value_of};
ghost use Rattle.std.specs.Fmt.{signed_decimal};

/// The decimal text of a whole number within 18 digits, as an `xsd:integer`, has class 3, and its
/// value is the number, in units of 10^-9.
pub fn integers_have_values()
    ensures class { (n : ℤ) → unsigned_abs n < 10 ^ 18 → class_of (typed (signed_decimal n) (known_bytes Integer)) ≡ 3 }
    ensures value { (n : ℤ) → unsigned_abs n < 10 ^ 18 → value_of (typed (signed_decimal n) (known_bytes Integer)) ≡ Some (n *ℤ pos (10 ^ 9)) }
{}
