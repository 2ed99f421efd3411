//! Laws of merged stars: each rule of merging keeps the solutions.

ghost use Rattle.std.specs.Prelude.{◌≡◌, ◌<◌, ℕ, List, [], ◌∷◌, ◌++◌, true, false};
ghost use Rattle.std.specs.List.{list_all, IsDistinct};
ghost use Rattle.bags.specs.Bag.{SameBag};
ghost use Rattle.rdf_meaning.specs.Terms.{RdfTerm, RdfTriple, same_triple, is_empty};
ghost use Rattle.rdf_meaning.specs.declared.side.SideName.{SideName};
ghost use Rattle.query_meaning.specs.declared.pattern.Slot.{Slot};
ghost use Rattle.query_eval_meaning.specs.Mapping.{width};
ghost use Rattle.query_eval_meaning.specs.Eval.{join, left_join};
ghost use Rattle.query_plan_meaning.specs.declared.star.Arm.{Arm};
ghost use Rattle.query_plan_meaning.specs.declared.star.Star.{Star};
ghost use Rattle.query_plan_meaning.specs.declared.star.StarBody.TheVariants.{Either};
ghost use Rattle.query_plan_meaning.specs.Stars.{star_sols, stars_leaf, star_in_width, stars_variables};
ghost use Rattle.query_plan_meaning.specs.Merged.{both, one_arm};

/// A star may stand first in its leaf.
// For a star that is merged from any place of its leaf.
pub fn stars_stand_first()
    ensures { (g : List RdfTriple) (before : List Star) (star : Star) (after : List Star) → list_all star_in_width before ≡ true → star_in_width star ≡ true →
        SameBag (stars_leaf g (before ++ star ∷ after)) (join (star_sols g star) (stars_leaf g (before ++ after))) }
{}

/// Two stars of one entity are one, with the arms of both, at the first one's place.
// For the stars of a leaf.
pub fn required_arms_merge()
    ensures { (g : List RdfTriple) → IsDistinct same_triple g → (x : Slot) (side : SideName) (first second : List Arm) (before between after : List Star) →
        is_empty first ≡ false → is_empty second ≡ false →
        list_all star_in_width (before ++ both x side first [] ∷ (between ++ both x side second [] ∷ after)) ≡ true →
        SameBag (stars_leaf g (before ++ both x side first [] ∷ (between ++ both x side second [] ∷ after)))
        (stars_leaf g (before ++ both x side (first ++ second) [] ∷ (between ++ after))) }
{}

/// An optional part of one arm becomes an optional arm of the star of its entity, where the arm's value is a variable
/// that stands nowhere in the rest of the leaf.
// For an OPTIONAL without a condition.
pub fn optional_arms_merge()
    ensures { (g : List RdfTriple) → IsDistinct same_triple g → (x : Slot) (side : SideName) (required optional : List Arm) (number : ℕ) (pred : RdfTerm) (v : ℕ)
        (before after : List Star) → is_empty required ≡ false →
        list_all star_in_width (before ++ both x side required optional ∷ after) ≡ true → v < width → stars_variables (before ++ after) v ≡ false →
        SameBag (left_join (λ m. true) (stars_leaf g (before ++ both x side required optional ∷ after)) (stars_leaf g (both x side (one_arm number pred v ∷ []) [] ∷ [])))
        (stars_leaf g (before ++ both x side required (optional ++ one_arm number pred v ∷ []) ∷ after)) }
{}

/// The two sides of a union of two stars of one entity are one Either star.
// For a UNION.
pub fn unions_merge()
    ensures { (g : List RdfTriple) (x : Slot) (side : SideName) (left right : List Arm) →
        SameBag (stars_leaf g (both x side left [] ∷ []) ++ stars_leaf g (both x side right [] ∷ []))
        (stars_leaf g (record { entity = x; side = side; body = Either left right } ∷ [])) }
{}
