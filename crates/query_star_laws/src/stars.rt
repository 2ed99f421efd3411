//! Laws of stars.

ghost use Rattle.std.specs.Prelude.{◌≡◌, List, [], ◌++◌, map, true, false};
ghost use Rattle.std.specs.List.{list_all, AllByRecursion, IsDistinct};
ghost use Rattle.bags.specs.Bag.{SameBag};
ghost use Rattle.rdf_meaning.specs.Terms.{RdfTriple, same_triple, is_empty};
ghost use Rattle.rdf_meaning.specs.declared.side.SideName.{SideName};
ghost use Rattle.query_meaning.specs.declared.pattern.Slot.{Slot};
ghost use Rattle.query_eval_meaning.specs.Leaf.{leaf, terms_of};
ghost use Rattle.query_eval_meaning.specs.Width.{slot_in_width};
ghost use Rattle.query_eval_meaning.specs.Variables.{Binds, IsOver};
ghost use Rattle.query_plan_meaning.specs.declared.star.Arm.{Arm};
ghost use Rattle.query_plan_meaning.specs.declared.star.Star.{Star};
ghost use Rattle.query_plan_meaning.specs.declared.star.StarBody.TheVariants.{Either};
ghost use Rattle.query_plan_meaning.specs.Stars.{arm_pattern, both_sols, body_sols, stars_leaf, left_joins, arm_in_width, star_in_width, stars_variables, stars_certain};
ghost use Rattle.query_plan_meaning.specs.Merged.{is_required_only, all_patterns};

/// A star of required arms means the leaf of their patterns.
// For the star of one pattern, and of several that are merged.
pub fn stars_are_leaves()
    ensures { (g : List RdfTriple) → IsDistinct same_triple g → (x : Slot) (side : SideName) (required : List Arm) → is_empty required ≡ false →
        slot_in_width x ≡ true → list_all arm_in_width required ≡ true →
        SameBag (both_sols g x side required []) (leaf (map (arm_pattern x side) required) g) }
{}

/// A star with optional arms means that leaf with one OPTIONAL after another.
// For optional arms that are merged.
pub fn stars_are_left_joins()
    ensures { (g : List RdfTriple) → IsDistinct same_triple g → (x : Slot) (side : SideName) (required optional : List Arm) → is_empty required ≡ false →
        slot_in_width x ≡ true → list_all arm_in_width required ≡ true → list_all arm_in_width optional ≡ true →
        SameBag (both_sols g x side required optional) (left_joins g (leaf (map (arm_pattern x side) required) g) (map (arm_pattern x side) optional)) }
{}

/// An Either star means two leaves one after the other.
// For the two sides of a union that are merged.
pub fn either_stars_are_two_leaves()
    ensures { (g : List RdfTriple) → IsDistinct same_triple g → (x : Slot) (side : SideName) (left right : List Arm) → is_empty left ≡ false → is_empty right ≡ false →
        slot_in_width x ≡ true → list_all arm_in_width left ≡ true → list_all arm_in_width right ≡ true →
        SameBag (body_sols g x side (Either left right)) (leaf (map (arm_pattern x side) left) g ++ leaf (map (arm_pattern x side) right) g) }
{}

/// Stars of required arms alone mean together the leaf of all their patterns.
// For the plan of a query, whose leaves hold a star for each pattern.
pub fn leaves_of_stars_are_leaves()
    ensures { (g : List RdfTriple) → IsDistinct same_triple g → (stars : List Star) → list_all (λ (s : Star). is_required_only s.body) stars ≡ true →
        list_all star_in_width stars ≡ true → SameBag (stars_leaf g stars) (leaf (all_patterns stars) g) }
{}

/// Every solution of a leaf of stars binds its variables alone, to terms that stand in the triples.
// For the rows of a leaf, which hold ids of terms.
pub fn stars_stay_over()
    ensures { (g : List RdfTriple) (stars : List Star) → list_all star_in_width stars ≡ true → AllByRecursion (IsOver (stars_variables stars) (terms_of g)) (stars_leaf g stars) }
{}

/// Every solution of a leaf of stars binds its certain variables.
// For the certain variables of a plan.
pub fn stars_bind_certain()
    ensures { (g : List RdfTriple) (stars : List Star) → AllByRecursion (Binds (stars_certain stars)) (stars_leaf g stars) }
{}
