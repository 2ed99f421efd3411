//! Laws of a star in numbers: what its steps hold is every choice of values of the side's items.
#![tactic(auto)]

ghost use Rattle.std.specs.Prelude.{ℕ, ◌∷◌, ◌++◌, Bool, List, map, length};
ghost use Rattle.std.specs.List.{flat_map, AllByRecursion};
ghost use Rattle.bags.specs.Bag.{SameBag};
ghost use Rattle.layout_meaning.specs.Columns.{ColumnsOf};
ghost use Rattle.layout_standing_meaning.specs.Dictionary.{Entry};
ghost use Rattle.layout_standing_meaning.specs.Contents.{SideContents, said};
ghost use Rattle.layout_standing_meaning.specs.Standing.{SideStands};
ghost use Rattle.sql_gen_star_meaning.specs.declared.arm.Asked.{Asked};
ghost use Rattle.sql_gen_star_meaning.specs.Asked.{IsRequired, IsPredicate};
ghost use Rattle.sql_gen_star_meaning.specs.Partials.{Partial, AccessArm, access_partials, all_pairs, open_arm};
ghost use Rattle.sql_gen_star_meaning.specs.declared.arm.StarArm.{StarArm};
ghost use Rattle.sql_gen_star_meaning.specs.Openings.{openings_from, access_arms, AccessHas, open_all, item_numbers, pair_numbers, ArmFinds, AreReadable};

/// Over a side that stands, a star's steps hold, for each item of the first arm, every choice of its entity's values for
/// the other arms. Several arms are read from the rows of number 0, and one arm from all rows. The access step may have
/// other arms before and behind them.
pub fn arms_hold_choices()
    ensures { (columns : ColumnsOf) (es : List Entry) (s : SideContents) → SideStands columns es s → (first : Bool) (entity : Asked) (a : StarArm) (arms : List StarArm) → IsRequired a.asked →
        AreReadable s first a arms → AllByRecursion (ArmFinds s) (a ∷ arms) → (access : ℕ → AccessArm) (i : ℕ) → AccessHas access i (a ∷ arms) →
        SameBag (map (λ (p : Partial). p.numbers) (open_all s.lists (openings_from i (a ∷ arms)) (access_partials first entity access s.rows))) (flat_map (item_numbers s entity a arms) (said s)) }
{}

/// With a variable predicate they hold each item that agrees.
pub fn pairs_hold_items()
    ensures { (s : SideContents) (entity predicate a : Asked) → IsPredicate entity predicate →
        SameBag (map (λ (p : Partial). p.numbers) (flat_map (open_arm s.lists 0 a) (all_pairs entity predicate s.rows))) (flat_map (pair_numbers entity predicate a) (said s)) }
{}

/// An access step of a list of arms has each part of the list, from the number of the arms before it on.
// For the two lists of an Either star.
pub fn parts_are_had()
    ensures { (before arms after : List StarArm) → AccessHas (access_arms (before ++ (arms ++ after))) (length before) arms }
{}
