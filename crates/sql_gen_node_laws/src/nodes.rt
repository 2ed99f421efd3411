//! Outs of the kinds of nodes.

ghost use Rattle.std.specs.Prelude.{◌≡◌, ℕ, ◌+◌, true, false, List, [], ◌++◌, Some, None};
ghost use Rattle.std.specs.List.{list_all};
ghost use Rattle.query_meaning.specs.declared.expression.TruthExpr.{TruthExpr};
ghost use Rattle.query_meaning.specs.declared.tree.Tree.{Tree};
ghost use Rattle.query_meaning.specs.declared.tree.Tree.TheVariants as trees;
ghost use Rattle.query_plan_meaning.specs.declared.star.Star.{Star};
ghost use Rattle.query_plan_meaning.specs.Stars.{star_in_width};
ghost use Rattle.sql_meaning.specs.declared.expression.SqlExpr.{SqlExpr};
ghost use Rattle.layout_meaning.specs.Facts.{FactsOf, IdOf};
ghost use Rattle.sql_gen_out_laws.specs.Outs.{Out, StandsForNode};
ghost use Rattle.sql_gen_node_laws.specs.Nodes.{IsCondition, empty_out, joined_out, optional_out, united_out, filtered_out, conditional_out};

/// Where the outs of both sides stand, that of a Join does.
pub fn joins_stand()
    ensures { (facts : FactsOf) (ids : List IdOf) (a b : Tree (List Star)) (x y : Out) (p q : ℕ) →
        StandsForNode facts ids a p x → StandsForNode facts ids b q y → StandsForNode facts ids (trees.Join a b) (p + q + 0) (joined_out x y) }
{}

/// So does that of a LeftJoin without a condition.
pub fn optional_joins_stand()
    ensures { (facts : FactsOf) (ids : List IdOf) (a b : Tree (List Star)) (x y : Out) (p q : ℕ) →
        StandsForNode facts ids a p x → StandsForNode facts ids b q y → StandsForNode facts ids (trees.LeftJoin a b None) (p + q + 0) (optional_out x y) }
{}

/// So does that of a Union.
pub fn unions_stand()
    ensures { (facts : FactsOf) (ids : List IdOf) (a b : Tree (List Star)) (x y : Out) (p q : ℕ) →
        StandsForNode facts ids a p x → StandsForNode facts ids b q y → StandsForNode facts ids (trees.Union a b) (p + q + 0) (united_out x y) }
{}

/// Where the out of the inner tree stands, that of a Filter does.
pub fn filters_stand()
    ensures { (facts : FactsOf) (ids : List IdOf) (a : Tree (List Star)) (f : TruthExpr) (x : Out) (us : List ℕ) (condition : SqlExpr) (p : ℕ) → IsCondition f us condition →
        StandsForNode facts ids a p x → StandsForNode facts ids (trees.Filter f a) (p + 0) (filtered_out x us condition) }
{}

/// The out of the empty leaf stands.
pub fn empty_leaves_stand()
    ensures { (facts : FactsOf) (ids : List IdOf) → StandsForNode facts ids (trees.Leaf []) 0 empty_out }
{}

/// So does that of a LeftJoin with a condition, in three steps.
pub fn conditional_joins_stand()
    ensures { (facts : FactsOf) (ids : List IdOf) (a b : Tree (List Star)) (f : TruthExpr) (x y : Out) (us : List ℕ) (condition : SqlExpr) (p q : ℕ) → IsCondition f us condition →
        StandsForNode facts ids a p x → StandsForNode facts ids b q y → StandsForNode facts ids (trees.LeftJoin a b (Some f)) (p + q + 0) (conditional_out x y us condition) }
{}

/// The outs of two lists of stars, joined, stand for the leaf of both lists.
pub fn leaves_join()
    ensures { (facts : FactsOf) (ids : List IdOf) (ss more : List Star) (x y : Out) (p q : ℕ) → list_all star_in_width (ss ++ more) ≡ true →
        StandsForNode facts ids (trees.Leaf ss) p x → StandsForNode facts ids (trees.Leaf more) q y → StandsForNode facts ids (trees.Leaf (ss ++ more)) (p + q + 0) (joined_out x y) }
{}
