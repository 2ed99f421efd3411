//! Laws of leaves.

ghost use Rattle.std.specs.Prelude.{◌≡◌, List, [], ◌∷◌, ◌++◌, true};
ghost use Rattle.std.specs.List.{flat_map, IsDistinct};
ghost use Rattle.bags.specs.Bag.{SameBag};
ghost use Rattle.rdf_meaning.specs.Terms.{RdfTriple, same_triple};
ghost use Rattle.query_meaning.specs.declared.pattern.Pattern.{Pattern};
ghost use Rattle.query_eval_meaning.specs.Mapping.{nothing};
ghost use Rattle.query_eval_meaning.specs.Leaf.{leaf, matches};
ghost use Rattle.query_eval_meaning.specs.Width.{pattern_in_width};
ghost use Rattle.query_eval_meaning.specs.Eval.{join};

/// Over distinct triples the solutions of one pattern are what each triple binds.
// For the first program, which looks at one triple after another, and for each arm of a star.
pub fn leaf_of_one()
    ensures { (p : Pattern) (g : List RdfTriple) → IsDistinct same_triple g → pattern_in_width p ≡ true → SameBag (leaf (p ∷ []) g) (flat_map (matches p) g) }
{}

/// A leaf of two lists of patterns is the join of their leaves.
// For the stars of a leaf, which are planned in any order and grouping, and for merging them.
pub fn leaves_join()
    ensures { (ps qs : List Pattern) (g : List RdfTriple) → SameBag (leaf (ps ++ qs) g) (join (leaf ps g) (leaf qs g)) }
{}

/// A leaf of no patterns has one empty mapping.
// For the SQL of an empty group.
pub fn empty_leaf()
    ensures { (g : List RdfTriple) → leaf [] g ≡ nothing ∷ [] }
{}

/// Patterns in another order have the same solutions, one for one.
// For the order in which a leaf's patterns are planned.
pub fn patterns_in_any_order()
    ensures { (ps qs : List Pattern) (g : List RdfTriple) → SameBag ps qs → leaf ps g ≡ leaf qs g }
{}
