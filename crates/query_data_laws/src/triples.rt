//! Triples as a set.

ghost use Rattle.std.specs.Prelude.{◌≡◌, List};
ghost use Rattle.bags.specs.Bag.{SameBag};
ghost use Rattle.rdf_meaning.specs.Terms.{RdfTriple};
ghost use Rattle.query_meaning.specs.declared.pattern.Pattern.{Pattern};
ghost use Rattle.query_meaning.specs.declared.query.Query.{Query};
ghost use Rattle.query_meaning.specs.declared.tree.Tree.{Tree};
ghost use Rattle.query_eval_meaning.specs.Eval.{solutions, answer_of};
ghost use Rattle.query_data_laws.specs.SameTriples.{HasSameTriples};

/// Lists with the same triples have the same solutions.
// For triples that are read back from tables, in another order than they came.
pub fn solutions_rest_on_the_set()
    ensures { (tree : Tree (List Pattern)) (g h : List RdfTriple) → HasSameTriples g h → SameBag (solutions tree g) (solutions tree h) }
{}

/// And so one answer.
// For the program, which may keep its triples in any order.
pub fn answers_rest_on_the_set()
    ensures { (q : Query) (g h : List RdfTriple) → HasSameTriples g h → answer_of q g ≡ answer_of q h }
{}
