//! What is counted of triples: how many there are, how many subjects and objects, and how many have a given
//! term. The function without a body is a law of these definitions.
#![tactic(auto)]

ghost use Rattle.std.specs.Prelude.{◌≡◌, List};
ghost use Rattle.bags.specs.Bag.{SameBag};
ghost use Rattle.rdf_meaning.specs.Terms.{RdfTerm, RdfTriple};
ghost use Rattle.layout_counts_meaning.specs.Counts.{counts_over};

/// The order of triples changes no count.
pub fn same_counts()
    ensures { (g h : List RdfTriple) (terms : List RdfTerm) → SameBag g h → counts_over g terms ≡ counts_over h terms }
{}
