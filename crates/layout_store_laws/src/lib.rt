//! Laws of stores: what a store is and holds after a triple was put in, taken out or refused.
#![tactic(auto)]

ghost use Rattle.std.specs.Prelude.{◌≡◌, ◌∷◌, true, false, if◌then◌else◌};
ghost use Rattle.bags.specs.Bag.{SameBag};
ghost use Rattle.rdf_meaning.specs.Terms.{RdfTriple};
ghost use Rattle.layout_standing_meaning.specs.Dictionary.{IsTriple};
ghost use Rattle.layout_standing_meaning.specs.Stored.{StoreOf, IsStore, stored_triples};
ghost use Rattle.layout_standing_meaning.specs.Changes.{is_stored, stored_in, taken_out, IsRefused};
ghost use Rattle.layout_store_laws.specs.ListIds.{UseOneAtMost};

/// Putting a triple into a store gives a store, which holds the triple once and what was held before.
pub fn stored()
    ensures store { (s : StoreOf) (t : RdfTriple) → IsStore s → IsTriple t → IsStore (stored_in s t) }
    ensures triples { (s : StoreOf) (t : RdfTriple) → IsStore s → IsTriple t → SameBag (stored_triples (stored_in s t)) (if is_stored s t then stored_triples s else t ∷ stored_triples s) }
{}

/// Taking a triple out of a store gives a store, which holds what was held before but for the triple.
pub fn taken()
    ensures store { (s : StoreOf) (t : RdfTriple) → IsStore s → IsStore (taken_out s t) }
    ensures triples { (s : StoreOf) (t : RdfTriple) → IsStore s → SameBag (if is_stored s t then t ∷ stored_triples (taken_out s t) else stored_triples (taken_out s t)) (stored_triples s) }
{}

/// A store that refused a triple is a store, and holds what it held.
pub fn refused()
    ensures store { (s : StoreOf) (t : RdfTriple) (new : StoreOf) → IsStore s → IsTriple t → IsRefused s t new → IsStore new }
    ensures triples { (s : StoreOf) (t : RdfTriple) (new : StoreOf) → IsStore s → IsTriple t → IsRefused s t new → stored_triples new ≡ stored_triples s }
{}

/// Putting in a triple that is stored changes nothing, and neither does taking out one that isn't.
pub fn unchanged()
    ensures there { (s : StoreOf) (t : RdfTriple) → IsStore s → IsTriple t → is_stored s t ≡ true → stored_in s t ≡ s }
    ensures absent { (s : StoreOf) (t : RdfTriple) → IsStore s → is_stored s t ≡ false → taken_out s t ≡ s }
{}

/// Putting in a triple uses at most one list id of each side, taking one out uses none, and so does a refusal but that
/// it may use one of the direct side: of any store.
pub fn list_ids()
    ensures stored { (s : StoreOf) (t : RdfTriple) → UseOneAtMost s (stored_in s t) }
    ensures taken { (s : StoreOf) (t : RdfTriple) → ((taken_out s t).direct.state.next ≡ s.direct.state.next) × ((taken_out s t).reverse.state.next ≡ s.reverse.state.next) }
    ensures refused { (s : StoreOf) (t : RdfTriple) (new : StoreOf) → IsRefused s t new → UseOneAtMost s new × (new.reverse.state.next ≡ s.reverse.state.next) }
{}
