//! Laws of one side of the tables: a side stands for its set of items, and a change moves no other item's pair. The functions
//! without a body are laws of these definitions.
#![tactic(auto)]

ghost use Rattle.std.specs.Prelude.{◌≡◌, ◌≢◌, ◌≤◌, ℕ, true, false, if◌then◌else◌, List, [], ◌∷◌, ◌++◌, Some, length, nat_eq};
ghost use Rattle.std.specs.List.{list_any, IsDistinct};
ghost use Rattle.std.specs.Set.{remove_key};
ghost use Rattle.bags.specs.Bag.{SameBag};
ghost use Rattle.layout_meaning.specs.declared.value.Value.TheVariants.{One};
ghost use Rattle.layout_meaning.specs.Columns.{candidates_of};
ghost use Rattle.layout_meaning.specs.Side.{Item, items, is_held, held, rows_of};
ghost use Rattle.layout_meaning.specs.Rows.{SideOf, KeepsToNames, name_in, placed_in, taken_from};
ghost use Rattle.layout_standing_meaning.specs.Sides.{IsGoodSide};
ghost use Rattle.layout_side_laws.specs.Places.{same_item, with_next, OthersStay, rows_but, StandsFirst};

/// A side has each item once, and holds an item exactly where it is among the items.
pub fn items_stand_once()
    ensures once { (s : SideOf) → IsGoodSide s → IsDistinct same_item (items s.state) }
    ensures held { (s : SideOf) → IsGoodSide s → (x : Item) → is_held x s.state ≡ list_any (same_item x) (items s.state) }
{}

/// A side after an item was placed is a side, and has its items and this one. Placing what is held changes nothing. Predicates
/// stay in the candidates of their IRIs.
pub fn placed()
    ensures side { (s : SideOf) (iri : List ℕ) (x : Item) → IsGoodSide s → IsGoodSide (placed_in s iri x) }
    ensures items { (s : SideOf) (iri : List ℕ) (x : Item) → IsGoodSide s → SameBag (items (placed_in s iri x).state) (if is_held x s.state then items s.state else x ∷ items s.state) }
    ensures there { (s : SideOf) (iri : List ℕ) (x : Item) → is_held x s.state ≡ true → placed_in s iri x ≡ s }
    ensures columns { (names : List (ℕ × List ℕ)) (s : SideOf) (iri : List ℕ) (x : Item) → IsGoodSide s → KeepsToNames names s → name_in names x.pred ≡ Some iri → KeepsToNames names (placed_in s iri x) }
{}

/// A side after an item was taken out is a side, and has its items but for this one. Taking out what isn't held changes nothing.
/// Predicates stay in the candidates of their IRIs.
pub fn taken()
    ensures side { (s : SideOf) (x : Item) → IsGoodSide s → IsGoodSide (taken_from s x) }
    ensures items { (s : SideOf) (x : Item) → IsGoodSide s → SameBag (if is_held x s.state then x ∷ items (taken_from s x).state else items (taken_from s x).state) (items s.state) }
    ensures absent { (s : SideOf) (x : Item) → is_held x s.state ≡ false → taken_from s x ≡ s }
    ensures columns { (names : List (ℕ × List ℕ)) (s : SideOf) (x : Item) → KeepsToNames names s → KeepsToNames names (taken_from s x) }
{}

/// Placing an item that isn't held and taking it out again gives the side as it was, but for the number of the next list.
pub fn taken_back()
    ensures { (s : SideOf) (iri : List ℕ) (x : Item) → IsGoodSide s → is_held x s.state ≡ false → taken_from (placed_in s iri x) x ≡ with_next s (placed_in s iri x).state.next }
{}

/// A new pair comes into the row of least number that has a free candidate, at the first free candidate; where no row has one,
/// into a new last row at the first candidate.
pub fn new_pairs_stand_first()
    ensures { (s : SideOf) (iri : List ℕ) (x : Item) → IsGoodSide s → held s.state x.entity x.pred ≡ [] →
        StandsFirst (candidates_of s.columns iri) (rows_of s.state.entities x.entity) (rows_of (placed_in s iri x).state.entities x.entity) (record { pred = x.pred; value = One x.value }) }
{}

/// Placing an item moves no other pair: other entities have the rows that they had, and the pairs of other predicates stay in
/// their rows and columns.
pub fn placing_moves_no_other()
    ensures entities { (s : SideOf) (iri : List ℕ) (x : Item) (e : ℕ) → e ≢ x.entity → rows_of (placed_in s iri x).state.entities e ≡ rows_of s.state.entities e }
    ensures pairs { (s : SideOf) (iri : List ℕ) (x : Item) → IsGoodSide s → OthersStay x.pred (rows_of s.state.entities x.entity) (rows_of (placed_in s iri x).state.entities x.entity) }
{}

/// Taking out an item moves no other pair, but that a row which became free is dropped and the later rows move up: other entities
/// have the rows that they had; where the entity has further values under the predicate, the pairs of other predicates stay in
/// their rows and columns; where it was the only value, the rows are as they were without its pair.
pub fn taking_moves_no_other()
    ensures entities { (s : SideOf) (x : Item) (e : ℕ) → e ≢ x.entity → rows_of (taken_from s x).state.entities e ≡ rows_of s.state.entities e }
    ensures further { (s : SideOf) (x : Item) → IsGoodSide s → 2 ≤ length (held s.state x.entity x.pred) → OthersStay x.pred (rows_of s.state.entities x.entity) (rows_of (taken_from s x).state.entities x.entity) }
    ensures only { (s : SideOf) (x : Item) → IsGoodSide s → held s.state x.entity x.pred ≡ x.value ∷ [] → rows_of (taken_from s x).state.entities x.entity ≡ rows_but x.pred (rows_of s.state.entities x.entity) }
{}

/// Placing an item that isn't held puts its value behind those that its entity has under the predicate, and taking it out leaves
/// the others in their order.
pub fn values_keep_their_order()
    ensures placed { (s : SideOf) (iri : List ℕ) (x : Item) → IsGoodSide s → is_held x s.state ≡ false → held (placed_in s iri x).state x.entity x.pred ≡ held s.state x.entity x.pred ++ x.value ∷ [] }
    ensures taken { (s : SideOf) (x : Item) → IsGoodSide s → is_held x s.state ≡ true → held (taken_from s x).state x.entity x.pred ≡ remove_key (nat_eq x.value) (held s.state x.entity x.pred) }
{}
