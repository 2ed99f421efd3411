//! The store.

ghost use Rattle.std.specs.Prelude.{◌≡◌, ◌≢◌, true, [], ◌∷◌, if◌then◌else◌, IfOk, IfErr, OnOk, OnErr, Ok, None, Some};
ghost use Rattle.bags.specs.Bag.{SameBag};
ghost use Rattle.value_lists.specs.Answers.{put_of};
ghost use Rattle.primary_rows.specs.Answers.{took_of};
ghost use Rattle.layout_standing_meaning.specs.Contents.{side_contents, contents_of};
ghost use Rattle.layout_standing_meaning.specs.Standing.{StandsFor};
ghost use Rattle.layout_standing_meaning.specs.Stored.{IsStore, layout_of, tables_of, stored_triples};
ghost use Rattle.layout_standing_meaning.specs.Changes.{is_stored, stored_in, taken_out, IsRefused};
ghost use Rattle.layout_stats_meaning.specs.Statistics.{AreStats, AreSideStats};
ghost use Rattle.layout_facts_meaning.specs.Facts.{AreFacts, AreIds, store_facts, store_ids};
ghost use Rattle.layout_counts_meaning.specs.Counts.{AreCounts};
ghost use Rattle.layout_tables.specs.RowOrder.{StandInOrder};
ghost use Rattle.rdf_layout.specs.Refused.{Refuses, HasRoom};
ghost use Rattle.layout_bulk_laws.specs.BulkStore.{each_once, terms_of, bulk_items, bulk_store};
ghost use Rattle.layout_columns_meaning.specs.Layouts.{IsLayoutFor};
ghost use Rattle.rdf_layout.specs.Bulk.{refusal_from};
ghost use Rattle.rdf_layout.specs.OneRow.{ColouredHaveOneRow};

use crate::bulk::sides_of;
use crate::facts::facts_of;
use crate::gathering::gather_all;
use crate::item_set::ItemSet;
use crate::refusal::StoreRefusal;
use crate::stats::{SideStats, Stats};
use crate::steps::{put, take};
use layout_choice::LayoutChoice;
use layout_counts::{counts_of, stores_count};
use layout_facts::{ids_of, stores_tell};
use layout_sides::TripleSides;
use layout_tables::{Tables, tables_of};
use pred_columns::{Counts, LayoutFacts, QueryIds};
use primary_rows::{Side, Took};
use rdf_meaning::{Term, Triple};
use std::alloc::{AllocError, Global};
use std::marker::Model;
use std::thread::Threads;
use term_book::TermBook;
use value_lists::Put;

/// A dictionary and two sides, which stand for a set of triples.
#[derive(Drop)]
pub struct Store {
    book: TermBook,
    sides: TripleSides,
}

impl Model for Store {
    ghost use Rattle.std.specs.Prelude.{length, ◌≤◌};
    ghost use Rattle.layout_list_laws.specs.InOrder.{AreInOrder};
    ghost use Rattle.layout_standing_meaning.specs.Stored.{StoreOf, IsStore};
    ghost use Rattle.layout_standing_meaning.specs.Changes.{store_of};

    ghost Value = { StoreOf };

    ghost view = { λ s. store_of s.book s.sides };

    ghost invariant = { λ s. IsStore (store_of s.book s.sides) × (length s.book ≤ 4000000) × AreInOrder s.sides };
}

/// What is counted of a side.
fn side_stats(side: &Side) -> SideStats
    ensures { AreSideStats side.now.columns (side_contents side.now.state) result }
{
    SideStats {
        columns: side.columns().count(),
        rows: side.row_count(),
        lists: side.list_count(),
        spilled: side.spilled_count(),
    }
}

impl Store {
    /// A store of these triples, of which repeats count once. The terms get their ids in order of first need.
    /// Each side has the columns that were chosen, with the colours of the triples where they are to be
    /// coloured, and places its items at once: entity by entity, with list ids from -1 downwards by rising
    /// entity, row number and column. Where the triples are coloured, an entity whose predicates all have a
    /// colour has no row but its first. The load is refused exactly where, at the first triple that is
    /// refused, 1,000,000 triples are stored and this one is new, or else where its terms would pass
    /// 4,000,000. The number of pieces changes nothing.
    pub fn load<R: Threads + Sync>(
        rt: &R,
        alloc: Global,
        triples: &[Triple],
        choice: &LayoutChoice,
        pieces: u32,
    ) -> Result<Store, StoreRefusal>
        ensures layout { IfOk result (λ s. IsLayoutFor choice.now (terms_of triples.now) (bulk_items triples.now) (layout_of s)) }
        ensures triples { IfOk result (λ s. SameBag (stored_triples s) (each_once triples.now)) }
        ensures terms { IfOk result (λ s. s.terms ≡ terms_of triples.now) }
        ensures placed { IfOk result (λ s. s ≡ bulk_store (layout_of s) triples.now) }
        ensures store { IfOk result IsStore }
        ensures one_row { IfOk result (λ s. choice.now.greedy ≡ true → ColouredHaveOneRow s) }
        ensures good { OnOk result (refusal_from [] triples.now ≡ None) }
        ensures refused { IfErr result (λ e. e ≢ StoreRefusal.NoMemory → refusal_from [] triples.now ≡ Some e) }
    {
        let mut book = TermBook::new(alloc);
        let mut found = ItemSet::new(alloc);
        gather_all(&mut book, &mut found, alloc, triples)?;
        let sides = sides_of(rt, alloc, found.as_slice(), &book, choice, pieces)?;
        Ok(Store { book, sides })
    }

    /// Stores a triple. There comes exactly where it is stored, and changes nothing. It is refused exactly
    /// where it is new and 1,000,000 triples are stored, else where its terms would pass 4,000,000, else where
    /// a side needs a list after the last list id was given out. After a refusal the rows and lists are as
    /// before; its terms may be noted, and at most one list id used up.
    pub fn insert(&mut self, alloc: Global, t: &Triple) -> Result<Put, StoreRefusal>
        ensures stored { OnOk result (self.new ≡ stored_in self.old t.now) }
        ensures put { IfOk result (λ put. put ≡ put_of (is_stored self.old t.now)) }
        ensures room { result ≡ Ok Put.Added → HasRoom self.old t.now }
        ensures refused { IfErr result (λ e. Refuses e self.old t.now) }
        ensures err { OnErr result (IsRefused self.old t.now self.new) }
        ensures triples { OnOk result (SameBag (stored_triples self.new) (if is_stored self.old t.now then stored_triples self.old else t.now ∷ stored_triples self.old)) }
        ensures same { OnErr result (stored_triples self.new ≡ stored_triples self.old) }
        ensures there { result ≡ Ok Put.There → self.new ≡ self.old }
        ensures store { IsStore self.new }
    {
        put(&mut self.book, &mut self.sides, alloc, t)
    }

    /// Takes a triple out. Absent comes exactly where it isn't stored, and changes nothing. It takes no memory.
    pub fn delete(&mut self, t: &Triple) -> Took
        ensures stored { self.new ≡ taken_out self.old t.now }
        ensures took { result ≡ took_of (is_stored self.old t.now) }
        ensures absent { result ≡ Took.Absent → self.new ≡ self.old }
        ensures triples { SameBag (if is_stored self.old t.now then t.now ∷ stored_triples self.new else stored_triples self.new) (stored_triples self.old) }
        ensures store { IsStore self.new }
    {
        take(&self.book, &mut self.sides, t)
    }

    /// The tables DPH, DS, RPH, RS and TERM, which stand for the triples that are stored, under the layout of
    /// the load. Their rows stand in one order: those of DPH and RPH by rising entity, then by rising number;
    /// those of DS and RS list by list, by falling id, each list's elements in its order; those of TERM by
    /// rising id. Memory goes with the rows, the elements of lists and the terms, whose texts are lent.
    pub fn tables(&self, alloc: Global) -> Result<Tables<'_>, AllocError>
        ensures tables { IfOk result (λ tables. tables ≡ tables_of self.now) }
        ensures stand { IfOk result (λ tables. StandsFor (layout_of self.now) tables (stored_triples self.now)) }
        ensures order { IfOk result (λ tables. StandInOrder (layout_of self.now) (contents_of self.now.direct.state self.now.reverse.state self.now.terms) tables) }
    {
        tables_of(alloc, &self.book, &self.sides)
    }

    /// The columns of both sides, and which of given predicates are spilled on each: those that some entity
    /// holds in a row numbered above 0, in the order given, each once.
    pub fn facts(&self, alloc: Global, preds: &[Term]) -> Result<LayoutFacts, AllocError>
        ensures exact { IfOk result (λ facts. facts ≡ store_facts self.now preds.now) }
        ensures told { IfOk result (λ facts. AreFacts (layout_of self.now) (tables_of self.now) (stored_triples self.now) preds.now facts) }
    {
        stores_tell();
        facts_of(alloc, &self.book, &self.sides, preds)
    }

    /// Given terms with the ids that they have in the table TERM, or 0, in the order given.
    pub fn ids(&self, alloc: Global, terms: &[Term]) -> Result<QueryIds, AllocError>
        ensures exact { IfOk result (λ ids. ids ≡ store_ids self.now terms.now) }
        ensures told { IfOk result (λ ids. AreIds (layout_of self.now) (tables_of self.now) (stored_triples self.now) terms.now ids) }
    {
        stores_tell();
        ids_of(alloc, &self.book, terms)
    }

    /// How many triples, distinct subjects and distinct objects are stored, and in how many triples each of
    /// the given terms is the subject and the object, in the order given.
    pub fn counts(&self, alloc: Global, terms: &[Term]) -> Result<Counts, AllocError>
        ensures { IfOk result (λ counts. AreCounts (layout_of self.now) (tables_of self.now) (stored_triples self.now) terms.now counts) }
    {
        stores_count();
        counts_of(alloc, &self.book, &self.sides, terms)
    }

    /// What is counted of the store's tables, without a walk of them. It takes no memory.
    pub fn stats(&self) -> Stats
        ensures { AreStats (layout_of self.now) (tables_of self.now) (stored_triples self.now) result }
    {
        Stats {
            triples: self.sides.count(),
            terms: u64::from(self.book.count()),
            direct: side_stats(self.sides.direct()),
            reverse: side_stats(self.sides.reverse()),
        }
    }
}
