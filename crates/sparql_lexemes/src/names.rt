//! The names of a query's variables.

ghost use Rattle.std.specs.Prelude.{◌≡◌, [], length, OnOk, IfOk};
ghost use Rattle.sparql_query_meaning.specs.Lexemes.{with_name, place_of, variable_number};

use indexmap::IndexSet;
use query_meaning::VarId;
use rdf_meaning::Text;
use sqlite_items::Items;
use std::alloc::{AllocError, Global};
use std::marker::Model;

/// The names of variables, each once, in order of their first places.
#[derive(Drop)]
pub struct Names {
    names: IndexSet<Text>,
}

impl Model for Names {
    ghost use Rattle.std.specs.Prelude.{List, ℕ};

    ghost Value = { List (List ℕ) };

    ghost view = { λ n. n.names.keys };
}

impl Names {
    pub fn new(alloc: Global) -> Names
        ensures { result ≡ [] }
    {
        Names {
            names: IndexSet::new(alloc),
        }
    }

    pub fn count(&self) -> usize
        ensures { result ≡ length self.now }
    {
        self.names.len()
    }

    /// Puts a name last, unless it is there.
    pub fn note(&mut self, alloc: Global, name: &Text) -> Result<(), AllocError>
        ensures { OnOk result (self.new ≡ with_name self.old name.now) }
    {
        if self.names.contains(name) {
            return Ok(());
        }
        let copy = name.copy(alloc)?;
        self.names.insert(copy)?;
        Ok(())
    }

    // How many names stand before this one; all of them where it isn't there.
    fn place(&self, name: &Text) -> usize
        ensures { result ≡ place_of self.now name.now }
    {
        match self.names.get_index_of(name) {
            Some(at) => at,
            None => self.names.len(),
        }
    }

    /// The number of the variable with this name; 0 where it would be too great.
    pub fn number(&self, name: &Text) -> VarId
        ensures { result ≡ variable_number self.now name.now }
    {
        let place = self.place(name);
        if place < 64 {
            VarId::new(place as u32)
        } else {
            VarId::new(0)
        }
    }

    /// Copies of the names.
    pub fn texts(&self, alloc: Global) -> Result<Items<Text>, AllocError>
        ensures { IfOk result (λ names. names ≡ self.now) }
    {
        let mut texts = Items::new(alloc);
        for at in 0..self.names.len() {
            let name = self.names.get_index(at).unwrap();
            let copy = name.copy(alloc)?;
            texts.push(copy)?;
        }
        Ok(texts)
    }
}
