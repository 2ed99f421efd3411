//! What the tokens before a place declare.

ghost use Rattle.std.specs.Prelude.{◌≡◌, [], List, OnOk, IfOk};
ghost use Rattle.sparql_query_meaning.specs.Prefixes.{Declared, nothing, declaring, declared};
ghost use Rattle.sparql_query_meaning.specs.Lexemes.{named_by};
ghost use Rattle.sparql_lexemes.specs.Scopes.{StandFor};
ghost use Rattle.sparql_lexemes.specs.Declarings.{declaring_of};

use crate::names::Names;
use crate::prefixes::Prefixes;
use rdf_meaning::Text;
use sparql_meaning::{TokenKind, Word};
use std::alloc::{AllocError, Global};

/// What of a declaration was read.
#[derive(Debug, Drop)]
pub enum Declaring {
    Nothing,
    /// The word alone.
    Begun,
    /// The word and the prefix.
    Named(Text),
}

/// The prefixes and the variables of the tokens before a place.
#[derive(Drop)]
pub struct Scope {
    pub declaring: Declaring,
    pub prefixes: Prefixes,
    pub names: Names,
}

// What of a declaration was read behind this token.
fn declaring_behind(
    alloc: Global,
    before: &Declaring,
    kind: &TokenKind,
) -> Result<Declaring, AllocError>
    ensures { IfOk result (λ x. declaring_of x ≡ declaring (declaring_of before.now) kind.now) }
{
    match (before, kind) {
        (Declaring::Nothing, TokenKind::Word(Word::Prefix)) => Ok(Declaring::Begun),
        (Declaring::Begun, TokenKind::Named(prefix, local)) => {
            if local.bytes().is_empty() {
                Ok(Declaring::Named(prefix.copy(alloc)?))
            } else {
                Ok(Declaring::Nothing)
            }
        }
        _ => Ok(Declaring::Nothing),
    }
}

// An IRI ends a declaration.
fn declare(
    alloc: Global,
    prefixes: &mut Prefixes,
    before: &Declaring,
    kind: &TokenKind,
) -> Result<(), AllocError>
    ensures { OnOk result ((ds : List Declared) → StandFor prefixes.old ds → StandFor prefixes.new (declared (declaring_of before.now) kind.now ds)) }
{
    match (before, kind) {
        (Declaring::Named(prefix), TokenKind::Iri(iri)) => {
            let prefix = prefix.copy(alloc)?;
            let iri = iri.copy(alloc)?;
            prefixes.declare(prefix, iri)
        }
        _ => Ok(()),
    }
}

impl Scope {
    /// Before the first token.
    pub fn new(alloc: Global) -> Scope
        ensures declaring { declaring_of result.declaring ≡ nothing }
        ensures prefixes { StandFor result.prefixes [] }
        ensures names { result.names ≡ [] }
    {
        Scope {
            declaring: Declaring::Nothing,
            prefixes: Prefixes::new(alloc),
            names: Names::new(alloc),
        }
    }

    /// Notes the variable that the token is, if it is one.
    pub fn note(&mut self, alloc: Global, kind: &TokenKind) -> Result<(), AllocError>
        ensures names { OnOk result (self.new.names ≡ named_by self.old.names kind.now) }
        ensures declaring { self.new.declaring ≡ self.old.declaring }
        ensures prefixes { self.new.prefixes ≡ self.old.prefixes }
    {
        if let TokenKind::Variable(name) = kind {
            self.names.note(alloc, name)?;
        }
        Ok(())
    }

    /// Goes behind a token: a declaration counts from its IRI on.
    pub fn pass(&mut self, alloc: Global, kind: &TokenKind) -> Result<(), AllocError>
        ensures declaring { OnOk result (declaring_of self.new.declaring ≡ declaring (declaring_of self.old.declaring) kind.now) }
        ensures prefixes { OnOk result ((ds : List Declared) → StandFor self.old.prefixes ds → StandFor self.new.prefixes (declared (declaring_of self.old.declaring) kind.now ds)) }
        ensures names { self.new.names ≡ self.old.names }
    {
        let next = declaring_behind(alloc, &self.declaring, kind)?;
        declare(alloc, &mut self.prefixes, &self.declaring, kind)?;
        self.declaring = next;
        Ok(())
    }
}
