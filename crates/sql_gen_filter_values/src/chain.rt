//! Chains of STR, LANG and DATATYPE over a variable or a constant.

ghost use Rattle.std.specs.Prelude.{◌≡◌, true, IfOk};
ghost use Rattle.sql_meaning.specs.declared.expression.SqlExpr.TheVariants as sql;
ghost use Rattle.query_eval_meaning.specs.Expressions.{lang_string};
ghost use Rattle.sql_gen_filter_meaning.specs.declared.given.Given.TheVariants.{Itself};
ghost use Rattle.sql_gen_filter_meaning.specs.Chains.{accepted_sql, if_tagged, source_sql, chain_value, chain_of};
ghost use Rattle.sql_gen_filter_form_laws.specs.Written.{is_written_value};
ghost use Rattle.sql_gen_filter_values.specs.Starts.{start_value};

use crate::choices::{choose, when};
use crate::given::{after_datatype, after_lang, after_str};
use crate::start::Start;
use query_meaning::ValueExpr;
use rdf_meaning::{KnownDatatype, Text};
use sql_gen_expressions::{equal, int, less, text};
use sql_gen_filter_meaning::{Accepted, Given, SourceText};
use sql_meaning::SqlExpr;
use std::alloc::{AllocError, Global};
use std::marker::Model;
use table_meaning::Kind;

/// A value expression: its variable or constant, and what its functions make of that. Contracts see the four columns that it
/// begins with.
#[derive(Drop)]
pub struct ValueChain<'a> {
    start: Start<'a>,
    given: Given,
}

impl<'a> Model for ValueChain<'a> {
    ghost use Rattle.std.specs.Coded.{codes};
    ghost use Rattle.sql_meaning.specs.contracts.expression.SqlExpr as e;
    ghost use Rattle.sql_gen_filter_meaning.specs.Chains.{Chain};
    ghost use Rattle.sql_gen_filter_values.specs.Starts.{start_value};

    ghost Value = { Chain };

    ghost coded = { Prim.hlevel (codes, e.the_row.coded) };

    ghost view = { λ c. record { start = start_value c.start; given = c.given } };
}

/// The chain of a value expression, which can be written in SQL.
pub fn value_chain(e: &ValueExpr) -> ValueChain<'_>
    ensures value { result ≡ chain_of e.now }
    ensures written { is_written_value e.now ≡ true }
{
    match e {
        ValueExpr::Var(v) => ValueChain::itself(Start::variable(*v)),
        ValueExpr::Const(term) => ValueChain::itself(Start::constant(term)),
        ValueExpr::Str(part) => {
            let chain = value_chain(part.get());
            ValueChain {
                given: after_str(chain.given),
                ..chain
            }
        }
        ValueExpr::Lang(part) => {
            let chain = value_chain(part.get());
            ValueChain {
                given: after_lang(chain.given),
                ..chain
            }
        }
        ValueExpr::Datatype(part) => {
            let chain = value_chain(part.get());
            ValueChain {
                given: after_datatype(chain.given),
                ..chain
            }
        }
    }
}

// The IRI of the datatype of tagged literals.
fn lang_string(alloc: Global) -> Result<SqlExpr, AllocError>
    ensures { IfOk result (λ x. x ≡ sql.Text lang_string) }
{
    text(
        alloc,
        "http://www.w3.org/1999/02/22-rdf-syntax-ns#langString",
    )
}

impl<'a> ValueChain<'a> {
    // A variable or a constant without a function.
    fn itself(start: Start<'a>) -> ValueChain<'a>
        ensures { result ≡ record { start = start_value start.entry; given = Itself } }
    {
        ValueChain {
            start,
            given: Given::Itself,
        }
    }

    // Whether the innermost function accepts the term.
    fn accepted(&self, alloc: Global, which: Accepted) -> Result<SqlExpr, AllocError>
        ensures { IfOk result (λ x. x ≡ accepted_sql which self.now.start) }
    {
        let above = match which {
            Accepted::NotBlank => 1,
            Accepted::Literals => 2,
        };
        less(alloc, int(above), self.start.class(alloc)?)
    }

    // One expression for tagged literals, another for other terms.
    fn if_tagged(&self, alloc: Global, yes: SqlExpr, no: SqlExpr) -> Result<SqlExpr, AllocError>
        ensures { IfOk result (λ x. x ≡ if_tagged self.now.start yes no) }
    {
        let test = equal(alloc, self.start.class(alloc)?, int(6))?;
        choose(alloc, test, yes, no)
    }

    // The text that the functions keep or put in its place.
    fn source(&self, alloc: Global, source: SourceText) -> Result<SqlExpr, AllocError>
        ensures { IfOk result (λ x. x ≡ source_sql source self.now.start) }
    {
        match source {
            SourceText::Own => self.start.text(alloc),
            SourceText::Tag => {
                let tag = self.start.aux(alloc)?;
                self.if_tagged(alloc, tag, text(alloc, "")?)
            }
            SourceText::Datatype => {
                let tagged = lang_string(alloc)?;
                self.if_tagged(alloc, tagged, self.start.aux(alloc)?)
            }
            SourceText::Empty => text(alloc, ""),
            SourceText::StringType => Ok(SqlExpr::Text(Text::known(KnownDatatype::String))),
        }
    }

    /// The class of the term that it gives, or a null for an error.
    pub fn class(&self, alloc: Global) -> Result<SqlExpr, AllocError>
        ensures { IfOk result (λ x. x ≡ (chain_value self.now).class) }
    {
        match self.given {
            Given::Itself => self.start.class(alloc),
            Given::PlainString(which, _) => {
                when(alloc, self.accepted(alloc, which)?, int(5), Kind::Int)
            }
            Given::Iri(which, _) => when(alloc, self.accepted(alloc, which)?, int(2), Kind::Int),
            Given::Never => Ok(SqlExpr::Null(Kind::Int)),
        }
    }

    /// Its value, where it has one, or a null.
    pub fn number(&self, alloc: Global) -> Result<SqlExpr, AllocError>
        ensures { IfOk result (λ x. x ≡ (chain_value self.now).number) }
    {
        match self.given {
            Given::Itself => self.start.number(alloc),
            _ => Ok(SqlExpr::Null(Kind::Int)),
        }
    }

    /// Its text, or a null for an error.
    pub fn text(&self, alloc: Global) -> Result<SqlExpr, AllocError>
        ensures { IfOk result (λ x. x ≡ (chain_value self.now).text) }
    {
        match self.given {
            Given::Itself => self.start.text(alloc),
            Given::PlainString(which, source) | Given::Iri(which, source) => {
                let test = self.accepted(alloc, which)?;
                when(alloc, test, self.source(alloc, source)?, Kind::Text)
            }
            Given::Never => Ok(SqlExpr::Null(Kind::Text)),
        }
    }

    /// Its tag, or the IRI of its datatype, or a null for an error.
    pub fn aux(&self, alloc: Global) -> Result<SqlExpr, AllocError>
        ensures { IfOk result (λ x. x ≡ (chain_value self.now).aux) }
    {
        match self.given {
            Given::Itself => self.start.aux(alloc),
            Given::PlainString(which, _) => {
                let string = SqlExpr::Text(Text::known(KnownDatatype::String));
                when(alloc, self.accepted(alloc, which)?, string, Kind::Text)
            }
            Given::Iri(which, _) => {
                when(
                    alloc,
                    self.accepted(alloc, which)?,
                    text(alloc, "")?,
                    Kind::Text,
                )
            }
            Given::Never => Ok(SqlExpr::Null(Kind::Text)),
        }
    }
}
