//! Where a chain of functions begins.

ghost use Rattle.std.specs.Prelude.{◌≡◌, true, IfOk};
ghost use Rattle.sql_gen_filter_meaning.specs.Columns.{variable_value, constant_value};
ghost use Rattle.sql_gen_filter_form_laws.specs.Written.{is_variable, is_written_term};
ghost use Rattle.sql_gen_filter_values.specs.Starts.{start_value};

use crate::written::{constant_is_written, variable_is_written};
use query_meaning::VarId;
use rdf_meaning::Term;
use rdf_terms::{class_of, number_of};
use sql_gen_expressions::{int, term_column};
use sql_meaning::SqlExpr;
use std::alloc::{AllocError, Global};
use std::marker::Model;
use table_meaning::Kind;

/// A constant that is lent, with its class and value: it is ranked once, and not for each column.
#[derive(Drop)]
pub(crate) struct Constant<'a> {
    class: u8,
    number: Option<i128>,
    term: &'a Term,
}

impl<'a> Model for Constant<'a> {
    ghost use Rattle.std.specs.Prelude.{◌≡◌};
    ghost use Rattle.rdf_meaning.specs.Terms.{RdfTerm};
    ghost use Rattle.rdf_value_meaning.specs.Values.{class_of, value_of};

    ghost Value = { RdfTerm };

    ghost view = { λ c. c.term.now };

    ghost invariant = { λ c. (c.class ≡ class_of c.term.now) × (c.number ≡ value_of c.term.now) };
}

/// A variable or a constant.
#[derive(Drop)]
pub(crate) enum Start<'a> {
    Variable(VarId),
    Constant(Constant<'a>),
}

impl<'a> Start<'a> {
    pub(crate) fn variable(v: VarId) -> Start<'a>
        ensures value { start_value result ≡ variable_value v }
        ensures written { is_variable v ≡ true }
    {
        variable_is_written(v);
        Start::Variable(v)
    }

    pub(crate) fn constant(term: &'a Term) -> Start<'a>
        ensures value { start_value result ≡ constant_value term.now }
        ensures written { is_written_term term.now ≡ true }
    {
        let number = number_of(term);
        constant_is_written(term, number);
        Start::Constant(Constant {
            class: class_of(term),
            number,
            term,
        })
    }

    pub(crate) fn class(&self, alloc: Global) -> Result<SqlExpr, AllocError>
        ensures { IfOk result (λ x. x ≡ (start_value self.now).class) }
    {
        match self {
            Start::Variable(v) => term_column(alloc, *v, "cls"),
            Start::Constant(constant) => Ok(int(u32::from(constant.class))),
        }
    }

    pub(crate) fn number(&self, alloc: Global) -> Result<SqlExpr, AllocError>
        ensures { IfOk result (λ x. x ≡ (start_value self.now).number) }
    {
        match self {
            Start::Variable(v) => term_column(alloc, *v, "num"),
            Start::Constant(constant) => Ok(match constant.number {
                Some(number) => SqlExpr::Int(number),
                None => SqlExpr::Null(Kind::Int),
            }),
        }
    }

    pub(crate) fn text(&self, alloc: Global) -> Result<SqlExpr, AllocError>
        ensures { IfOk result (λ x. x ≡ (start_value self.now).text) }
    {
        match self {
            Start::Variable(v) => term_column(alloc, *v, "txt"),
            Start::Constant(constant) => {
                let term = constant.term;
                Ok(SqlExpr::Text(term.text.copy(alloc)?))
            }
        }
    }

    pub(crate) fn aux(&self, alloc: Global) -> Result<SqlExpr, AllocError>
        ensures { IfOk result (λ x. x ≡ (start_value self.now).aux) }
    {
        match self {
            Start::Variable(v) => term_column(alloc, *v, "aux"),
            Start::Constant(constant) => {
                let term = constant.term;
                Ok(SqlExpr::Text(term.aux.copy(alloc)?))
            }
        }
    }
}
