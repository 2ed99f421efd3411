//! The visitor of truth expressions that makes their SQL.

ghost use Rattle.std.specs.Prelude.{◌≡◌, ◌+◌, ℕ, List, true, Ok, IfOk};
ghost use Rattle.table_meaning.specs.declared.kind.Kind.TheVariants as kind;
ghost use Rattle.query_meaning.specs.declared.expression.TruthExpr.{TruthExpr, out-TruthExpr};
ghost use Rattle.query_meaning.specs.declared.expression.TruthExpr.TheOpen as o;
ghost use Rattle.query_eval_meaning.specs.Expressions.{truth_over};
ghost use Rattle.sql_meaning.specs.declared.expression.SqlExpr.{SqlExpr};
ghost use Rattle.sql_rows_meaning.specs.Scopes.{Scope};
ghost use Rattle.sql_rows_meaning.specs.Checks.{check};
ghost use Rattle.sql_alias_meaning.specs.Each.{Each, Keeps};
ghost use Rattle.sql_gen_term_laws.specs.Filters.{Means};
ghost use Rattle.sql_gen_binding_laws.specs.StepColumns.{TermsSeen};
ghost use Rattle.sql_gen_form_laws.specs.Fits.{ExprFits};
ghost use Rattle.sql_gen_filter_meaning.specs.Filters.{filter_sql};
ghost use Rattle.sql_gen_filter_meaning.specs.Leaves.{truth_names};
ghost use Rattle.sql_gen_filter_meaning.specs.Connectives.{connectives, names_term_columns};
ghost use Rattle.sql_gen_filter_form_laws.specs.Written.{is_written};
ghost use Rattle.filter_sql.specs.SqlOf.{IsSqlOf};

use crate::comparisons::{compare, one_of, same_term};
use crate::kinds::{effective, is_bound, is_kind};
use query_expr_fold::{ExprFold, fold_expr};
use query_meaning::TruthExpr;
use sql_gen_expressions::{all_of, negation};
use sql_gen_filter_values::{any_of, value_chain, variable_is_written};
use sql_meaning::SqlExpr;
use std::alloc::{AllocError, Global};

/// Makes the SQL of truth expressions over four columns for the term of each variable: `cls`, `num`, `txt` and `aux` of the
/// alias that the variable's table of terms has. It takes every node.
#[derive(Drop)]
pub struct FilterSql;

impl ExprFold for FilterSql {
    type Out = SqlExpr;

    ghost fits = { λ v e. Unit {0} };

    ghost stands = { λ v m. IsSqlOf m.0 m.1 };

    ghost part_fits = { λ v n e h c. tt };

    #[tactic(auto, using(crate::proofs::Nodes::node_laws))]
    fn value(&mut self, alloc: Global, node: &TruthExpr) -> Result<SqlExpr, AllocError> {
        let TruthExpr::Value(value) = node else {
            unreachable!()
        };
        effective(alloc, &value_chain(value))
    }

    #[tactic(auto, using(crate::proofs::Nodes::node_laws))]
    fn bound(&mut self, alloc: Global, node: &TruthExpr) -> Result<SqlExpr, AllocError> {
        let TruthExpr::Bound(v) = node else {
            unreachable!()
        };
        variable_is_written(*v);
        is_bound(alloc, *v)
    }

    #[tactic(auto, using(crate::proofs::Nodes::node_laws))]
    fn compare(&mut self, alloc: Global, node: &TruthExpr) -> Result<SqlExpr, AllocError> {
        let TruthExpr::Compare(op, left, right) = node else {
            unreachable!()
        };
        compare(alloc, *op, &value_chain(left), &value_chain(right))
    }

    #[tactic(auto, using(crate::proofs::Nodes::node_laws))]
    fn one_of(&mut self, alloc: Global, node: &TruthExpr) -> Result<SqlExpr, AllocError> {
        let TruthExpr::OneOf(value, others) = node else {
            unreachable!()
        };
        one_of(alloc, &value_chain(value), others.as_slice())
    }

    #[tactic(auto, using(crate::proofs::Nodes::node_laws))]
    fn same_term(&mut self, alloc: Global, node: &TruthExpr) -> Result<SqlExpr, AllocError> {
        let TruthExpr::SameTerm(left, right) = node else {
            unreachable!()
        };
        same_term(alloc, &value_chain(left), &value_chain(right))
    }

    #[tactic(auto, using(crate::proofs::Nodes::node_laws))]
    fn is_kind(&mut self, alloc: Global, node: &TruthExpr) -> Result<SqlExpr, AllocError> {
        let TruthExpr::Is(test, value) = node else {
            unreachable!()
        };
        is_kind(alloc, *test, &value_chain(value))
    }

    #[tactic(auto, using(crate::proofs::Nodes::node_laws))]
    fn not(
        &mut self,
        alloc: Global,
        _node: &TruthExpr,
        part: SqlExpr,
    ) -> Result<SqlExpr, AllocError> {
        negation(alloc, part)
    }

    #[tactic(auto, using(crate::proofs::Nodes::node_laws))]
    fn all(
        &mut self,
        _alloc: Global,
        node: &TruthExpr,
        parts: Vec<SqlExpr>,
    ) -> Result<SqlExpr, AllocError>
        requires fit { Unit {0} }
        requires shape { ((es : List TruthExpr) × (out-TruthExpr node.now ≡ o.All es) × Each (λ x e. IsSqlOf x e) parts.items es) }
        ensures kept { Keeps {Node = TruthExpr} {Given = SqlExpr × TruthExpr} (λ e. Unit {0}) (λ e. Unit {0}) (λ m. IsSqlOf m.0 m.1) (λ m. IsSqlOf m.0 m.1) }
        ensures out { IfOk result (λ x. IsSqlOf x node.now) }
    {
        let _ = node;
        Ok(all_of(parts))
    }

    #[tactic(auto, using(crate::proofs::Nodes::node_laws))]
    fn any(
        &mut self,
        _alloc: Global,
        node: &TruthExpr,
        parts: Vec<SqlExpr>,
    ) -> Result<SqlExpr, AllocError>
        requires fit { Unit {0} }
        requires shape { ((es : List TruthExpr) × (out-TruthExpr node.now ≡ o.Any es) × Each (λ x e. IsSqlOf x e) parts.items es) }
        ensures kept { Keeps {Node = TruthExpr} {Given = SqlExpr × TruthExpr} (λ e. Unit {0}) (λ e. Unit {0}) (λ m. IsSqlOf m.0 m.1) (λ m. IsSqlOf m.0 m.1) }
        ensures out { IfOk result (λ x. IsSqlOf x node.now) }
    {
        let _ = node;
        Ok(any_of(parts))
    }
}

/// The SQL of a condition, which is true, false or null exactly where the condition is true, false or an error, in each row
/// that shows the terms of its variables. It is a truth, names the columns of these terms alone, has the form of the grammar,
/// and at most nine levels and one more for each of `!`, `&&` and `||` that stand inside one another. It is refused for
/// want of memory alone.
pub fn filter_sql(alloc: Global, e: &TruthExpr) -> Result<SqlExpr, AllocError>
    ensures value { IfOk result (λ x. x ≡ filter_sql e.now) }
    ensures written { IfOk result (λ x. is_written e.now ≡ true) }
    ensures means { IfOk result (λ x. (us : List ℕ) → truth_names us e.now ≡ true → Means us x (truth_over e.now)) }
    ensures kind { IfOk result (λ x. (us : List ℕ) → truth_names us e.now ≡ true → (s : Scope) → TermsSeen us s → check x s ≡ Ok kind.Truth) }
    ensures columns { IfOk result (λ x. (us : List ℕ) → truth_names us e.now ≡ true → names_term_columns us x ≡ true) }
    ensures fits { IfOk result (λ x. ExprFits (9 + connectives e.now) x) }
{
    let mut visitor = FilterSql;
    fold_expr(alloc, &mut visitor, e)
}
