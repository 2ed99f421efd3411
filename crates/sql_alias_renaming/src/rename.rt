//! A script under new aliases, by a walk.

ghost use Rattle.std.specs.Prelude.{◌≡◌, List, IfOk};
ghost use Rattle.sql_meaning.specs.declared.expression.SqlExpr.{SqlExpr, out-SqlExpr};
ghost use Rattle.sql_meaning.specs.declared.expression.SqlExpr.TheOpen as o;
ghost use Rattle.sql_meaning.specs.declared.expression.Branch.{Branch};
ghost use Rattle.sql_meaning.specs.declared.script.Core.{Core};
ghost use Rattle.sql_meaning.specs.declared.script.Item.{Item};
ghost use Rattle.sql_meaning.specs.declared.script.JoinTo.{JoinTo};
ghost use Rattle.sql_meaning.specs.declared.script.SqlKey.{SqlKey};
ghost use Rattle.sql_meaning.specs.declared.script.Step.{Step};
ghost use Rattle.sql_alias_meaning.specs.Each.{Each, EachOption, Keeps};
ghost use Rattle.sql_alias_meaning.specs.Nodes.{an_expr, a_core, a_body, a_script, of_expr, of_core, of_body, of_script};
ghost use Rattle.sql_alias_laws.specs.Aliases.{realias, realias_core, realias_body};
ghost use Rattle.sql_alias_renaming.specs.NewNames.{new_name, CanBeRenamed, IsRenamed};

use crate::names::{AliasPair, new_alias, renamed_from};
use crate::parts::{branches_of, items_with, joins_with, keys_with, steps_with};
use sql_fold::SqlFold;
use sql_meaning::{Body, Core, Script, SqlExpr};
use sqlite_items::{Boxed, Items};
use std::alloc::{AllocError, Global};

/// Makes a script anew in which each alias has its new name: that of the first pair that names it. It takes nodes
/// whose aliases all have new names that differ as they do. The new script has the old one's rows over all tables.
#[derive(Drop)]
pub struct Rename {
    pub names: Vec<AliasPair>,
}

impl SqlFold for Rename {
    type ExprOut = SqlExpr;

    type CoreOut = Core;

    type BodyOut = Body;

    type Out = Script;

    ghost fits = { λ v n. CanBeRenamed v.names.items n };

    ghost stands = { λ v m. IsRenamed v.names.items m };

    ghost use Rattle.sql_alias_renaming.specs.Fits as the_parts;

    ghost part_fits = { λ v n e h c. the_parts.part_fits v.names.items n e h c };

    ghost test_fits = { λ v n b h c. the_parts.test_fits v.names.items n b h c };

    ghost answer_fits = { λ v n b h c. the_parts.answer_fits v.names.items n b h c };

    ghost item_fits = { λ v c i h k. the_parts.item_fits v.names.items c i h k };

    ghost join_fits = { λ v c j h k. the_parts.join_fits v.names.items c j h k };

    ghost condition_fits = { λ v c e h k. the_parts.condition_fits v.names.items c e h k };

    ghost key_fits = { λ v c k h l. the_parts.key_fits v.names.items c k h l };

    ghost core_fits = { λ v b c h k. the_parts.core_fits v.names.items b c h k };

    ghost step_fits = { λ v s t h k. the_parts.step_fits v.names.items s t h k };

    ghost last_fits = { λ v s h. the_parts.last_fits v.names.items s h };

    #[tactic(auto, using(crate::specs::Renamed::renames))]
    fn name(&mut self, alloc: Global, node: &SqlExpr) -> Result<SqlExpr, AllocError> {
        let SqlExpr::Name(alias, column) = node else {
            unreachable!()
        };
        let alias = new_alias(alloc, &self.names, alias)?;
        Ok(SqlExpr::Name(alias, column.copy(alloc)?))
    }

    #[tactic(auto, using(crate::specs::Renamed::renames))]
    fn int(&mut self, _alloc: Global, node: &SqlExpr) -> Result<SqlExpr, AllocError> {
        let SqlExpr::Int(number) = node else {
            unreachable!()
        };
        Ok(SqlExpr::Int(*number))
    }

    #[tactic(auto, using(crate::specs::Renamed::renames))]
    fn text(&mut self, alloc: Global, node: &SqlExpr) -> Result<SqlExpr, AllocError> {
        let SqlExpr::Text(text) = node else {
            unreachable!()
        };
        Ok(SqlExpr::Text(text.copy(alloc)?))
    }

    #[tactic(auto, using(crate::specs::Renamed::renames))]
    fn truth(&mut self, _alloc: Global, node: &SqlExpr) -> Result<SqlExpr, AllocError> {
        let SqlExpr::Truth(truth) = node else {
            unreachable!()
        };
        Ok(SqlExpr::Truth(*truth))
    }

    #[tactic(auto, using(crate::specs::Renamed::renames))]
    fn null(&mut self, _alloc: Global, node: &SqlExpr) -> Result<SqlExpr, AllocError> {
        let SqlExpr::Null(kind) = node else {
            unreachable!()
        };
        Ok(SqlExpr::Null(*kind))
    }

    #[tactic(auto, using(crate::specs::Renamed::renames))]
    fn equal(
        &mut self,
        alloc: Global,
        _node: &SqlExpr,
        left: SqlExpr,
        right: SqlExpr,
    ) -> Result<SqlExpr, AllocError> {
        let left = Boxed::new(alloc, left)?;
        Ok(SqlExpr::Equal(left, Boxed::new(alloc, right)?))
    }

    #[tactic(auto, using(crate::specs::Renamed::renames))]
    fn less(
        &mut self,
        alloc: Global,
        _node: &SqlExpr,
        left: SqlExpr,
        right: SqlExpr,
    ) -> Result<SqlExpr, AllocError> {
        let left = Boxed::new(alloc, left)?;
        Ok(SqlExpr::Less(left, Boxed::new(alloc, right)?))
    }

    #[tactic(auto, using(crate::specs::Renamed::renames))]
    fn all(
        &mut self,
        _alloc: Global,
        node: &SqlExpr,
        parts: Vec<SqlExpr>,
    ) -> Result<SqlExpr, AllocError>
        requires fit { CanBeRenamed self.old.names.items (an_expr node.now) }
        requires shape { ((es : List SqlExpr) × (out-SqlExpr node.now ≡ o.All es) × Each (λ x e. x ≡ realias e (new_name self.old.names.items)) parts.items es) }
        ensures kept { Keeps (CanBeRenamed self.old.names.items) (CanBeRenamed self.new.names.items) (IsRenamed self.old.names.items) (IsRenamed self.new.names.items) }
        ensures out { IfOk result (λ x. IsRenamed self.old.names.items (of_expr x node.now)) }
    {
        let _ = node;
        Ok(SqlExpr::All(Items::from_vec(parts)))
    }

    #[tactic(auto, using(crate::specs::Renamed::renames))]
    fn any(
        &mut self,
        _alloc: Global,
        node: &SqlExpr,
        parts: Vec<SqlExpr>,
    ) -> Result<SqlExpr, AllocError>
        requires fit { CanBeRenamed self.old.names.items (an_expr node.now) }
        requires shape { ((es : List SqlExpr) × (out-SqlExpr node.now ≡ o.Any es) × Each (λ x e. x ≡ realias e (new_name self.old.names.items)) parts.items es) }
        ensures kept { Keeps (CanBeRenamed self.old.names.items) (CanBeRenamed self.new.names.items) (IsRenamed self.old.names.items) (IsRenamed self.new.names.items) }
        ensures out { IfOk result (λ x. IsRenamed self.old.names.items (of_expr x node.now)) }
    {
        let _ = node;
        Ok(SqlExpr::Any(Items::from_vec(parts)))
    }

    #[tactic(auto, using(crate::specs::Renamed::renames))]
    fn not(
        &mut self,
        alloc: Global,
        _node: &SqlExpr,
        part: SqlExpr,
    ) -> Result<SqlExpr, AllocError> {
        Ok(SqlExpr::Not(Boxed::new(alloc, part)?))
    }

    #[tactic(auto, using(crate::specs::Renamed::renames))]
    fn is_null(
        &mut self,
        alloc: Global,
        _node: &SqlExpr,
        part: SqlExpr,
    ) -> Result<SqlExpr, AllocError> {
        Ok(SqlExpr::IsNull(Boxed::new(alloc, part)?))
    }

    #[tactic(auto, using(crate::specs::Renamed::renames))]
    fn case(
        &mut self,
        alloc: Global,
        node: &SqlExpr,
        tests: Vec<SqlExpr>,
        answers: Vec<SqlExpr>,
        last: SqlExpr,
    ) -> Result<SqlExpr, AllocError>
        requires fit { CanBeRenamed self.old.names.items (an_expr node.now) }
        requires shape { ((bs : List Branch) × (e : SqlExpr) × (out-SqlExpr node.now ≡ o.Case bs e) × Each (λ x (b : Branch). x ≡ realias b.test (new_name self.old.names.items)) tests.items bs × Each (λ x (b : Branch). x ≡ realias b.value (new_name self.old.names.items)) answers.items bs × (last ≡ realias e (new_name self.old.names.items))) }
        ensures kept { Keeps (CanBeRenamed self.old.names.items) (CanBeRenamed self.new.names.items) (IsRenamed self.old.names.items) (IsRenamed self.new.names.items) }
        ensures out { IfOk result (λ x. IsRenamed self.old.names.items (of_expr x node.now)) }
    {
        let _ = node;
        let branches = branches_of(alloc, tests, answers)?;
        Ok(SqlExpr::Case(branches, Boxed::new(alloc, last)?))
    }

    #[tactic(auto, using(crate::specs::Renamed::renames))]
    fn first(
        &mut self,
        _alloc: Global,
        node: &SqlExpr,
        parts: Vec<SqlExpr>,
    ) -> Result<SqlExpr, AllocError>
        requires fit { CanBeRenamed self.old.names.items (an_expr node.now) }
        requires shape { ((es : List SqlExpr) × (out-SqlExpr node.now ≡ o.First es) × Each (λ x e. x ≡ realias e (new_name self.old.names.items)) parts.items es) }
        ensures kept { Keeps (CanBeRenamed self.old.names.items) (CanBeRenamed self.new.names.items) (IsRenamed self.old.names.items) (IsRenamed self.new.names.items) }
        ensures out { IfOk result (λ x. IsRenamed self.old.names.items (of_expr x node.now)) }
    {
        let _ = node;
        Ok(SqlExpr::First(Items::from_vec(parts)))
    }

    #[tactic(auto, using(crate::specs::Renamed::renames))]
    fn core(
        &mut self,
        alloc: Global,
        node: &Core,
        items: Vec<SqlExpr>,
        joins: Vec<SqlExpr>,
        condition: Option<SqlExpr>,
        keys: Vec<SqlExpr>,
    ) -> Result<Core, AllocError>
        requires fit { CanBeRenamed self.old.names.items (a_core node.now) }
        requires items { Each (λ x (i : Item). x ≡ realias i.expr (new_name self.old.names.items)) items.items node.now.items }
        requires joins { Each (λ x (j : JoinTo). x ≡ realias j.on (new_name self.old.names.items)) joins.items node.now.joins }
        requires condition { EachOption (λ x e. x ≡ realias e (new_name self.old.names.items)) condition node.now.condition }
        requires keys { Each (λ x (k : SqlKey). x ≡ realias k.expr (new_name self.old.names.items)) keys.items node.now.keys }
        ensures kept { Keeps (CanBeRenamed self.old.names.items) (CanBeRenamed self.new.names.items) (IsRenamed self.old.names.items) (IsRenamed self.new.names.items) }
        ensures out { IfOk result (λ x. IsRenamed self.old.names.items (of_core x node.now)) }
    {
        let items = items_with(alloc, node.items.as_slice(), items)?;
        let from = renamed_from(alloc, &self.names, &node.from)?;
        let joins = joins_with(alloc, &self.names, node.joins.as_slice(), joins)?;
        let keys = keys_with(alloc, node.keys.as_slice(), keys)?;
        Ok(Core {
            distinct: node.distinct,
            items,
            from,
            joins,
            condition,
            keys,
            most: node.most,
            skip: node.skip,
        })
    }

    #[tactic(auto, using(crate::specs::Renamed::renames))]
    fn body(&mut self, _alloc: Global, node: &Body, cores: Vec<Core>) -> Result<Body, AllocError>
        requires fit { CanBeRenamed self.old.names.items (a_body node.now) }
        requires cores { Each (λ x (c : Core). x ≡ realias_core (new_name self.old.names.items) c) cores.items node.now.cores }
        ensures kept { Keeps (CanBeRenamed self.old.names.items) (CanBeRenamed self.new.names.items) (IsRenamed self.old.names.items) (IsRenamed self.new.names.items) }
        ensures out { IfOk result (λ x. IsRenamed self.old.names.items (of_body x node.now)) }
    {
        let _ = node;
        Ok(Body {
            cores: Items::from_vec(cores),
        })
    }

    #[tactic(auto, using(crate::specs::Renamed::renames))]
    fn script(
        &mut self,
        alloc: Global,
        node: &Script,
        steps: Vec<Body>,
        last: Body,
    ) -> Result<Script, AllocError>
        requires fit { CanBeRenamed self.old.names.items (a_script node.now) }
        requires steps { Each (λ x (s : Step). x ≡ realias_body (new_name self.old.names.items) s.body) steps.items node.now.steps }
        requires last { last ≡ realias_body (new_name self.old.names.items) node.now.last }
        ensures kept { Keeps (CanBeRenamed self.old.names.items) (CanBeRenamed self.new.names.items) (IsRenamed self.old.names.items) (IsRenamed self.new.names.items) }
        ensures out { IfOk result (λ x. IsRenamed self.old.names.items (of_script x node.now)) }
    {
        let steps = steps_with(alloc, node.steps.as_slice(), steps)?;
        Ok(Script { steps, last })
    }
}
