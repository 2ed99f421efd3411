//! Every solution of patterns binds all their variables.

ghost use Rattle.query_eval_meaning.specs.Leaf.{is_variable, in_pattern};
ghost use Rattle.query_eval_meaning.specs.Variables.{pattern_variables};
ghost use Rattle.sparql_certain.specs.Certain.{Has};
ghost use Rattle.sparql_certain.specs.Patterns.{Adds};

use crate::leaf_vars::LeafVars;
use query_meaning::{Pattern, Slot};
use sparql_variables::VarSet;
use sqlite_items::Items;

// The set with a slot's variable besides.
#[tactic(auto, using(crate::specs::Patterns::slot_laws))]
pub(crate) fn with_slot(set: &VarSet, slot: &Slot) -> VarSet
    ensures { Adds set.now (λ v. is_variable v slot.now) result }
{
    match slot {
        Slot::Var(v) => set.with(*v),
        Slot::Const(_) => *set,
    }
}

/// The set with a pattern's variables besides.
#[tactic(auto, using(crate::specs::Patterns::pattern_laws))]
pub fn with_pattern(set: &VarSet, pattern: &Pattern) -> VarSet
    ensures { Adds set.now (λ v. in_pattern v pattern.now) result }
{
    let subject = with_slot(set, &pattern.s);
    let predicate = with_slot(&subject, &pattern.p);
    with_slot(&predicate, &pattern.o)
}

/// The variables of patterns.
#[tactic(auto, using(crate::specs::Patterns::list_laws))]
pub fn variables(patterns: &[Pattern]) -> VarSet
    ensures { Has result (pattern_variables patterns.now) }
{
    let mut set = VarSet::empty();
    for pattern in patterns {
        set = with_pattern(&set, pattern);
    }
    set
}

impl LeafVars for Items<Pattern> {
    ghost use Rattle.query_eval_meaning.specs.Leaf.{leaf};
    ghost use Rattle.query_eval_meaning.specs.Variables.{pattern_variables};
    ghost use Rattle.query_algebra_laws.specs.TreeSolutions.{leaf-binds};

    ghost solutions = { leaf };

    ghost certain = { pattern_variables };

    fn leaf_certain(&self) -> VarSet {
        variables(self.as_slice())
    }

    ghost bound = { leaf-binds };
}
