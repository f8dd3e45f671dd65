ghost use Rattle.std.specs.Prelude.{◌≡◌};
ghost use Rattle.interlocks.specs.Answers.{Answers};
ghost use Rattle.interlocks.specs.Formula.{holds};
ghost use Rattle.interlocks.specs.Reading.{Names, read_rule};

use crate::refusal::RuleRefusal;
use crate::scan::read_tree;
use crate::tree::{Tree, tree_copy, tree_holds};
use alarm_rules::Alarms;
use plain_lists::{Copied, Want};
use point_table::Points;
use std::alloc::Global;
use std::marker::Model;

/// A rule over points and alarms, as `not (breaker = 1) or feeder_amps >= 100`.
#[derive(Drop)]
pub struct Rule {
    alloc: Global,
    tree: Tree,
}

impl Model for Rule {
    ghost use Rattle.interlocks.specs.Formula.{Formula, formula};
    ghost use Rattle.interlocks.specs.Code.{formula_code};

    ghost Value = { Formula };

    ghost coded = { formula_code };

    ghost view = { λ rule. formula rule.tree };
}

impl Rule {
    /// The rule that a text spells over the names of these points and alarms.
    pub fn read(
        alloc: Global,
        text: &str,
        points: &Points,
        alarms: &Alarms,
    ) -> Result<Rule, RuleRefusal>
        ensures { Answers result (read_rule (record { points = points.now; alarms = alarms.now }) text.now) }
    {
        match read_tree(alloc, text.as_bytes(), points, alarms) {
            Ok(tree) => Ok(Rule { alloc, tree }),
            Err(refused) => Err(refused),
        }
    }

    /// Whether the rule holds. A comparison of a point that is not there doesn't, nor does an alarm
    /// that is not there.
    pub fn holds(&self, points: &Points, alarms: &Alarms) -> bool
        ensures { result ≡ holds self.now points.now alarms.now }
    {
        tree_holds(&self.tree, points, alarms)
    }
}

impl Copied for Rule {
    fn copy(&self) -> Result<Self, Want> {
        Ok(Rule {
            alloc: self.alloc,
            tree: tree_copy(self.alloc, &self.tree)?,
        })
    }
}
