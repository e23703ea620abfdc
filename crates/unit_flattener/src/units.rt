// Units, one after another.
ghost use Rattle.std.specs.Prelude.{◌≡◌, ◌++◌, OnOk, map};
ghost use Rattle.std.specs.List.{AllByRecursion};
ghost use Rattle.tla_tree.specs.Arena.{AreThere};
ghost use Rattle.tla_model.specs.Lexemes.{LiesIn, unit_lexemes};
ghost use Rattle.unit_grammar.specs.UnitNodes.{nodes_in, unit_at};
ghost use Rattle.unit_flattener.specs.Walked.{IsQuiet, Walks, WalksAll};
ghost use Rattle.unit_flattener.specs.Walking.{IsAtUnit, IsBefore};

use crate::flattener::UnitFlattener;
use std::alloc::Global;
use tla_tree::Unit;
use tool_list::Memory;
use tree_flattener::Written;

impl<'a> UnitFlattener<'a> {
    // Walks behind a unit of which nothing is made.
    fn pass(&mut self, alloc: Global, written: &Written<'a>, unit: &Unit) -> Result<(), Memory>
        requires at { IsAtUnit written.now.text.now (unit_at written.now.tree.now unit.now)
            self.old }
        requires there { AreThere written.now.tree.now (nodes_in unit.now) }
        requires lie { AllByRecursion (LiesIn written.now.text.now.source)
            (unit_lexemes (unit_at written.now.tree.now unit.now)) }
        requires quiet { IsQuiet unit.now }
        ensures { OnOk result (Walks written.now (unit_at written.now.tree.now unit.now) self.old
            self.new) }
    {
        self.reader.pass(alloc, written.text, written.tree, unit)
    }

    /// Walks behind a unit: makes what it writes, and asks what is to be asked of it.
    pub fn walk(&mut self, alloc: Global, written: &Written<'a>, unit: &Unit) -> Result<(), Memory>
        requires at { IsAtUnit written.now.text.now (unit_at written.now.tree.now unit.now)
            self.old }
        requires there { AreThere written.now.tree.now (nodes_in unit.now) }
        requires lie { AllByRecursion (LiesIn written.now.text.now.source)
            (unit_lexemes (unit_at written.now.tree.now unit.now)) }
        ensures { OnOk result (Walks written.now (unit_at written.now.tree.now unit.now) self.old
            self.new) }
    {
        match unit {
            Unit::OperatorDefinition { node, .. } => self.define(alloc, written, unit, *node),
            Unit::FunctionDefinition { node, .. } => self.define(alloc, written, unit, *node),
            Unit::ModuleDefinition { node, .. } => self.define(alloc, written, unit, *node),
            Unit::Instance { local, node } => self.bring(alloc, written, unit, *local, *node),
            Unit::Assumption { word, name, node } => {
                self.assume(alloc, written, unit, *word, *name, *node)
            }
            Unit::Theorem { word, name, node } => {
                self.state_theorem(alloc, written, unit, *word, *name, *node)
            }
            Unit::ModuleBegin { name, extends, .. } => {
                self.begin(alloc, written, unit, *name, extends.as_slice())
            }
            Unit::ModuleEnd(closing) => self.end(alloc, written, *closing),
            _ => self.pass(alloc, written, unit),
        }
    }

    /// Walks behind units, one after another.
    pub fn walk_all(
        &mut self,
        alloc: Global,
        written: &Written<'a>,
        units: &[Unit],
    ) -> Result<(), Memory>
        requires before { IsBefore written.now.text.now
            (map (unit_at written.now.tree.now) units.now) self.old }
        requires there { AllByRecursion (λ unit. AreThere written.now.tree.now (nodes_in unit))
            units.now }
        requires lie { AllByRecursion (λ unit. AllByRecursion (LiesIn written.now.text.now.source)
            (unit_lexemes (unit_at written.now.tree.now unit))) units.now }
        ensures { OnOk result (WalksAll written.now
            (map (unit_at written.now.tree.now) units.now) self.old self.new) }
    {
        for unit in units {
            self.walk(alloc, written, unit)?;
        }
        Ok(())
    }
}
