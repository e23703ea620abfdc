// A module that is read for what its names mean alone.
ghost use Rattle.std.specs.Prelude.{◌≡◌, ◌<◌, OnOk, length};
ghost use Rattle.std.specs.List.{AllByRecursion};
ghost use Rattle.tla_tree.specs.Arena.{AreThere, tree_at};
ghost use Rattle.tla_model.specs.Lexemes.{LexemesLie, LiesIn, lexemes, unit_lexemes};
ghost use Rattle.tla_model.specs.Scopes as scopes;
ghost use Rattle.unit_grammar.specs.UnitNodes.{module_of, nodes_in, unit_at};
ghost use Rattle.module_model.specs.Modules.{text_of};
ghost use Rattle.unit_scope.specs.EnclosingReadings.{IsPlaced, IsSomewhere};
ghost use Rattle.unit_scope.specs.Steps as steps;
ghost use Rattle.unit_scope.specs.Steps.{IsFirst, IsUnread, Leads};

use crate::declaring::define;
use crate::reader::ModuleReader;
use std::alloc::Global;
use tla_symbols::Lexeme;
use tla_tree::{Form, ModuleTree, Tree, Unit};
use tool_list::{List, Memory};
use tree_names::ModuleText;

impl<'a> ModuleReader<'a> {
    // Goes on behind a definition.
    fn pass_definition(
        &mut self,
        alloc: Global,
        text: &ModuleText<'a>,
        tree: &Tree,
        unit: &Unit,
        local: bool,
        node: u32,
    ) -> Result<(), Memory>
        requires there { AreThere tree.now (nodes_in unit.now) }
        requires lie { AllByRecursion (LiesIn text.now.source)
            (unit_lexemes (unit_at tree.now unit.now)) }
        requires node { node < length tree.now }
        requires below { AllByRecursion (LiesIn text.now.source) (lexemes (tree_at tree.now node)) }
        requires placed { IsPlaced text.now self.old }
        ensures { OnOk result (Leads text.now (steps.declared text.now (unit_at tree.now unit.now)
            local (scopes.definition (tree_at tree.now node))) self.old self.new) }
    {
        self.note_named(alloc, text, tree, unit, true)?;
        define(alloc, &mut self.here.names, text, local, tree, node)?;
        Ok(())
    }

    // Goes on behind what an INSTANCE without a name brings, whose module's name this is.
    fn pass_brought(
        &mut self,
        alloc: Global,
        text: &ModuleText<'a>,
        local: bool,
        module: Lexeme,
    ) -> Result<(), Memory>
        requires lies { LiesIn text.now.source «module» }
        requires placed { IsPlaced text.now self.old }
        ensures { OnOk result (Leads text.now (steps.brought_with text.now local «module»)
            self.old self.new) }
    {
        let mut findings = List::new(alloc);
        self.bring(alloc, text, local, module, &mut findings)?;
        Ok(())
    }

    // Goes on behind an INSTANCE without a name.
    fn pass_instance(
        &mut self,
        alloc: Global,
        text: &ModuleText<'a>,
        tree: &Tree,
        unit: &Unit,
        local: bool,
        node: u32,
    ) -> Result<(), Memory>
        requires there { AreThere tree.now (nodes_in unit.now) }
        requires lie { AllByRecursion (LiesIn text.now.source)
            (unit_lexemes (unit_at tree.now unit.now)) }
        requires node { node < length tree.now }
        requires below { AllByRecursion (LiesIn text.now.source) (lexemes (tree_at tree.now node)) }
        requires placed { IsPlaced text.now self.old }
        ensures { OnOk result (Leads text.now (steps.instanced text.now (unit_at tree.now unit.now)
            local (tree_at tree.now node)) self.old self.new) }
    {
        self.note_named(alloc, text, tree, unit, true)?;
        match tree.form(node) {
            Form::Instance(module) => {
                self.pass_brought(alloc, text, local, module)?;
                Ok(())
            }
            _ => Ok(()),
        }
    }

    // Goes on behind a unit in which no tree is walked.
    fn pass_other(
        &mut self,
        alloc: Global,
        text: &ModuleText<'a>,
        tree: &Tree,
        unit: &Unit,
    ) -> Result<(), Memory>
        requires there { AreThere tree.now (nodes_in unit.now) }
        requires lie { AllByRecursion (LiesIn text.now.source)
            (unit_lexemes (unit_at tree.now unit.now)) }
        requires somewhere { IsSomewhere text.now self.old }
        ensures { OnOk result (Leads text.now (steps.behind_unit text.now
            (unit_at tree.now unit.now)) self.old self.new) }
    {
        let mut findings = List::new(alloc);
        self.read(alloc, text, tree, unit, true, &mut findings)?;
        Ok(())
    }

    // Goes on behind a unit.
    fn pass_unit(
        &mut self,
        alloc: Global,
        text: &ModuleText<'a>,
        tree: &Tree,
        unit: &Unit,
    ) -> Result<(), Memory>
        requires there { AreThere tree.now (nodes_in unit.now) }
        requires lie { AllByRecursion (LiesIn text.now.source)
            (unit_lexemes (unit_at tree.now unit.now)) }
        requires somewhere { IsSomewhere text.now self.old }
        ensures { OnOk result (Leads text.now (steps.behind_unit text.now
            (unit_at tree.now unit.now)) self.old self.new) }
    {
        match unit {
            Unit::OperatorDefinition { local, node } => {
                self.pass_definition(alloc, text, tree, unit, local.is_some(), *node)
            }
            Unit::FunctionDefinition { local, node } => {
                self.pass_definition(alloc, text, tree, unit, local.is_some(), *node)
            }
            Unit::ModuleDefinition { local, node } => {
                self.pass_definition(alloc, text, tree, unit, local.is_some(), *node)
            }
            Unit::Instance { local, node } => {
                self.pass_instance(alloc, text, tree, unit, local.is_some(), *node)
            }
            Unit::Assumption { .. } => self.note_named(alloc, text, tree, unit, true),
            Unit::Theorem { .. } => self.note_named(alloc, text, tree, unit, true),
            _ => self.pass_other(alloc, text, tree, unit),
        }
    }

    /// Goes on behind a unit, and finds no fault in it.
    pub fn pass(
        &mut self,
        alloc: Global,
        text: &ModuleText<'a>,
        tree: &Tree,
        unit: &Unit,
    ) -> Result<(), Memory>
        requires there { AreThere tree.now (nodes_in unit.now) }
        requires lie { AllByRecursion (LiesIn text.now.source)
            (unit_lexemes (unit_at tree.now unit.now)) }
        requires somewhere { IsSomewhere text.now self.old }
        ensures state { OnOk result (Leads text.now (steps.behind_unit text.now
            (unit_at tree.now unit.now)) self.old self.new) }
        ensures somewhere { OnOk result (IsSomewhere text.now self.new) }
    {
        self.pass_unit(alloc, text, tree, unit)
    }

    /// Goes on behind what a module extends, to its first unit, and finds no fault in that.
    pub fn pass_extended(
        &mut self,
        alloc: Global,
        text: &ModuleText<'a>,
        tree: &ModuleTree,
    ) -> Result<(), Memory>
        requires lie { LexemesLie text.now.source (module_of tree.now) }
        requires text { text.now ≡ text_of tree.now.source (module_of tree.now) }
        requires unread { IsUnread text.now self.old.scope.imported.now (module_of tree.now)
            self.old }
        ensures state { OnOk result (IsFirst text.now self.old.scope.imported.now tree.now.source
            (module_of tree.now) self.new) }
        ensures somewhere { OnOk result (IsSomewhere text.now self.new) }
    {
        let mut findings = List::new(alloc);
        self.extend(alloc, text, tree.extends.as_slice(), &mut findings)?;
        Ok(())
    }
}
