// The units of a module, one after another.
ghost use Rattle.std.specs.Prelude.{◌≡◌, ◌++◌, ◌<◌, IfOk, OnOk, false, length, map};
ghost use Rattle.std.specs.List.{AllByRecursion};
ghost use Rattle.tla_tree.specs.Arena.{AreThere, tree_at};
ghost use Rattle.tla_tree.specs.Syntax.{trees};
ghost use Rattle.instance_names.specs.Named.{NamesNone, named_as};
ghost use Rattle.module_model.specs.Exports.{files_of};
ghost use Rattle.module_model.specs.Instances.{all_named_instances, unit_trees};
ghost use Rattle.module_model.specs.Modules.{text_of};
ghost use Rattle.module_model.specs.Resolution as in_resolution;
ghost use Rattle.unit_scope.specs.EnclosingReadings.{IsPlaced, IsSomewhere};
ghost use Rattle.unit_scope.specs.Steps as steps;
ghost use Rattle.unit_scope.specs.Steps.{IsLast, IsUnread, Leads, Tells};
ghost use Rattle.tla_model.specs.Lexemes.{LexemesLie, LiesIn, all_lexemes, lexemes, unit_lexemes};
ghost use Rattle.tla_model.specs.Scopes as scopes;
ghost use Rattle.tree_names.specs.BindersInText.{BindersLie};
ghost use Rattle.unit_grammar.specs.Units.{Constants, ModuleBegin, Variables};
ghost use Rattle.unit_grammar.specs.UnitNodes.{HasNodes, module_of, nodes_in, unit_at};

use crate::declaring::{declare_all, declared_constants, declared_variables, define};
use crate::reader::ModuleReader;
use crate::reading::note_all;
use instance_names::{NamedInstance, may_name_instance, named_instances};
use std::alloc::Global;
use tla_model::{Binder, Finding};
use tla_symbols::Lexeme;
use tla_tree::{Form, ModuleTree, Tree, Unit};
use tool_list::{List, Memory};
use tree_names::ModuleText;

// The instances that a unit names, in the order of the text. No tree is walked where none may be named.
fn named_in(
    alloc: Global,
    tree: &Tree,
    unit: &Unit,
    may_name: bool,
) -> Result<List<NamedInstance>, Memory>
    requires there { AreThere tree.now (nodes_in unit.now) }
    requires may { may_name ≡ false → NamesNone tree.now }
    ensures { IfOk result (λ found. map named_as found
        ≡ all_named_instances (unit_trees (unit_at tree.now unit.now))) }
{
    if !may_name {
        return Ok(List::new(alloc));
    }
    named_instances(alloc, tree, unit)
}

impl<'a> ModuleReader<'a> {
    /// Notes where the instances lead that a unit names, by whether a unit of the tree may name one.
    pub(crate) fn note_named(
        &mut self,
        alloc: Global,
        text: &ModuleText<'a>,
        tree: &Tree,
        unit: &Unit,
        may_name: bool,
    ) -> Result<(), Memory>
        requires may { may_name ≡ false → NamesNone tree.now }
        requires there { AreThere tree.now (nodes_in unit.now) }
        requires lie { AllByRecursion (LiesIn text.now.source)
            (unit_lexemes (unit_at tree.now unit.now)) }
        requires placed { IsPlaced text.now self.old }
        ensures { OnOk result (Leads text.now (steps.noted text.now (unit_at tree.now unit.now))
            self.old self.new) }
    {
        let instances = named_in(alloc, tree, unit, may_name)?;
        self.scope
            .note_named(alloc, text, &self.here.modules, instances.as_slice())?;
        Ok(())
    }

    // Reads the tree of a unit before the names that it declares.
    fn read_tree(
        &mut self,
        alloc: Global,
        text: &ModuleText<'a>,
        tree: &Tree,
        unit: &Unit,
        may_name: bool,
        node: u32,
        findings: &mut List<Finding>,
    ) -> Result<(), Memory>
        requires may { may_name ≡ false → NamesNone tree.now }
        requires there { AreThere tree.now (nodes_in unit.now) }
        requires lie { AllByRecursion (LiesIn text.now.source)
            (unit_lexemes (unit_at tree.now unit.now)) }
        requires node { node < length tree.now }
        requires below { AllByRecursion (LiesIn text.now.source) (lexemes (tree_at tree.now node)) }
        requires placed { IsPlaced text.now self.old }
        ensures state { OnOk result
            (Leads text.now (steps.noted text.now (unit_at tree.now unit.now)) self.old self.new) }
        ensures findings { OnOk result
            (Tells text.now
            (steps.found_below text.now (unit_at tree.now unit.now) (tree_at tree.now node))
            self.old findings.old findings.new) }
    {
        self.note_named(alloc, text, tree, unit, may_name)?;
        self.here
            .walk(alloc, &self.scope, text, tree, node, findings)?;
        Ok(())
    }

    // Reads a definition, which can be used behind it.
    fn read_definition(
        &mut self,
        alloc: Global,
        text: &ModuleText<'a>,
        tree: &Tree,
        unit: &Unit,
        may_name: bool,
        local: bool,
        node: u32,
        findings: &mut List<Finding>,
    ) -> Result<(), Memory>
        requires may { may_name ≡ false → NamesNone tree.now }
        requires there { AreThere tree.now (nodes_in unit.now) }
        requires lie { AllByRecursion (LiesIn text.now.source)
            (unit_lexemes (unit_at tree.now unit.now)) }
        requires node { node < length tree.now }
        requires below { AllByRecursion (LiesIn text.now.source) (lexemes (tree_at tree.now node)) }
        requires placed { IsPlaced text.now self.old }
        ensures state { OnOk result
            (Leads text.now
            (steps.declared text.now (unit_at tree.now unit.now) local
            (scopes.definition (tree_at tree.now node))) self.old self.new) }
        ensures findings { OnOk result
            (Tells text.now
            (steps.found_below text.now (unit_at tree.now unit.now) (tree_at tree.now node))
            self.old findings.old findings.new) }
    {
        self.read_tree(alloc, text, tree, unit, may_name, node, findings)?;
        define(alloc, &mut self.here.names, text, local, tree, node)?;
        Ok(())
    }

    // Reads declarations.
    fn read_declarations(
        &mut self,
        alloc: Global,
        text: &ModuleText<'a>,
        binders: List<Binder>,
        findings: &mut List<Finding>,
    ) -> Result<(), Memory>
        requires { BindersLie text.now.source binders }
        ensures state { OnOk result (Leads text.now (steps.declaring text.now binders) self.old
            self.new) }
        ensures findings { OnOk result (Tells text.now (steps.refused text.now binders) self.old
            findings.old findings.new) }
    {
        declare_all(alloc, &mut self.here.names, text, binders, findings)?;
        Ok(())
    }

    /// Reads an INSTANCE without a name, whose module's name this is.
    pub(crate) fn bring(
        &mut self,
        alloc: Global,
        text: &ModuleText<'a>,
        local: bool,
        module: Lexeme,
        findings: &mut List<Finding>,
    ) -> Result<(), Memory>
        requires lies { LiesIn text.now.source «module» }
        requires placed { IsPlaced text.now self.old }
        ensures state { OnOk result (Leads text.now (steps.brought_with text.now local «module»)
            self.old self.new) }
        ensures findings { OnOk result (Tells text.now (steps.clashes_at text.now «module») self.old
            findings.old findings.new) }
    {
        self.here
            .join(alloc, &self.scope, text, local, module, findings)?;
        self.scope
            .note_exported(alloc, &self.here.modules, text.spelled(module))?;
        Ok(())
    }

    // Reads an INSTANCE without a name.
    fn read_instance(
        &mut self,
        alloc: Global,
        text: &ModuleText<'a>,
        tree: &Tree,
        unit: &Unit,
        may_name: bool,
        local: bool,
        node: u32,
        findings: &mut List<Finding>,
    ) -> Result<(), Memory>
        requires may { may_name ≡ false → NamesNone tree.now }
        requires there { AreThere tree.now (nodes_in unit.now) }
        requires lie { AllByRecursion (LiesIn text.now.source)
            (unit_lexemes (unit_at tree.now unit.now)) }
        requires node { node < length tree.now }
        requires below { AllByRecursion (LiesIn text.now.source) (lexemes (tree_at tree.now node)) }
        requires placed { IsPlaced text.now self.old }
        ensures state { OnOk result
            (Leads text.now
            (steps.instanced text.now (unit_at tree.now unit.now) local (tree_at tree.now node))
            self.old self.new) }
        ensures findings { OnOk result
            (Tells text.now
            (steps.found_instanced text.now (unit_at tree.now unit.now) (tree_at tree.now node))
            self.old findings.old findings.new) }
    {
        self.read_tree(alloc, text, tree, unit, may_name, node, findings)?;
        match tree.form(node) {
            Form::Instance(module) => {
                self.bring(alloc, text, local, module, findings)?;
                Ok(())
            }
            _ => Ok(()),
        }
    }

    /// Extends modules, and notes where the instances lead that they export.
    pub(crate) fn extend(
        &mut self,
        alloc: Global,
        text: &ModuleText<'a>,
        names: &[Lexeme],
        findings: &mut List<Finding>,
    ) -> Result<(), Memory>
        requires lie { AllByRecursion (LiesIn text.now.source) names.now }
        requires placed { IsPlaced text.now self.old }
        ensures state { OnOk result
            (Leads text.now (steps.extended_with text.now names.now) self.old self.new) }
        ensures findings { OnOk result
            (Tells text.now (steps.clashing text.now names.now) self.old findings.old
            findings.new) }
    {
        self.here
            .extend_all(alloc, &self.scope, text, names, findings)?;
        note_all(alloc, &mut self.scope, text, &self.here.modules, names)?;
        Ok(())
    }

    // Goes into a nested module, and reads what it extends.
    fn read_begin(
        &mut self,
        alloc: Global,
        text: &ModuleText<'a>,
        name: Lexeme,
        extends: &[Lexeme],
        findings: &mut List<Finding>,
    ) -> Result<(), Memory>
        requires name { LiesIn text.now.source name }
        requires extends { AllByRecursion (LiesIn text.now.source) extends.now }
        requires placed { IsPlaced text.now self.old }
        ensures state { OnOk result ((dashes : Lexeme)
            → Leads text.now (steps.behind_unit text.now (ModuleBegin dashes name extends.now))
            self.old self.new) }
        ensures findings { OnOk result ((dashes : Lexeme)
            → Tells text.now (steps.found_at text.now (ModuleBegin dashes name extends.now))
            self.old findings.old findings.new) }
    {
        self.here.refuse_module(text, name, findings)?;
        self.begin(alloc, text.spelled(name))?;
        self.extend(alloc, text, extends, findings)?;
        Ok(())
    }

    // Reads declared variables.
    fn read_variables(
        &mut self,
        alloc: Global,
        text: &ModuleText<'a>,
        names: &[Lexeme],
        findings: &mut List<Finding>,
    ) -> Result<(), Memory>
        requires { AllByRecursion (LiesIn text.now.source) names.now }
        ensures { OnOk result
            (steps.IsRead text.now (Variables names.now) self.old self.new findings.old
            findings.new) }
    {
        let binders = declared_variables(alloc, names)?;
        self.read_declarations(alloc, text, binders, findings)?;
        Ok(())
    }

    // Reads declared constants.
    fn read_constants(
        &mut self,
        alloc: Global,
        text: &ModuleText<'a>,
        tree: &Tree,
        nodes: &[u32],
        findings: &mut List<Finding>,
    ) -> Result<(), Memory>
        requires there { AreThere tree.now nodes.now }
        requires lie { AllByRecursion (LiesIn text.now.source)
            (all_lexemes (trees (map (tree_at tree.now) nodes.now))) }
        ensures { OnOk result
            (steps.IsRead text.now (Constants (trees (map (tree_at tree.now) nodes.now))) self.old
            self.new findings.old findings.new) }
    {
        let binders = declared_constants(alloc, tree, nodes)?;
        self.read_declarations(alloc, text, binders, findings)?;
        Ok(())
    }

    /// Reads a unit, by whether a unit of the tree may name an instance.
    pub(crate) fn read(
        &mut self,
        alloc: Global,
        text: &ModuleText<'a>,
        tree: &Tree,
        unit: &Unit,
        may_name: bool,
        findings: &mut List<Finding>,
    ) -> Result<(), Memory>
        requires may { may_name ≡ false → NamesNone tree.now }
        requires there { AreThere tree.now (nodes_in unit.now) }
        requires lie { AllByRecursion (LiesIn text.now.source)
            (unit_lexemes (unit_at tree.now unit.now)) }
        requires somewhere { IsSomewhere text.now self.old }
        ensures { OnOk result
            (steps.IsRead text.now (unit_at tree.now unit.now) self.old self.new findings.old
            findings.new) }
    {
        match unit {
            Unit::Variables { names } => {
                self.read_variables(alloc, text, names.as_slice(), findings)
            }
            Unit::Constants { declarations } => {
                self.read_constants(alloc, text, tree, declarations.as_slice(), findings)
            }
            Unit::OperatorDefinition { local, node } => {
                self.read_definition(
                    alloc,
                    text,
                    tree,
                    unit,
                    may_name,
                    local.is_some(),
                    *node,
                    findings,
                )
            }
            Unit::FunctionDefinition { local, node } => {
                self.read_definition(
                    alloc,
                    text,
                    tree,
                    unit,
                    may_name,
                    local.is_some(),
                    *node,
                    findings,
                )
            }
            Unit::ModuleDefinition { local, node } => {
                self.read_definition(
                    alloc,
                    text,
                    tree,
                    unit,
                    may_name,
                    local.is_some(),
                    *node,
                    findings,
                )
            }
            Unit::Instance { local, node } => {
                self.read_instance(
                    alloc,
                    text,
                    tree,
                    unit,
                    may_name,
                    local.is_some(),
                    *node,
                    findings,
                )
            }
            Unit::Assumption { node, .. } => {
                self.read_tree(alloc, text, tree, unit, may_name, *node, findings)
            }
            Unit::Theorem { node, .. } => self.read_tree(
                alloc, text, tree, unit, may_name, *node, findings,
            ),
            Unit::ModuleBegin { name, extends, .. } => {
                self.read_begin(alloc, text, *name, extends.as_slice(), findings)
            }
            Unit::ModuleEnd(_) => self.end(alloc, text),
            Unit::Line(_) => Ok(()),
        }
    }

    // Reads units.
    fn read_all(
        &mut self,
        alloc: Global,
        text: &ModuleText<'a>,
        tree: &Tree,
        units: &[Unit],
        may_name: bool,
        findings: &mut List<Finding>,
    ) -> Result<(), Memory>
        requires may { may_name ≡ false → NamesNone tree.now }
        requires there { AllByRecursion (λ unit. AreThere tree.now (nodes_in unit)) units.now }
        requires lie { AllByRecursion
            (λ unit. AllByRecursion (LiesIn text.now.source) (unit_lexemes (unit_at tree.now unit)))
            units.now }
        requires somewhere { IsSomewhere text.now self.old }
        ensures state { OnOk result
            (Leads text.now (steps.behind_units text.now (map (unit_at tree.now) units.now))
            self.old self.new) }
        ensures findings { OnOk result
            (Tells text.now (steps.found_along text.now (map (unit_at tree.now) units.now))
            self.old findings.old findings.new) }
    {
        for unit in units {
            self.read(alloc, text, tree, unit, may_name, findings)?;
        }
        Ok(())
    }

    /// Reads a module before what it extends: that, and its units. Appends what is found in it.
    pub fn read_module(
        &mut self,
        alloc: Global,
        text: &ModuleText<'a>,
        tree: &'a ModuleTree,
        findings: &mut List<Finding>,
    ) -> Result<(), Memory>
        requires nodes { HasNodes tree.now }
        requires lie { LexemesLie text.now.source (module_of tree.now) }
        requires text { text.now ≡ text_of tree.now.source (module_of tree.now) }
        requires unread { IsUnread text.now self.old.scope.imported.now (module_of tree.now)
            self.old }
        ensures state { OnOk result
            (IsLast text.now self.old.scope.imported.now tree.now.source (module_of tree.now)
            self.new) }
        ensures findings { OnOk result (findings.new ≡ findings.old
            ++ in_resolution.findings (files_of self.old.scope.imported.now) tree.now.source
            (module_of tree.now)) }
    {
        self.extend(alloc, text, tree.extends.as_slice(), findings)?;
        let may_name = may_name_instance(&tree.tree);
        let units = tree.units.as_slice();
        self.read_all(alloc, text, &tree.tree, units, may_name, findings)?;
        Ok(())
    }
}
