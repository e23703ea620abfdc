// Definitions of units.
ghost use Rattle.std.specs.Prelude.{◌≡◌, List as ListOf, IfOk, IfSome, OnOk, map};
ghost use Rattle.std.specs.List.{AllByRecursion};
ghost use Rattle.tla_tree.specs.Arena.{AreThere, tree_at};
ghost use Rattle.tla_tree.specs.Syntax.{Tree};
ghost use Rattle.tla_model.specs.Entities.{meant};
ghost use Rattle.tla_model.specs.Lexemes.{LiesIn, unit_lexemes};
ghost use Rattle.tla_model.specs.Scopes.{definition};
ghost use Rattle.tla_model.specs.Tables.{Named};
ghost use Rattle.unit_grammar.specs.UnitNodes.{nodes_in, unit_at};
ghost use Rattle.flattened_trees.specs.Leads.{Lead, with_leads};
ghost use Rattle.tree_flattener.specs.Apart.{IsLeadOf};
ghost use Rattle.module_leads.specs.Leading.{IsSound, leading, leading_in};
ghost use Rattle.tree_flattener.specs.Worlds.{DoesLie, IsNode, lead_by};
ghost use Rattle.unit_flattener.specs.Changes.{ChangesLeads, ChangesState};
ghost use Rattle.unit_flattener.specs.Walked.{IsDefinition, MakesDefinition, Walks};
ghost use Rattle.unit_flattener.specs.Walking.{IsAtUnit, IsWithinUnits, face_number, world_at};

use crate::flattener::UnitFlattener;
use crate::known::Known;
use crate::meanings::defined_meanings;
use flattened_trees::End;
use std::alloc::Global;
use tla_model::Meaning;
use tla_tree::Unit;
use tool_list::Memory;
use tree_flattener::{Local, Written, definition_apart};

impl<'a> UnitFlattener<'a> {
    // Makes what a tree defines, and answers where its name leads.
    fn make_definition(
        &mut self,
        alloc: Global,
        written: &Written<'a>,
        node: u32,
    ) -> Result<Option<Local>, Memory>
        requires within { IsWithinUnits written.now.text.now self.old }
        requires node { IsNode (world_at written.now self.old) node }
        ensures made { IfOk result (λ local. MakesDefinition (world_at written.now self.old)
            self.old self.new (tree_at written.now.tree.now node) local) }
        ensures others { OnOk result (ChangesState self.old self.new) }
    {
        let names = Known {
            leads: &self.leads,
            files: self.files,
            modules: &self.modules.here,
        };
        let mut roots = Vec::new(alloc);
        definition_apart(
            alloc,
            &names,
            written,
            &mut self.state,
            self.frame,
            &[],
            node,
            &mut roots,
        )
    }

    // The number of the face of the module of a name.
    pub(crate) fn face(&self, module: &str) -> Option<usize>
        ensures { result ≡ face_number self.now «module».now }
    {
        let names = Known {
            leads: &self.leads,
            files: self.files,
            modules: &self.modules.here,
        };
        names.face(module)
    }

    // Keeps where names lead that a tree defines.
    fn put_local(
        &mut self,
        written: &Written<'a>,
        meanings: &[Meaning],
        local: Local,
    ) -> Result<(), Memory>
        requires lies { DoesLie written.now.text.now.source local }
        ensures leads { OnOk result (leading_in self.new.leads
            ≡ leading (leading_in self.old.leads)
            (with_leads (leading_in self.old.leads).leads meanings.now
            (lead_by (world_at written.now self.old) local))) }
        ensures sound { OnOk result (IsSound self.old.leads → IsSound self.new.leads) }
        ensures others { OnOk result (ChangesLeads self.old self.new) }
    {
        match local {
            Local::Nothing => self.leads.define(meanings, End::Nowhere),
            Local::Place { place, order } => {
                self.leads.define(meanings, End::Place { place, order })
            }
            Local::Definition(number) => self.leads.define(meanings, End::Definition(number)),
            Local::Instance { number, module } => {
                let face = self.face(written.text.spelled(module));
                self.leads.define_instance(meanings, number, face)
            }
        }
    }

    // The same, if a tree defines a name.
    fn put_defined(
        &mut self,
        written: &Written<'a>,
        meanings: &[Meaning],
        local: Option<Local>,
    ) -> Result<(), Memory>
        requires lies { IfSome local (DoesLie written.now.text.now.source) }
        ensures leads { OnOk result ((x : Tree) (lead : ListOf Named → Lead)
            → IsLeadOf (world_at written.now self.old) x local lead
            → meanings.now ≡ map (meant written.now.text.now) (definition x)
            → leading_in self.new.leads ≡ leading (leading_in self.old.leads)
            (with_leads (leading_in self.old.leads).leads meanings.now lead)) }
        ensures sound { OnOk result (IsSound self.old.leads → IsSound self.new.leads) }
        ensures others { OnOk result (ChangesLeads self.old self.new) }
    {
        match local {
            None => Ok(()),
            Some(local) => self.put_local(written, meanings, local),
        }
    }

    /// Walks behind a definition: makes what it defines, and keeps where its name leads.
    pub(crate) fn define(
        &mut self,
        alloc: Global,
        written: &Written<'a>,
        unit: &Unit,
        node: u32,
    ) -> Result<(), Memory>
        requires at { IsAtUnit written.now.text.now (unit_at written.now.tree.now unit.now)
            self.old }
        requires there { AreThere written.now.tree.now (nodes_in unit.now) }
        requires lie { AllByRecursion (LiesIn written.now.text.now.source)
            (unit_lexemes (unit_at written.now.tree.now unit.now)) }
        requires defines { IsDefinition (unit_at written.now.tree.now unit.now)
            (tree_at written.now.tree.now node) }
        requires node { IsNode (world_at written.now self.old) node }
        ensures { OnOk result (Walks written.now (unit_at written.now.tree.now unit.now) self.old
            self.new) }
    {
        let local = self.make_definition(alloc, written, node)?;
        let meanings = defined_meanings(alloc, written.text, written.tree, node)?;
        self.put_defined(written, meanings.as_slice(), local)?;
        self.reader.pass(alloc, written.text, written.tree, unit)
    }
}
