// Units that are an INSTANCE without a name.
ghost use Rattle.std.specs.Prelude.{◌≡◌, IfOk, OnOk};
ghost use Rattle.std.specs.List.{AllByRecursion};
ghost use Rattle.tla_tree.specs.Arena.{AreThere};
ghost use Rattle.tla_tree.specs.declared.form.Form.TheVariants as form;
ghost use Rattle.tla_tree.specs.declared.unit.Unit.TheVariants as units;
ghost use Rattle.tla_model.specs.Lexemes.{LiesIn, unit_lexemes};
ghost use Rattle.unit_grammar.specs.UnitNodes.{nodes_in, unit_at};
ghost use Rattle.declared_names.specs.Nodes.{IsWhole, form_at, parts_at};
ghost use Rattle.tree_flattener.specs.Worlds.{IsNode};
ghost use Rattle.unit_flattener.specs.Changes.{ChangesState};
ghost use Rattle.unit_flattener.specs.Walked.{MakesInstance, Walks};
ghost use Rattle.unit_flattener.specs.Walking.{IsAtUnit, IsWithinUnits, world_at};

use crate::flattener::UnitFlattener;
use crate::known::Known;
use brought_entries::instance_entries;
use std::alloc::Global;
use tla_symbols::Lexeme;
use tla_tree::{Form, Unit};
use tool_list::Memory;
use tree_flattener::{Written, instantiate, right_sides};

impl<'a> UnitFlattener<'a> {
    // Makes the instance of an INSTANCE without a name, and answers its number.
    fn make_instance(
        &mut self,
        alloc: Global,
        written: &Written<'a>,
        node: u32,
        module: Lexeme,
    ) -> Result<usize, Memory>
        requires within { IsWithinUnits written.now.text.now self.old }
        requires node { IsNode (world_at written.now self.old) node }
        requires lies { LiesIn written.now.text.now.source «module» }
        ensures made { IfOk result (λ j. MakesInstance (world_at written.now self.old) self.old
            self.new «module» (parts_at written.now.tree.now node) j) }
        ensures others { OnOk result (ChangesState self.old self.new) }
    {
        let names = Known {
            leads: &self.leads,
            files: self.files,
            modules: &self.modules.here,
        };
        let frame = self.frame;
        let mut rights = Vec::new(alloc);
        let mut roots = Vec::new(alloc);
        right_sides(
            alloc,
            &names,
            written,
            &mut self.state,
            frame,
            &[],
            node,
            module,
            &mut rights,
            &mut roots,
        )?;
        let j = instantiate(
            alloc,
            &names,
            written,
            &mut self.state,
            frame,
            frame,
            0,
            false,
            module,
            rights.as_slice(),
        )?;
        Ok(j)
    }

    // Walks behind an INSTANCE of a module, without a name.
    fn bring_instance(
        &mut self,
        alloc: Global,
        written: &Written<'a>,
        unit: &Unit,
        local: Option<Lexeme>,
        node: u32,
        module: Lexeme,
    ) -> Result<(), Memory>
        requires at { IsAtUnit written.now.text.now (unit_at written.now.tree.now unit.now)
            self.old }
        requires there { AreThere written.now.tree.now (nodes_in unit.now) }
        requires lie { AllByRecursion (LiesIn written.now.text.now.source)
            (unit_lexemes (unit_at written.now.tree.now unit.now)) }
        requires unit { unit.now ≡ units.Instance local node }
        requires node { IsNode (world_at written.now self.old) node }
        requires form { form_at written.now.tree.now node ≡ form.Instance «module» }
        requires whole { IsWhole written.now.tree.now node }
        requires lies { LiesIn written.now.text.now.source «module» }
        ensures { OnOk result (Walks written.now (unit_at written.now.tree.now unit.now) self.old
            self.new) }
    {
        let instance = self.make_instance(alloc, written, node, module)?;
        let entries = instance_entries(alloc, written.text, &self.reader, module)?;
        let face = self.face(written.text.spelled(module));
        self.leads.bring(entries.as_slice(), instance, face)?;
        self.reader.pass(alloc, written.text, written.tree, unit)?;
        Ok(())
    }

    /// Walks behind an INSTANCE without a name: makes its instance, and keeps where the names lead
    /// that it brings.
    pub(crate) fn bring(
        &mut self,
        alloc: Global,
        written: &Written<'a>,
        unit: &Unit,
        local: Option<Lexeme>,
        node: u32,
    ) -> Result<(), Memory>
        requires at { IsAtUnit written.now.text.now (unit_at written.now.tree.now unit.now)
            self.old }
        requires there { AreThere written.now.tree.now (nodes_in unit.now) }
        requires lie { AllByRecursion (LiesIn written.now.text.now.source)
            (unit_lexemes (unit_at written.now.tree.now unit.now)) }
        requires unit { unit.now ≡ units.Instance local node }
        requires node { IsNode (world_at written.now self.old) node }
        ensures { OnOk result (Walks written.now (unit_at written.now.tree.now unit.now) self.old
            self.new) }
    {
        let _children = written.tree.children(node);
        match written.tree.form(node) {
            Form::Instance(module) => {
                self.bring_instance(alloc, written, unit, local, node, module)?;
                Ok(())
            }
            _ => {
                self.reader.pass(alloc, written.text, written.tree, unit)?;
                Ok(())
            }
        }
    }
}
