// Nested modules.
ghost use Rattle.std.specs.Prelude.{◌≡◌, ◌<◌, OnOk, length};
ghost use Rattle.std.specs.List.{AllByRecursion};
ghost use Rattle.tla_tree.specs.Arena.{AreThere};
ghost use Rattle.tla_model.specs.Lexemes.{LiesIn, unit_lexemes};
ghost use Rattle.module_leads.specs.Leading.{IsSound};
ghost use Rattle.tree_names.specs.Parameters.{entries_in};
ghost use Rattle.unit_grammar.specs.UnitNodes.{nodes_in, unit_at};
ghost use Rattle.unit_grammar.specs.Units.{ModuleEnd};
ghost use Rattle.unit_flattener.specs.Walked.{AreFramesThere, BeginsOver, Enters};
ghost use Rattle.unit_flattener.specs.Walked.{IsBegin, IsFrameEntered, LeavesFrame, Walks};
ghost use Rattle.unit_flattener.specs.Walking.{IsAtUnit, IsWithinUnits};

use crate::flattener::UnitFlattener;
use crate::meanings::with_more;
use crate::own::pop_own;
use brought_entries::{end_nested, exports};
use module_leads::table_entries;
use std::alloc::Global;
use tla_model::Meaning;
use tla_symbols::Lexeme;
use tla_tree::Unit;
use tool_list::{List, Memory};
use tree_flattener::{Written, add_frame};
use tree_names::Parameter;

impl<'a> UnitFlattener<'a> {
    // Puts symbols behind those of the frame, in a frame of their own, and goes there.
    fn enter_frame(&mut self, alloc: Global, own: &[Meaning]) -> Result<(), Memory>
        requires { self.old.frame < length self.old.state.frames.items }
        ensures { OnOk result (IsFrameEntered self.old self.new own.now) }
    {
        let frame = self.frame;
        let symbols = with_more(alloc, self.state.frames[frame].as_slice(), own)?;
        let place = self.state.frames[frame].len();
        self.leads.enter(alloc, own, place)?;
        let inner = add_frame(&mut self.state, symbols)?;
        self.round.push(frame)?;
        self.frame = inner;
        Ok(())
    }

    // Goes into a nested module, before what it extends: its own symbols stand behind those round
    // it.
    fn enter(
        &mut self,
        alloc: Global,
        written: &Written<'a>,
        unit: &Unit,
        name: Lexeme,
    ) -> Result<(), Memory>
        requires at { IsAtUnit written.now.text.now (unit_at written.now.tree.now unit.now)
            self.old }
        requires there { AreThere written.now.tree.now (nodes_in unit.now) }
        requires lie { AllByRecursion (LiesIn written.now.text.now.source)
            (unit_lexemes (unit_at written.now.tree.now unit.now)) }
        requires begins { IsBegin unit.now name }
        requires name { LiesIn written.now.text.now.source name }
        ensures entered { OnOk result (Enters written.now (unit_at written.now.tree.now unit.now)
            self.old self.new) }
        ensures within { OnOk result (IsWithinUnits written.now.text.now self.new) }
    {
        let own = pop_own(alloc, &mut self.own);
        self.modules.enter(written.text.spelled(name))?;
        self.enter_frame(alloc, own.as_slice())?;
        self.reader.pass(alloc, written.text, written.tree, unit)
    }

    /// Walks behind the begin of a nested module, and behind what it extends.
    pub(crate) fn begin(
        &mut self,
        alloc: Global,
        written: &Written<'a>,
        unit: &Unit,
        name: Lexeme,
        extends: &[Lexeme],
    ) -> Result<(), Memory>
        requires at { IsAtUnit written.now.text.now (unit_at written.now.tree.now unit.now)
            self.old }
        requires there { AreThere written.now.tree.now (nodes_in unit.now) }
        requires lie { AllByRecursion (LiesIn written.now.text.now.source)
            (unit_lexemes (unit_at written.now.tree.now unit.now)) }
        requires begins { BeginsOver unit.now name extends.now }
        requires name { LiesIn written.now.text.now.source name }
        requires below { AllByRecursion (LiesIn written.now.text.now.source) extends.now }
        ensures { OnOk result (Walks written.now (unit_at written.now.tree.now unit.now) self.old
            self.new) }
    {
        self.enter(alloc, written, unit, name)?;
        self.extend(alloc, written, extends)
    }

    // Goes round a nested module that has ended, and keeps what it is to its instances.
    fn leave_frame(
        &mut self,
        alloc: Global,
        parameters: List<Parameter>,
        entries: &[Parameter],
    ) -> Result<(), Memory>
        requires sound { IsSound self.old.leads }
        requires frames { AreFramesThere self.old }
        ensures { OnOk result (LeavesFrame self.old self.new (entries_in parameters)
            (entries_in entries.now)) }
    {
        let Some(outer) = self.round.pop() else {
            return Ok(());
        };
        let place = self.state.frames[outer].len();
        let face = self
            .leads
            .add_face(alloc, parameters, place, false, entries)?;
        self.leads.leave();
        self.frame = outer;
        self.modules.leave(face)
    }

    /// Walks behind the end of a nested module, which can then be named.
    pub(crate) fn end(
        &mut self,
        alloc: Global,
        written: &Written<'a>,
        closing: Lexeme,
    ) -> Result<(), Memory>
        requires at { IsAtUnit written.now.text.now (ModuleEnd closing) self.old }
        ensures { OnOk result (Walks written.now (ModuleEnd closing) self.old self.new) }
    {
        let table = exports(alloc, &self.reader)?;
        let entries = table_entries(alloc, &table)?;
        let parameters = end_nested(alloc, written.text, &mut self.reader)?;
        self.leave_frame(alloc, parameters, entries.as_slice())
    }
}
