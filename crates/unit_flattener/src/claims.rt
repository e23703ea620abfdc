// Assumptions and theorems.
ghost use Rattle.std.specs.Prelude.{◌≡◌, [], IfOk, OnOk};
ghost use Rattle.std.specs.List.{AllByRecursion};
ghost use Rattle.tla_tree.specs.Arena.{AreThere, tree_at};
ghost use Rattle.tla_tree.specs.declared.unit.Unit.TheVariants as units;
ghost use Rattle.tla_model.specs.Lexemes.{LiesIn, unit_lexemes};
ghost use Rattle.unit_grammar.specs.UnitNodes.{nodes_in, unit_at};
ghost use Rattle.tree_flattener.specs.Apart.{IsMadeClaim};
ghost use Rattle.tree_flattener.specs.Worlds.{IsNode};
ghost use Rattle.unit_flattener.specs.Changes.{ChangesState};
ghost use Rattle.unit_flattener.specs.Walked.{Walks};
ghost use Rattle.unit_flattener.specs.Walking.{IsAtUnit, IsWithinUnits, world_at};

use crate::flattener::UnitFlattener;
use crate::known::Known;
use std::alloc::Global;
use tla_symbols::Lexeme;
use tla_tree::Unit;
use tool_list::Memory;
use tree_flattener::{Written, ask_constant, claim};

impl<'a> UnitFlattener<'a> {
    // Makes the node of a claim, and answers its number.
    fn make_claim(
        &mut self,
        alloc: Global,
        written: &Written<'a>,
        word: Lexeme,
        node: u32,
    ) -> Result<usize, Memory>
        requires within { IsWithinUnits written.now.text.now self.old }
        requires node { IsNode (world_at written.now self.old) node }
        ensures made { IfOk result (λ i. IsMadeClaim (world_at written.now self.old)
            self.old.state self.new.state self.old.frame [] word
            (tree_at written.now.tree.now node) i) }
        ensures others { OnOk result (ChangesState self.old self.new) }
    {
        let names = Known {
            leads: &self.leads,
            files: self.files,
            modules: &self.modules.here,
        };
        claim(
            alloc,
            &names,
            written,
            &mut self.state,
            self.frame,
            &[],
            word,
            node,
        )
    }

    /// Walks behind an assumption: makes its node, and asks whether it is constant.
    pub(crate) fn assume(
        &mut self,
        alloc: Global,
        written: &Written<'a>,
        unit: &Unit,
        word: Lexeme,
        name: Option<Lexeme>,
        node: u32,
    ) -> Result<(), Memory>
        requires at { IsAtUnit written.now.text.now (unit_at written.now.tree.now unit.now)
            self.old }
        requires there { AreThere written.now.tree.now (nodes_in unit.now) }
        requires lie { AllByRecursion (LiesIn written.now.text.now.source)
            (unit_lexemes (unit_at written.now.tree.now unit.now)) }
        requires unit { unit.now ≡ units.Assumption word name node }
        requires node { IsNode (world_at written.now self.old) node }
        ensures { OnOk result (Walks written.now (unit_at written.now.tree.now unit.now) self.old
            self.new) }
    {
        let i = self.make_claim(alloc, written, word, node)?;
        ask_constant(&mut self.state, self.frame, written.tree.span(node), i)?;
        self.reader.pass(alloc, written.text, written.tree, unit)
    }

    /// Walks behind a theorem: makes its node.
    pub(crate) fn state_theorem(
        &mut self,
        alloc: Global,
        written: &Written<'a>,
        unit: &Unit,
        word: Lexeme,
        name: Option<Lexeme>,
        node: u32,
    ) -> Result<(), Memory>
        requires at { IsAtUnit written.now.text.now (unit_at written.now.tree.now unit.now)
            self.old }
        requires there { AreThere written.now.tree.now (nodes_in unit.now) }
        requires lie { AllByRecursion (LiesIn written.now.text.now.source)
            (unit_lexemes (unit_at written.now.tree.now unit.now)) }
        requires unit { unit.now ≡ units.Theorem word name node }
        requires node { IsNode (world_at written.now self.old) node }
        ensures { OnOk result (Walks written.now (unit_at written.now.tree.now unit.now) self.old
            self.new) }
    {
        let _node = self.make_claim(alloc, written, word, node)?;
        self.reader.pass(alloc, written.text, written.tree, unit)
    }
}
