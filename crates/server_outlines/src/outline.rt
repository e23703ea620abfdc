// The names of a module, with those of its nested modules inside them.
ghost use Rattle.std.specs.Prelude.{◌≡◌, ◌++◌, ◌∷◌, [], ℕ, List as ListOf, IfOk, OnOk, Some};
ghost use Rattle.std.specs.List.{AllByRecursion};
ghost use Rattle.front_laws.specs.Fronts.{IsFront, Tree as Whole};
ghost use Rattle.server_outlines.specs.Outlines as outlines;
ghost use Rattle.server_outlines.specs.Passing as passing;
ghost use Rattle.server_outlines.specs.Shown.{IsBeginShown, IsUnitShown};
ghost use Rattle.tla_model.specs.Lexemes.{LexemesLie, LiesIn};
ghost use Rattle.tla_tree.specs.Arena.{AreThere};
ghost use Rattle.unit_grammar.specs.UnitNodes.{HasNodes, module_of, nodes_in, unit_at};

use crate::units::{MODULE, push_unit};
use crate::walk::Walk;
use lsp_wire::{Area, Position, Symbol};
use span_laws::{front_nodes_placed, front_words_lie};
use std::alloc::Global;
use std::mem;
use tla_symbols::Lexeme;
use tla_text::Text;
use tla_tree::{ModuleTree, Tree, Unit};
use tool_list::{Chars, List, Memory};

/// A nested module whose end is not passed.
pub struct Begun {
    /// The area of its first dashes.
    pub dashes: Area,
    pub name: Chars,
    pub name_area: Area,
    /// The names before it in the module round it.
    pub before: List<Symbol>,
}

// By hand, so that a proof meets one call wherever a value ends.
impl Drop for Begun {
    fn drop(self) {
        let Begun {
            dashes: _,
            name: _,
            name_area: _,
            before: _,
        } = self;
    }
}

impl Begun {
    // The names before the module, and behind them the module itself, which ends here and has these
    // names in it.
    fn closed(self, end: Position, inside: List<Symbol>) -> Result<List<Symbol>, Memory>
        ensures { IfOk result (λ names. names
            ≡ self.before
            ++ passing.nested self (record { start = self.dashes.start; end = end }) inside
            ∷ []) }
    {
        let Begun {
            dashes,
            name,
            name_area,
            before,
        } = self;
        let mut names = before;
        names.push(Symbol {
            name,
            kind: MODULE,
            area: Area {
                start: dashes.start,
                end,
            },
            name_area,
            children: Some(inside),
        })?;
        Ok(names)
    }
}

/// The names of a module as far as its units are passed.
pub struct Outline {
    /// The nested modules round the place, the innermost one last.
    pub begun: Vec<Begun>,
    /// The names of the innermost module.
    pub symbols: List<Symbol>,
}

// By hand, so that a proof meets one call wherever a value ends.
impl Drop for Outline {
    fn drop(self) {
        let Outline {
            begun: _,
            symbols: _,
        } = self;
    }
}

impl Outline {
    fn new(alloc: Global) -> Outline
        ensures begun { result.begun.items ≡ [] }
        ensures symbols { result.symbols ≡ [] }
    {
        Outline {
            begun: Vec::new(alloc),
            symbols: List::new(alloc),
        }
    }

    // Goes into a nested module.
    fn begin(
        &mut self,
        alloc: Global,
        walk: &mut Walk,
        dashes: Lexeme,
        name: Lexeme,
    ) -> Result<(), Memory>
        requires { IsBeginShown walk.old dashes name }
        ensures names { OnOk result (passing.Leads walk.old
            (outlines.begun walk.old dashes name) self.old self.new) }
        ensures text { walk.new ≡ walk.old }
    {
        let dashes = walk.area(dashes.span);
        let name_area = walk.area(name.span);
        let name = walk.name(alloc, name)?;
        let before = mem::replace(&mut self.symbols, List::new(alloc));
        self.begun.push(Begun {
            dashes,
            name,
            name_area,
            before,
        })?;
        Ok(())
    }

    // Goes out of the innermost nested module, which is then a name of the module round it. It answers
    // whether there was one.
    fn end(&mut self, alloc: Global, walk: &mut Walk, closing: Lexeme) -> Result<bool, Memory>
        requires { LiesIn walk.old closing }
        ensures names { IfOk result (passing.IsPast walk.old
            (λ levels. outlines.closed_by (Some closing) ∷ levels) self.old self.new) }
        ensures text { walk.new ≡ walk.old }
    {
        let Some(begun) = self.begun.pop() else {
            return Ok(false);
        };
        let end = walk.position(closing.span.end);
        let inside = mem::replace(&mut self.symbols, List::new(alloc));
        self.symbols = begun.closed(end, inside)?;
        Ok(true)
    }

    // Goes over a unit. It answers whether names may follow: none do behind an end that ends no nested
    // module.
    fn pass(
        &mut self,
        alloc: Global,
        walk: &mut Walk,
        tree: &Tree,
        unit: &Unit,
    ) -> Result<bool, Memory>
        requires there { AreThere tree.now (nodes_in unit.now) }
        requires shown { IsUnitShown walk.old (unit_at tree.now unit.now) }
        ensures names { IfOk result (passing.IsPast walk.old
            (outlines.before_unit walk.old (unit_at tree.now unit.now)) self.old self.new) }
        ensures text { walk.new ≡ walk.old }
    {
        match unit {
            Unit::ModuleBegin { dashes, name, .. } => {
                self.begin(alloc, walk, *dashes, *name)?;
                Ok(true)
            }
            Unit::ModuleEnd(closing) => {
                let goes = self.end(alloc, walk, *closing)?;
                Ok(goes)
            }
            _ => {
                push_unit(alloc, &mut self.symbols, walk, tree, unit)?;
                Ok(true)
            }
        }
    }

    // The names of the whole module, behind its units. There are none where a nested module has no end.
    fn into_symbols(self, alloc: Global) -> List<Symbol>
        ensures { result ≡ passing.names_at_end self.begun.items self.symbols }
    {
        let Outline { begun, symbols } = self;
        if begun.is_empty() {
            symbols
        } else {
            List::new(alloc)
        }
    }
}

// The names of the units of a tree.
fn symbols_of_units(alloc: Global, text: &Text, tree: &ModuleTree) -> Result<List<Symbol>, Memory>
    requires nodes { HasNodes tree.now }
    requires shown { AllByRecursion
        (λ unit. IsUnitShown text.now (unit_at tree.now.tree unit)) tree.now.units }
    requires source { tree.now.source ≡ text.now }
    ensures { IfOk result
        (λ symbols. symbols ≡ outlines.symbols_by text.now (Whole (module_of tree.now))) }
{
    let mut walk = Walk::new(text, tree.source.as_str());
    let mut outline = Outline::new(alloc);
    for unit in tree.units.as_slice() {
        if !outline.pass(alloc, &mut walk, &tree.tree, unit)? {
            return Ok(outline.into_symbols(alloc));
        }
    }
    Ok(outline.into_symbols(alloc))
}

/// The names that a module declares and defines, in the order of its text: one symbol for each, and
/// the names in a nested module inside it. The tree is the front of the text, which is its source. Areas
/// are in lines from 0 and units of UTF-16. `Memory` comes where there is no room.
pub fn symbols_of(alloc: Global, text: &Text, tree: &ModuleTree) -> Result<List<Symbol>, Memory>
    requires front { (name : ListOf ℕ) × IsFront name text.now (Whole (module_of tree.now)) }
    requires nodes { HasNodes tree.now }
    requires lexemes { LexemesLie text.now (module_of tree.now) }
    requires source { tree.now.source ≡ text.now }
    ensures { IfOk result
        (λ symbols. symbols ≡ outlines.symbols_by text.now (Whole (module_of tree.now))) }
{
    front_nodes_placed();
    front_words_lie();
    symbols_of_units(alloc, text, tree)
}
