// From bytes to a tree.
ghost use Rattle.std.specs.Prelude.{◌≡◌, ◌+◌, ◌*◌, ◌<◌, ◌≤◌, ◌^◌, List, Some, length, take, IfOk, IfErr};
ghost use Rattle.std.specs.List.{All, AllByRecursion};
ghost use Rattle.unit_grammar.specs.Units.{ModuleUnits};
ghost use Rattle.unit_grammar.specs.UnitNodes.{module_of};
ghost use Rattle.unit_heights.specs.FirstHigh.{BeginsFurther};
ghost use Rattle.unit_heights.specs.TooHigh.{IsRead};
ghost use Rattle.tla_model.specs.Entities.{declaring};
ghost use Rattle.tla_model.specs.Lexemes.{LexemesLie, LiesIn};
ghost use Rattle.tla_lexeme.specs.Spans.{IsPlaced};
ghost use Rattle.tla_lexeme.specs.ModulePart.{module_part};
ghost use Rattle.front_laws.specs.Fronts as fronts;
ghost use Rattle.front_laws.specs.Fronts.{Front, IsFront, IsTree, IsReadFront, readable_len};
ghost use Rattle.tla_front.specs.Faults.{IsFrontFault, IsFaultPlaced, IsFaultBehind, IsFaultOfLexemes};

use crate::fault::{
    MISNAMED, NO_HEADER, NOT_UTF8, TOO_HIGH, TOO_LARGE, fault_at, fault_of, syntax_fault,
};
use crate::name::is_spelled;
use std::alloc::Global;
use tla_lexeme::{LexError, lex};
use tla_model::Diagnostic;
use tla_symbols::Lexeme;
use tla_text::Text;
use tla_tree::ModuleTree;
use tool_list::{Chars, List, Memory};
use unit_heights::{MOST_HEIGHT, first_high};
use unit_parse::{ParseError, parse_module};

// The most bytes of one text.
const MOST_TEXT: usize = 1 << 20;

/// Why a module has no tree.
#[derive(Clone, Copy, Debug, PartialEq, Eq)]
pub enum FrontError {
    /// The first of the module's faults.
    Fault(Diagnostic),
    /// There was no room.
    Memory,
}

impl From<Memory> for FrontError {
    ghost use Rattle.tla_front.specs.declared.module.FrontError.{FrontError};
    ghost use Rattle.std.specs.Prelude.{◌≡◌};

    ghost from_gives = { λ _ e. e ≡ FrontError.Memory };

    fn from(_: Memory) -> Self {
        FrontError::Memory
    }
}

/// The tree of the module that these bytes are, for a file of this name, or the first of its faults:
/// 101 where the bytes are not UTF-8, 104 where they are more than 2^20, 102 where no header begins a
/// module, 201 or 202 at the first bad lexeme, 105 at the first unit that is higher than 1,000, and 103
/// where the module has another name than its file. `Memory` comes where there is no room.
/// The names and symbols of a tree lie in the bytes, it declares fewer than 2^32 names, and it has at
/// most 17 nodes for each byte, and 17.
pub fn front(alloc: Global, name: &str, bytes: &[u8]) -> Result<ModuleTree, FrontError>
    requires { length bytes.now < 2 ^ 31 }
    ensures tree { IfOk result (λ tree. (found : ModuleUnits)
        × IsFront name.now bytes.now (Front.Tree found) × IsTree tree found bytes.now) }
    ensures lexemes { IfOk result (λ tree. LexemesLie bytes.now (module_of tree)) }
    ensures few { IfOk result (λ tree. length (declaring (module_of tree).units) < 2 ^ 32) }
    ensures nodes { IfOk result (λ tree. length tree.tree ≤ 17 * (length bytes.now + 1)) }
    ensures fault { IfErr result (λ error. IsFrontFault name.now bytes.now error) }
    ensures placed { IfErr result
        (λ error. IsFaultPlaced (take (readable_len bytes.now) bytes.now) error) }
{
    match std::str::from_utf8(bytes) {
        Ok(source) => front_of_text(alloc, name, source),
        Err(error) => Err(FrontError::Fault(fault_at(NOT_UTF8, error.valid_up_to() as u32))),
    }
}

fn front_of_text(alloc: Global, name: &str, source: &str) -> Result<ModuleTree, FrontError>
    requires { length source.now < 2 ^ 31 }
    ensures tree { IfOk result (λ tree. (found : ModuleUnits)
        × IsFront name.now source.now (Front.Tree found) × IsTree tree found source.now) }
    ensures lexemes { IfOk result (λ tree. LexemesLie source.now (module_of tree)) }
    ensures few { IfOk result (λ tree. length (declaring (module_of tree).units) < 2 ^ 32) }
    ensures nodes { IfOk result (λ tree. length tree.tree ≤ 17 * (length source.now + 1)) }
    ensures fault { IfErr result (λ error. IsFrontFault name.now source.now error) }
    ensures placed { IfErr result (λ error. IsFaultPlaced source.now error) }
{
    if source.len() > MOST_TEXT {
        return Err(FrontError::Fault(fault_at(TOO_LARGE, 0)));
    }
    let text = Text::from_utf8(alloc, source.as_bytes())?;
    match lex(alloc, &text) {
        Ok(lexemes) => front_of_lexemes(alloc, name, source, &lexemes),
        Err(LexError::NoHeader) => Err(FrontError::Fault(fault_at(NO_HEADER, 0))),
        Err(LexError::Memory) => Err(FrontError::Memory),
    }
}

fn front_of_lexemes(
    alloc: Global,
    name: &str,
    source: &str,
    lexemes: &List<Lexeme>,
) -> Result<ModuleTree, FrontError>
    requires part { module_part source.now ≡ Some lexemes.now }
    requires placed { All (λ l. IsPlaced source.now l.span) lexemes.now }
    requires small { length source.now ≤ fronts.MOST_TEXT }
    ensures tree { IfOk result (λ tree. IsReadFront name.now source.now lexemes.now tree) }
    ensures lexemes { IfOk result (λ tree. LexemesLie source.now (module_of tree)) }
    ensures few { IfOk result (λ tree. length (declaring (module_of tree).units) < 2 ^ 32) }
    ensures nodes { IfOk result (λ tree. length tree.tree ≤ 17 * (length source.now + 1)) }
    ensures fault { IfErr result (λ error. IsFaultOfLexemes name.now source.now lexemes.now error) }
    ensures placed { IfErr result (λ error. IsFaultPlaced source.now error) }
{
    tla_lexeme::reads_longest();
    match parse_module(alloc, lexemes) {
        Ok(tree) => front_of_tree(alloc, name, source, lexemes.as_slice(), tree),
        Err(ParseError::FirstBad { index }) => Err(FrontError::Fault(bad_lexeme(
            lexemes.as_slice(),
            index,
        ))),
        Err(ParseError::Memory) => Err(FrontError::Memory),
    }
}

// The fault of the first bad lexeme, which is the one of this index.
fn bad_lexeme(lexemes: &[Lexeme], index: u32) -> Diagnostic
    requires { index < length lexemes.now }
    ensures { IsFaultBehind lexemes.now index result }
{
    syntax_fault(lexemes[index as usize])
}

fn front_of_tree(
    alloc: Global,
    name: &str,
    source: &str,
    lexemes: &[Lexeme],
    tree: ModuleTree,
) -> Result<ModuleTree, FrontError>
    requires read { IsRead tree lexemes.now }
    requires further { BeginsFurther 0 lexemes.now }
    requires few { length lexemes.now < 2 ^ 32 }
    requires nodes { length tree.tree ≤ 17 * length lexemes.now }
    requires placed { All (λ l. IsPlaced source.now l.span) lexemes.now }
    requires lie { AllByRecursion (LiesIn source.now) lexemes.now }
    ensures tree { IfOk result (λ tree. IsReadFront name.now source.now lexemes.now tree) }
    ensures lexemes { IfOk result (λ tree. LexemesLie source.now (module_of tree)) }
    ensures few { IfOk result (λ tree. length (declaring (module_of tree).units) < 2 ^ 32) }
    ensures nodes { IfOk result (λ whole. length whole.tree ≤ 17 * length lexemes.now) }
    ensures fault { IfErr result (λ error. IsFaultOfLexemes name.now source.now lexemes.now error) }
    ensures placed { IfErr result (λ error. IsFaultPlaced source.now error) }
{
    if tree.height > MOST_HEIGHT {
        let lexeme = first_high(&tree, lexemes);
        return Err(FrontError::Fault(fault_of(TOO_HIGH, lexeme)));
    }
    if !is_spelled(source, tree.name, name) {
        return Err(FrontError::Fault(fault_of(MISNAMED, tree.name)));
    }
    let whole = with_source(alloc, tree, source)?;
    Ok(whole)
}

fn with_source(alloc: Global, tree: ModuleTree, source: &str) -> Result<ModuleTree, Memory>
    ensures { IfOk result (λ whole. whole ≡ record tree { source = source.now }) }
{
    let source = Chars::from_str(alloc, source)?;
    Ok(ModuleTree { source, ..tree })
}
