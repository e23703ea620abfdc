// Findings as faults, and as levels of uses.
ghost use Rattle.std.specs.Prelude.{◌≡◌, ◌++◌, ℕ, IfOk, OnOk, nat_eq};
ghost use Rattle.indexmap.specs.IndexMap.{get};
ghost use Rattle.module_kinds.specs.ModuleKinds.{depth_faults as deep_faults, level_fault, level_faults as high_faults};
ghost use Rattle.module_kinds.specs.ModuleKinds.{level_of};
ghost use Rattle.found_levels.specs.Findings.{finding_of, findings_of, level_before, or_constant};

use crate::findings::LevelFinding;
use indexmap::IndexMap;
use std::alloc::Global;
use tla_model::{Diagnostic, Level};
use tla_symbols::Lexeme;
use tool_list::{List, Memory};

/// What is written is too deep.
const TOO_DEEP: u16 = 106;

/// What is written has no level, though its parts have one.
const REFUSED: u16 = 601;

/// An assumption is not constant.
const NOT_CONSTANT: u16 = 602;

/// A replacement has a higher level than it may have.
const TOO_HIGH: u16 = 603;

/// The faults of depth, by where what is too deep stands, in their order.
pub fn depth_faults(alloc: Global, deep: &[Lexeme]) -> Result<List<Diagnostic>, Memory>
    ensures { IfOk result (λ faults. faults ≡ deep_faults deep.now) }
{
    let mut faults = List::new(alloc);
    for name in deep {
        faults.push(Diagnostic {
            code: TOO_DEEP,
            span: name.span,
        })?;
    }
    Ok(faults)
}

/// The faults of levels, in the order in which they were found.
pub fn level_faults(alloc: Global, found: &[LevelFinding]) -> Result<List<Diagnostic>, Memory>
    ensures { IfOk result (λ faults. faults ≡ high_faults (findings_of found.now)) }
{
    let mut faults = List::new(alloc);
    for finding in found {
        put_fault(&mut faults, *finding)?;
    }
    Ok(faults)
}

// Appends what is a fault.
fn put_fault(faults: &mut List<Diagnostic>, finding: LevelFinding) -> Result<(), Memory>
    ensures { OnOk result (faults.new ≡ faults.old ++ level_fault (finding_of finding)) }
{
    let (code, span) = match finding {
        LevelFinding::Refused { at } => (REFUSED, at),
        LevelFinding::NotConstant { at } => (NOT_CONSTANT, at),
        LevelFinding::TooHigh { at } => (TOO_HIGH, at),
        LevelFinding::Leveled { .. } => return Ok(()),
    };
    faults.push(Diagnostic { code, span })
}

/// The levels of uses, by where they begin, in bytes. Of two uses that begin at one place the first
/// counts.
pub fn levels_of_uses(alloc: Global, found: &[LevelFinding]) -> Result<IndexMap<u32, Level>, Memory>
    ensures { IfOk result (λ levels. (start : ℕ)
        → or_constant (get nat_eq levels start) ≡ level_of (findings_of found.now) start) }
{
    let mut levels = IndexMap::with_capacity(alloc, found.len())?;
    let mut index = found.len();
    while index > 0 {
        index -= 1;
        put_level(&mut levels, found[index])?;
    }
    Ok(levels)
}

// Keeps the level of a use, in the place of one behind it that begins where it does.
fn put_level(levels: &mut IndexMap<u32, Level>, finding: LevelFinding) -> Result<(), Memory>
    ensures { OnOk result ((start : ℕ) → get nat_eq levels.new start
        ≡ level_before (finding_of finding) (get nat_eq levels.old start) start) }
{
    if let LevelFinding::Leveled { name, level } = finding {
        levels.insert(name.span.start, level)?;
    }
    Ok(())
}
