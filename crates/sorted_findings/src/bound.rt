// What is found, as uses and faults.
ghost use Rattle.std.specs.Prelude.{◌≡◌, ◌++◌, ◌∷◌, [], OnOk};
ghost use Rattle.module_model.specs.Bindings as bindings;
ghost use Rattle.tla_model.specs.declared.names.Meaning.TheVariants as means;
ghost use Rattle.tla_model.specs.declared.ids.Callee.{Callee as Called};
ghost use Rattle.sorted_findings.specs.Sorting.{HasMore, IsNothing};

use module_model::{Bound, Implied, in_order};
use std::alloc::Global;
use std::mem;
use tla_model::{Callee, DeclId, Diagnostic, Entity, Finding, Level, Meaning, Use};
use tla_symbols::Lexeme;
use tool_list::{List, Memory};

/// No name that stands for anything.
pub fn nothing(alloc: Global) -> Bound
    ensures { IsNothing result }
{
    Bound {
        uses: List::new(alloc),
        entities: List::new(alloc),
        callees: List::new(alloc),
        implied: List::new(alloc),
        decls: List::new(alloc),
        faults: List::new(alloc),
    }
}

// Appends a use of a declaration.
fn push_use(uses: &mut List<Use>, at: Lexeme, decl: &DeclId) -> Result<(), Memory>
    ensures { OnOk result (uses.new ≡ uses.old ++ bindings.use_of at decl.now ∷ []) }
{
    let module = decl.module.copied()?;
    uses.push(Use {
        name: at.span,
        module,
        place: decl.place,
        level: Level::Constant,
    })
}

// Appends a use, with what it stands for and calls.
fn push_declared(
    bound: &mut Bound,
    at: Lexeme,
    entity: Entity,
    callee: Callee,
) -> Result<(), Memory>
    ensures { OnOk result
        (HasMore (bindings.meant_by at (means.Declared entity callee)) [] [] bound.old bound.new) }
{
    push_use(&mut bound.uses, at, &callee.decl)?;
    bound.entities.push(entity)?;
    bound.callees.push(callee)?;
    Ok(())
}

// Appends a use, unless its name is built in.
fn push_meaning(bound: &mut Bound, at: Lexeme, meaning: Meaning) -> Result<(), Memory>
    ensures { OnOk result (HasMore (bindings.meant_by at meaning) [] [] bound.old bound.new) }
{
    match meaning.into_declared() {
        None => Ok(()),
        Some((entity, callee)) => push_declared(bound, at, entity, callee),
    }
}

// Appends a fault.
fn push_fault(faults: &mut List<Diagnostic>, code: u16, at: Lexeme) -> Result<(), Memory>
    ensures { OnOk result (faults.new ≡ faults.old ++ bindings.fault_at code at) }
{
    faults.push(Diagnostic {
        code,
        span: at.span,
    })
}

// Appends a replacement by a symbol of this meaning, unless it is built in.
fn push_replaced(
    implied: &mut List<Implied>,
    at: Lexeme,
    parameter: Entity,
    meaning: Meaning,
) -> Result<(), Memory>
    ensures { OnOk result ((callee : Called)
        → implied.new
        ≡ implied.old ++ bindings.replaced_by at (means.Declared parameter callee) meaning) }
{
    match meaning.into_declared() {
        None => Ok(()),
        Some((symbol, callee)) => implied.push(Implied {
            at: at.span,
            parameter,
            symbol,
            callee,
        }),
    }
}

// Appends a replacement that is not written, unless a name is built in.
fn push_implied(
    implied: &mut List<Implied>,
    at: Lexeme,
    parameter: Meaning,
    meaning: Meaning,
) -> Result<(), Memory>
    ensures { OnOk result (implied.new ≡ implied.old ++ bindings.replaced_by at parameter meaning) }
{
    match parameter.into_declared() {
        None => Ok(()),
        Some((entity, _)) => push_replaced(implied, at, entity, meaning),
    }
}

// Appends what is found at a name.
fn push(bound: &mut Bound, finding: Finding) -> Result<(), Memory>
    ensures { OnOk result (HasMore (bindings.resolved_at finding) (bindings.implied_at finding)
        (bindings.fault finding) bound.old bound.new) }
{
    match finding {
        Finding::Means { at, meaning } => push_meaning(bound, at, meaning),
        Finding::Unknown { at } => push_fault(&mut bound.faults, 401, at),
        Finding::Taken { at } => push_fault(&mut bound.faults, 402, at),
        Finding::Clashes { at } => push_fault(&mut bound.faults, 403, at),
        Finding::InstanceClashes { at } => push_fault(&mut bound.faults, 404, at),
        Finding::NotReplaceable { at } => push_fault(&mut bound.faults, 405, at),
        Finding::ReplacedTwice { at } => push_fault(&mut bound.faults, 406, at),
        Finding::Unreplaced { at } => push_fault(&mut bound.faults, 407, at),
        Finding::Implied {
            at,
            parameter,
            meaning,
        } => push_implied(&mut bound.implied, at, parameter, meaning),
    }
}

/// Appends the uses, the replacements that are not written, and the faults among what is found, in its
/// order.
pub fn sort_out(findings: List<Finding>, bound: &mut Bound) -> Result<(), Memory>
    ensures { OnOk result (HasMore (bindings.resolved findings) (bindings.implied findings)
        (bindings.faults findings) bound.old bound.new) }
{
    for finding in findings.into_vec() {
        push(bound, finding)?;
    }
    Ok(())
}

/// Puts faults in order, each once.
pub fn order(alloc: Global, faults: &mut List<Diagnostic>)
    ensures { bindings.AreInOrder faults.old faults.new }
{
    let all = mem::replace(faults, List::new(alloc));
    *faults = in_order(all);
}
