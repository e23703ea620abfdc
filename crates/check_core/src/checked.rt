// A module that was checked.
ghost use Rattle.std.specs.Prelude.{◌≡◌, ◌++◌, ◌+◌, ◌-◌, ◌^◌, [], min, IfOk};
ghost use Rattle.unit_grammar.specs.UnitNodes.{module_of};
ghost use Rattle.tla_model.specs.Entities.{declaring};
ghost use Rattle.tla_model.specs.Lexemes.{spelled};
ghost use Rattle.module_model.specs.Given.{AreFaces, IsFaceOver, IsReadable};
ghost use Rattle.module_facts.specs.Checks.{facts_of, facts_told, given_in};
ghost use Rattle.module_faces.specs.Faces.{IsRefusedFace};
ghost use Rattle.module_model.specs.Bindings.{AreInOrder};
ghost use Rattle.module_model.specs.Exports.{files_of};
ghost use Rattle.module_model.specs.Modules.{text_of};
ghost use Rattle.module_model.specs.Resolution.{findings};
ghost use Rattle.written_names.specs.Names.{AreNamesOf};
ghost use Rattle.check_core.specs.Outcomes as outcomes;
ghost use Rattle.check_core.specs.Outcomes.{IsFaceWith, IsJudged, IsRefused, IsResolved, IsWithArities};
ghost use Rattle.std.specs.Arc.{arc_value};

use arity_rules::check_arity;
use module_faces::{import_faults, shared_face};
use module_graph::{lexemes_lie_names, named_modules};
use module_model::{Bound, Face, Imported, in_order};
use std::alloc::Global;
use std::marker::Model;
use std::mem;
use std::sync::Arc;
use step_count::Steps;
use symbol_scope::{Resolved, resolve};
use tla_model::{Binder, Decl, Diagnostic, Use};
use tla_tree::ModuleTree;
use tool_list::{List, Memory};
use tree_names::ModuleText;
use written_names::WrittenNames;

/// What a check of a module found. Only `check_module` makes one. Contracts see its faults, uses and
/// declarations, and its face.
pub struct Checked {
    faults: List<Diagnostic>,
    uses: List<Use>,
    decls: List<Decl>,
    face: Arc<Face>,
}

// By hand, so that a proof meets one call wherever a value ends.
impl Drop for Checked {
    fn drop(self) {
        let Checked {
            faults: _,
            uses: _,
            decls: _,
            face: _,
        } = self;
    }
}

impl Model for Checked {
    ghost use Rattle.module_facts.specs.Checks.{CheckedModule};
    ghost use Rattle.std.specs.Arc.{arc_value};

    ghost Value = { CheckedModule };

    ghost view = { λ c. record {
      faults = c.faults;
      uses = c.uses;
      decls = c.decls;
      face = arc_value c.face;
    } };
}

impl Checked {
    /// The faults of imports, or else those of names and arities: by start, then end, then code. A module
    /// is accepted where there is none.
    pub fn faults(&self) -> &List<Diagnostic>
        ensures { result.now ≡ self.now.faults }
    {
        &self.faults
    }

    /// The uses that mean a declaration, in the order of the text. There are none after a fault of an
    /// import.
    pub fn uses(&self) -> &List<Use>
        ensures { result.now ≡ self.now.uses }
    {
        &self.uses
    }

    /// The names that the text declares, in its order. There are none after a fault of an import.
    pub fn decls(&self) -> &List<Decl>
        ensures { result.now ≡ self.now.decls }
    {
        &self.decls
    }

    /// Its uses and declarations.
    pub fn into_names(self) -> (List<Use>, List<Decl>)
        ensures uses { result.0 ≡ self.uses }
        ensures decls { result.1 ≡ self.decls }
    {
        let Checked {
            faults: _,
            uses,
            decls,
            face: _,
        } = self;
        (uses, decls)
    }

    /// What the module is to those that name it: it exports nothing where it is not accepted.
    pub fn face(&self) -> &Arc<Face>
        ensures { arc_value result.now ≡ self.now.face }
    {
        &self.face
    }
}

// A module without uses and declarations, which has these faults in some order.
fn without_names(alloc: Global, faults: List<Diagnostic>, face: Arc<Face>) -> Checked
    ensures found { IsRefused faults result }
    ensures face { result.face ≡ arc_value face }
{
    Checked {
        faults: in_order(faults),
        uses: List::new(alloc),
        decls: List::new(alloc),
        face,
    }
}

// A module with faults of imports, which exports nothing. Its names mean nothing.
fn refused(
    alloc: Global,
    name: &str,
    faults: List<Diagnostic>,
) -> Result<(Checked, WrittenNames), Memory>
    ensures found { IfOk result (λ made. IsRefused faults made.0) }
    ensures face { IfOk result (λ made. IsRefusedFace name.now made.0.face) }
{
    let face = shared_face(alloc, name, None)?;
    Ok((without_names(alloc, faults, face), WrittenNames::new(alloc)))
}

// A module with what its names stand for, and its face.
fn with_names(alloc: Global, bound: Bound, face: Arc<Face>) -> Checked
    ensures faults { result.faults ≡ bound.faults }
    ensures uses { result.uses ≡ bound.uses }
    ensures decls { result.decls ≡ bound.decls }
    ensures face { result.face ≡ arc_value face }
{
    let mut bound = bound;
    Checked {
        faults: mem::replace(&mut bound.faults, List::new(alloc)),
        uses: mem::replace(&mut bound.uses, List::new(alloc)),
        decls: mem::replace(&mut bound.decls, List::new(alloc)),
        face,
    }
}

// Faults with others behind them, in order.
fn joined(faults: List<Diagnostic>, more: List<Diagnostic>) -> Result<List<Diagnostic>, Memory>
    ensures { IfOk result (λ all. AreInOrder (faults ++ more) all) }
{
    let mut all = faults;
    for fault in more.into_vec() {
        all.push(fault)?;
    }
    Ok(in_order(all))
}

// The face, unless there is a fault.
fn face_unless(faults: &List<Diagnostic>, face: Option<Face>) -> Option<Face>
    ensures { result ≡ outcomes.face_unless faults.now face }
{
    if faults.is_empty() { face } else { None }
}

// What names stand for, with faults of arities among those of names.
fn with_arities(
    alloc: Global,
    found: Resolved,
    arities: List<Diagnostic>,
) -> Result<Resolved, Memory>
    ensures arities { IfOk result
        (λ judged. IsWithArities arities found.bound found.face judged.bound judged.face) }
    ensures names { IfOk result (λ judged. judged.names ≡ found.names) }
{
    let Resolved {
        mut bound,
        names,
        face,
    } = found;
    let face = face_unless(&arities, face);
    let faults = mem::replace(&mut bound.faults, List::new(alloc));
    bound.faults = joined(faults, arities)?;
    Ok(Resolved { bound, names, face })
}

// What the names of a module stand for whose imports are accepted, and what is at fault with names and
// arities.
fn judged(
    alloc: Global,
    text: &ModuleText<'_>,
    names: List<Binder>,
    tree: &ModuleTree,
    imported: &Imported,
) -> Result<Resolved, Memory>
    requires readable { IsReadable tree.now }
    requires text { text.now ≡ text_of tree.now.source (module_of tree.now) }
    requires names { names ≡ declaring (module_of tree.now).units }
    requires faces { AreFaces imported.now (spelled tree.now.source tree.now.name) }
    ensures judged { IfOk result (λ judged. IsJudged imported.now tree.now.source
        (module_of tree.now) judged.bound judged.face) }
    ensures names { IfOk result (λ judged. AreNamesOf
        (findings (files_of imported.now) tree.now.source (module_of tree.now)) judged.names) }
{
    let found = resolve(alloc, text, names, tree, imported)?;
    let arities = check_arity(alloc, tree, &found.bound)?;
    with_arities(alloc, found, arities)
}

// A module whose imports are accepted.
fn resolved(
    alloc: Global,
    name: &str,
    text: &ModuleText<'_>,
    names: List<Binder>,
    tree: &ModuleTree,
    imported: &Imported,
) -> Result<(Checked, WrittenNames), Memory>
    requires readable { IsReadable tree.now }
    requires text { text.now ≡ text_of tree.now.source (module_of tree.now) }
    requires names { names ≡ declaring (module_of tree.now).units }
    requires faces { AreFaces imported.now name.now }
    requires name { spelled tree.now.source tree.now.name ≡ name.now }
    ensures found { IfOk result
        (λ made. IsResolved imported.now tree.now.source (module_of tree.now) made.0) }
    ensures face { IfOk result (λ made. IsFaceWith imported.now tree.now.source
        (module_of tree.now) made.0.faults made.0.face) }
    ensures names { IfOk result (λ made. AreNamesOf
        (findings (files_of imported.now) tree.now.source (module_of tree.now)) made.1) }
{
    let found = judged(alloc, text, names, tree, imported)?;
    let Resolved {
        bound,
        names: means,
        face,
    } = found;
    let face = shared_face(alloc, name, face)?;
    Ok((with_names(alloc, bound, face), means))
}

/// Checks a module over the modules that it names, which is one step, by its text and the names that
/// this declares. Its face holds what its exports reach; one that is not accepted exports nothing.
/// Beside it stands what each of its names means where it is accepted. `Memory` comes where there was
/// no room.
pub fn check_module<L>(
    alloc: Global,
    name: &str,
    text: &ModuleText<'_>,
    names: List<Binder>,
    tree: &ModuleTree,
    imported: &Imported,
    steps: &mut Steps<L>,
) -> Result<(Checked, WrittenNames), Memory>
    requires readable { IsReadable tree.now }
    requires text { text.now ≡ text_of tree.now.source (module_of tree.now) }
    requires names { names ≡ declaring (module_of tree.now).units }
    requires faces { AreFaces imported.now name.now }
    requires name { spelled tree.now.source tree.now.name ≡ name.now }
    ensures facts { IfOk result (λ made. facts_told made.0
        ≡ facts_of (given_in imported.now) tree.now.source (module_of tree.now)) }
    ensures face { IfOk result (λ made. IsFaceOver imported.now name.now made.0.face) }
    ensures names { IfOk result (λ made. made.0.faults ≡ [] → AreNamesOf
        (findings (files_of imported.now) tree.now.source (module_of tree.now)) made.1) }
    ensures tick { steps.new ≡ min (steps.old + 1) (2 ^ 64 - 1) }
{
    steps.tick();
    lexemes_lie_names();
    let named = named_modules(alloc, tree)?;
    let faults = import_faults(alloc, tree, imported, &named)?;
    if !faults.is_empty() {
        return refused(alloc, name, faults);
    }
    resolved(alloc, name, text, names, tree, imported)
}
