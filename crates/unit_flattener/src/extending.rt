// Modules that are extended: each comes through an instance that lets its symbols stand.
ghost use Rattle.std.specs.Prelude.{[], ◌≡◌, ◌<◌, IfOk, OnOk, length};
ghost use Rattle.std.specs.List.{AllByRecursion};
ghost use Rattle.tla_model.specs.Lexemes.{LiesIn, spelled};
ghost use Rattle.module_leads.specs.Leading.{leading_in};
ghost use Rattle.module_leads.specs.Ways.{face_at};
ghost use Rattle.tree_flattener.specs.Worlds.{IsKnown, frame_at, setting_of, world_of};
ghost use Rattle.tree_names.specs.Parameters.{entries_in};
ghost use Rattle.unit_flattener.specs.Changes.{ChangesLeads, ChangesState};
ghost use Rattle.unit_flattener.specs.Walked.{Brings, BringsAll, ExtendsAll, IsExtended};
ghost use Rattle.unit_flattener.specs.Walked.{IsShared, MakesExtensions};
ghost use Rattle.unit_flattener.specs.Walking.{IsWithinUnits, face_number, world_at};

use crate::flattener::UnitFlattener;
use crate::known::Known;
use accepted_modules::views_go_together;
use brought_entries::{extended_entries, extended_table};
use kind_table::{Instance, Replacement};
use std::alloc::Global;
use tla_symbols::Lexeme;
use tool_list::Memory;
use tree_flattener::{Flattening, Names, Written, add_meaning, stay};
use tree_names::Parameter;

// Replaces the symbols of a module by those here that mean the same.
fn share<N: Names>(
    alloc: Global,
    names: &N,
    written: &Written<'_>,
    state: &mut Flattening,
    parameters: &[Parameter],
    made: &mut Vec<Replacement>,
) -> Result<(), Memory>
    requires known { IsKnown (world_of (N.leads names.now) (N.faces names.now) written.now)
        state.old }
    requires locals { state.old.locals.items ≡ [] }
    ensures { OnOk result (IsShared state.old state.new (N.leads names.now)
        (entries_in parameters.now) made.old.items made.new.items) }
{
    for parameter in parameters {
        let root = add_meaning(alloc, names, written, state, &parameter.meaning)?;
        made.push(Replacement { root, most: None })?;
    }
    Ok(())
}

// How many symbols a frame has.
fn frame_len(state: &Flattening, frame: usize) -> usize
    requires { frame < length state.now.frames.items }
    ensures { result ≡ length (frame_at state.now.frames.items frame) }
{
    state.frames[frame].len()
}

impl<'a> UnitFlattener<'a> {
    // Makes the instance through which the module of a name comes, and answers its number.
    fn make_extension(
        &mut self,
        alloc: Global,
        written: &Written<'a>,
        module: Lexeme,
    ) -> Result<usize, Memory>
        requires within { IsWithinUnits written.now.text.now self.old }
        requires lies { LiesIn written.now.text.now.source «module» }
        ensures made { IfOk result (λ j. IsExtended self.old.state self.new.state
            (setting_of (world_at written.now self.old) self.old.state self.old.frame [])
            (face_at (leading_in self.old.leads).faces (face_number self.old
            (spelled written.now.text.now.source «module»))) j) }
        ensures others { OnOk result (ChangesState self.old self.new) }
    {
        let face = self.face(written.text.spelled(module));
        let mut made = Vec::new(alloc);
        stay(alloc, &mut self.state, self.leads.outer(face), &mut made)?;
        let parameters = self.leads.parameters(alloc, face)?;
        let names = Known {
            leads: &self.leads,
            files: self.files,
            modules: &self.modules.here,
        };
        share(
            alloc,
            &names,
            written,
            &mut self.state,
            parameters.as_slice(),
            &mut made,
        )?;
        let outer = frame_len(&self.state, self.frame);
        let j = self.state.flat.instantiate(Instance {
            outer,
            parameters: 0,
            guards: false,
            replacements: made,
        })?;
        Ok(j)
    }

    // Makes the instances of all, before any of them brings names.
    fn make_extensions(
        &mut self,
        alloc: Global,
        written: &Written<'a>,
        modules: &[Lexeme],
    ) -> Result<Vec<usize>, Memory>
        requires within { IsWithinUnits written.now.text.now self.old }
        requires lie { AllByRecursion (LiesIn written.now.text.now.source) modules.now }
        ensures made { IfOk result (λ instances. MakesExtensions (world_at written.now self.old)
            self.old self.new modules.now instances.items) }
        ensures others { OnOk result (ChangesState self.old self.new) }
    {
        let mut instances = Vec::new(alloc);
        for module in modules {
            let j = self.make_extension(alloc, written, *module)?;
            instances.push(j)?;
        }
        Ok(instances)
    }

    // Keeps where the names lead that a module brings.
    fn bring_module(
        &mut self,
        alloc: Global,
        written: &Written<'a>,
        module: Lexeme,
        instance: usize,
    ) -> Result<(), Memory>
        requires { LiesIn written.now.text.now.source «module» }
        ensures brings { OnOk result (Brings written.now self.old self.new «module» instance) }
        ensures others { OnOk result (ChangesLeads self.old self.new) }
    {
        views_go_together();
        let name = written.text.spelled(module);
        let face = self.face(name);
        let Some(exports) = extended_table(&self.reader, name) else {
            let entries = extended_entries(alloc, &self.reader, name)?;
            self.leads.bring(entries.as_slice(), instance, face)?;
            return Ok(());
        };
        self.leads.bring_table(alloc, exports, instance, face)?;
        Ok(())
    }

    // The same of several modules.
    fn bring_modules(
        &mut self,
        alloc: Global,
        written: &Written<'a>,
        modules: &[Lexeme],
        instances: &[usize],
    ) -> Result<(), Memory>
        requires lie { AllByRecursion (LiesIn written.now.text.now.source) modules.now }
        requires each { length instances.now ≡ length modules.now }
        ensures brings { OnOk result (BringsAll written.now self.old self.new modules.now
            instances.now) }
        ensures others { OnOk result (ChangesLeads self.old self.new) }
    {
        for index in 0..modules.len() {
            self.bring_module(alloc, written, modules[index], instances[index])?;
        }
        Ok(())
    }

    /// Extends these modules: makes their instances, and keeps where the names lead that they
    /// bring.
    pub(crate) fn extend(
        &mut self,
        alloc: Global,
        written: &Written<'a>,
        modules: &[Lexeme],
    ) -> Result<(), Memory>
        requires within { IsWithinUnits written.now.text.now self.old }
        requires lie { AllByRecursion (LiesIn written.now.text.now.source) modules.now }
        ensures extended { OnOk result (ExtendsAll written.now modules.now self.old self.new) }
        ensures within { OnOk result (IsWithinUnits written.now.text.now self.new) }
    {
        let instances = self.make_extensions(alloc, written, modules)?;
        self.bring_modules(alloc, written, modules, instances.as_slice())?;
        Ok(())
    }
}
