// The modules and the instances that are known while a text is read.
ghost use Rattle.std.specs.Prelude.{◌≡◌, ◌++◌, ◌<◌, ◌∷◌, [], IfOk, IfSome, OnOk, Some, length, map, slice_get, suc};
ghost use Rattle.std.specs.List.{AllByRecursion};
ghost use Rattle.std.specs.Option.{option_copied};
ghost use Rattle.tla_tree.specs.Arena.{tree_at};
ghost use Rattle.tla_model.specs.Lexemes.{LiesIn, lexemes, spelled};
ghost use Rattle.module_model.specs.Exports as exports;
ghost use Rattle.module_model.specs.Exports.{and_known, exports_of};
ghost use Rattle.module_model.specs.Given.{AreFaces, AreReached};
ghost use Rattle.module_model.specs.Instances as instances;
ghost use Rattle.module_model.specs.NamedModules as named_modules;
ghost use Rattle.module_model.specs.NamedModules.{exported_known, unit_of};
ghost use Rattle.module_model.specs.TreeFindings as in_trees;
ghost use Rattle.name_context.specs.AsTables.{context_of};
ghost use Rattle.name_exports.specs.Brought.{IsBrought, IsJoined};
ghost use Rattle.instance_leads.specs.Leading.{AreNumbered, IsThere, behind_at, known_in, leads_on, view_at};
ghost use Rattle.instance_leads.specs.Found.{IsMeant, module_shown};
ghost use Rattle.tla_model.specs.Entities.{place_in};
ghost use Rattle.instance_names.specs.Named.{named_as};
ghost use Rattle.instance_scope.specs.Scoped.{AreGiven, IsEnded, IsSame, IsSound, around_in, known_of, module_in};

use crate::ending::{kept_leads, own_parameters};
use crate::round::Round;
use instance_leads::{
    Ended, Leads, NamedModule, Numbers, bring_ended, bring_ended_through, bring_face, face_leads,
    named_module,
};
use instance_names::NamedInstance;
use module_model::Imported;
use name_context::Context;
use name_exports::{Exported, Names, bring_import};
use std::alloc::Global;
use tla_model::{Finding, Meaning, Starts, UnitId};
use tla_symbols::Lexeme;
use tla_tree::Tree;
use tool_list::{Chars, List, Memory};
use tree_names::ModuleText;
use tree_scope::walk;
use tree_tasks::Held;

/// The modules and the instances that are known while a text is read.
pub struct Scope<'a> {
    // The name of the module of the text.
    pub title: &'a str,
    pub imported: &'a Imported,
    // In the order of their ends.
    pub nested: Vec<Ended<'a>>,
    // Where the instances lead that can be named.
    pub known: Leads<'a>,
    // Where the module names of instances begin in the text.
    pub words: Starts,
    // Where the paths through instances begin in the text.
    pub paths: Starts,
}

// By hand, so that a proof meets one call wherever a value ends.
impl<'a> Drop for Scope<'a> {
    fn drop(self) {
        let Scope {
            title: _,
            imported: _,
            nested: _,
            known: _,
            words: _,
            paths: _,
        } = self;
    }
}

impl<'a> Scope<'a> {
    /// Before a text is read: the name of its module, its imports, and where the module names of its instances, and its paths,
    /// begin.
    pub fn new(
        alloc: Global,
        title: &'a str,
        imported: &'a Imported,
        words: Starts,
        paths: Starts,
    ) -> Scope<'a>
        requires { AreFaces imported.now title.now }
        ensures sound { IsSound result }
        ensures known { known_of result ≡ exports.none_known }
        ensures nested { result.nested.items ≡ [] }
        ensures title { result.title.now ≡ title.now }
        ensures imported { result.imported.now ≡ imported.now }
        ensures words { result.words ≡ words }
        ensures paths { result.paths ≡ paths }
    {
        Scope {
            title,
            imported,
            nested: Vec::new(alloc),
            known: Leads::new(alloc),
            words,
            paths,
        }
    }

    /// The module that a name means.
    pub(crate) fn module_of(&self, modules: &Numbers<'a>, name: &str) -> NamedModule<'a>
        ensures shown { module_shown self.now.nested.items result
            ≡ module_in self.now modules.now name.now }
        ensures meant { IsMeant self.now.imported.now modules.now name.now result }
    {
        named_module(self.imported, modules, name)
    }

    /// The nested module of a number.
    pub(crate) fn ended(&self, number: usize) -> Option<&Ended<'a>>
        ensures { option_copied result ≡ slice_get self.now.nested.items number }
    {
        self.nested.get(number)
    }

    /// Where a name leads that means this.
    pub(crate) fn behind(&self, meaning: &Meaning) -> Held<'a>
        ensures { result ≡ leads_on self.now.known (Some meaning.now) }
    {
        self.known.on(Some(meaning))
    }

    /// The number of the path that begins there, from 1.
    pub(crate) fn path_number(&self, start: u32) -> u32
        ensures { result ≡ suc (place_in self.now.paths start) }
    {
        self.paths.place_of(start) + 1
    }

    /// Puts the names that the module of a name brings which is extended, and answers whether one of them
    /// clashes.
    pub fn bring_extended(
        &self,
        alloc: Global,
        modules: &Numbers<'a>,
        names: &mut Names<'a>,
        name: &str,
    ) -> Result<bool, Memory>
        ensures { IfOk result (λ clash. IsBrought names.old names.new clash
            (exports.exported (module_in self.now modules.now name.now))) }
    {
        match modules.meaning(name) {
            Some(Some(number)) => bring_ended(alloc, names, self.ended(*number)),
            Some(None) => Ok(false),
            None => bring_import(alloc, names, self.imported.get(name)),
        }
    }

    // An INSTANCE without a name, whose module's name this is.
    fn unit(&self, alloc: Global, text: &ModuleText<'a>, module: Lexeme) -> Result<UnitId, Memory>
        ensures { IfOk result (λ unit. unit ≡ unit_of text.now self.now.words «module») }
    {
        Ok(UnitId {
            module: Chars::from_str(alloc, text.file())?,
            place: self.words.place_of(module.span.start),
        })
    }

    // Puts the names that an INSTANCE brings of a module, and answers whether one of them clashes.
    fn bring_module(
        &self,
        alloc: Global,
        names: &mut Names<'a>,
        local: bool,
        unit: &UnitId,
        named: NamedModule<'a>,
    ) -> Result<bool, Memory>
        ensures { IfOk result (λ clash. IsJoined local names.old names.new clash
            (instances.brought_by unit.now
            (module_shown self.now.nested.items named.entry))) }
    {
        match named {
            NamedModule::Missing => Ok(false),
            NamedModule::Imported { face } => bring_face(alloc, names, local, unit, face),
            NamedModule::Nested { number } => {
                bring_ended_through(alloc, names, local, unit, self.ended(number))
            }
        }
    }

    /// Puts the names that an INSTANCE without a name brings, whose module's name this is, and answers
    /// whether one of them clashes.
    pub fn bring_instance(
        &self,
        alloc: Global,
        text: &ModuleText<'a>,
        modules: &Numbers<'a>,
        names: &mut Names<'a>,
        local: bool,
        module: Lexeme,
    ) -> Result<bool, Memory>
        requires { LiesIn text.now.source «module» }
        ensures { IfOk result (λ clash. IsJoined local names.old names.new clash
            (instances.brought_by (unit_of text.now self.now.words «module»)
            (module_in self.now modules.now (spelled text.now.source «module»)))) }
    {
        let named = self.module_of(modules, text.spelled(module));
        let unit = self.unit(alloc, text, module)?;
        let clash = self.bring_module(alloc, names, local, &unit, named)?;
        Ok(clash)
    }

    // Notes where instances lead, unless it is noted.
    fn note(&mut self, more: &Leads<'a>) -> Result<(), Memory>
        requires sound { IsSound self.old }
        requires given { AreGiven self.old more.now }
        ensures sound { OnOk result (IsSound self.new) }
        ensures same { OnOk result (IsSame self.old self.new) }
        ensures known { OnOk result (known_of self.new
            ≡ and_known (known_of self.old) (known_in self.old.nested.items more.now)) }
    {
        self.known.join(more)
    }

    // Where an instance of a module leads that a text names.
    fn held_named(
        &self,
        text: &ModuleText<'a>,
        modules: &Numbers<'a>,
        module: Option<Lexeme>,
    ) -> Held<'a>
        requires numbered { AreNumbered (length self.now.nested.items) modules.now }
        requires lies { IfSome «module» (LiesIn text.now.source) }
        ensures behind { behind_at self.now.nested.items result
            ≡ named_modules.behind_named text.now (module_in self.now modules.now) «module» }
        ensures there { IsThere self.now.imported.now
            (length self.now.nested.items) result }
    {
        match module {
            Some(name) => self.module_of(modules, text.spelled(name)).held(),
            None => Held::Nowhere,
        }
    }

    // Notes where an instance leads that a text names.
    fn lead_named(
        &self,
        text: &ModuleText<'a>,
        modules: &Numbers<'a>,
        instance: NamedInstance,
        more: &mut Leads<'a>,
    ) -> Result<(), Memory>
        requires numbered { AreNumbered (length self.now.nested.items) modules.now }
        requires title { text.now.file ≡ self.now.title.now }
        requires lies { IfSome instance.«module» (LiesIn text.now.source) }
        requires given { AreGiven self.now more.old }
        ensures given { OnOk result (AreGiven self.now more.new) }
        ensures known { OnOk result (known_in self.now.nested.items more.new
            ≡ and_known (known_in self.now.nested.items more.old)
            (named_modules.known_named text.now (module_in self.now modules.now)
            (named_as instance ∷ []))) }
    {
        let held = self.held_named(text, modules, instance.module);
        more.put(text.file(), text.place(instance.name), held)
    }

    // Where the instances lead that a text names.
    fn leads_named(
        &self,
        alloc: Global,
        text: &ModuleText<'a>,
        modules: &Numbers<'a>,
        instances: &[NamedInstance],
    ) -> Result<Leads<'a>, Memory>
        requires numbered { AreNumbered (length self.now.nested.items) modules.now }
        requires title { text.now.file ≡ self.now.title.now }
        requires modules { AllByRecursion
            (λ i. IfSome i.«module» (LiesIn text.now.source)) instances.now }
        ensures given { IfOk result (AreGiven self.now) }
        ensures known { IfOk result (λ more. known_in self.now.nested.items more
            ≡ named_modules.known_named text.now (module_in self.now modules.now)
            (map named_as instances.now)) }
    {
        let mut more = Leads::new(alloc);
        for instance in instances {
            self.lead_named(text, modules, *instance, &mut more)?;
        }
        Ok(more)
    }

    // Where the instances lead that the module of a name exports, as far as it is not known. What nested
    // modules say of instances is known.
    fn leads_exported(
        &self,
        alloc: Global,
        modules: &Numbers<'a>,
        name: &str,
    ) -> Result<Leads<'a>, Memory>
        requires sound { IsSound self.now }
        ensures given { IfOk result (AreGiven self.now) }
        ensures known { IfOk result (λ more. and_known (known_of self.now)
            (known_in self.now.nested.items more)
            ≡ and_known (known_of self.now)
            (exported_known (module_in self.now modules.now name.now))) }
    {
        match self.module_of(modules, name) {
            NamedModule::Missing => Ok(Leads::new(alloc)),
            NamedModule::Imported { face } => face_leads(alloc, face),
            NamedModule::Nested { .. } => Ok(Leads::new(alloc)),
        }
    }

    /// Notes where the instances lead that the module of a name exports, which is extended or brought by
    /// INSTANCE.
    pub fn note_exported(
        &mut self,
        alloc: Global,
        modules: &Numbers<'a>,
        name: &str,
    ) -> Result<(), Memory>
        requires sound { IsSound self.old }
        requires numbered { AreNumbered (length self.old.nested.items) modules.now }
        ensures sound { OnOk result (IsSound self.new) }
        ensures same { OnOk result (IsSame self.old self.new) }
        ensures known { OnOk result (known_of self.new
            ≡ and_known (known_of self.old)
            (exported_known (module_in self.old modules.now name.now))) }
    {
        let more = self.leads_exported(alloc, modules, name)?;
        self.note(&more)
    }

    /// Notes where the instances lead that a text names, by the modules that can be named there.
    pub fn note_named(
        &mut self,
        alloc: Global,
        text: &ModuleText<'a>,
        modules: &Numbers<'a>,
        instances: &[NamedInstance],
    ) -> Result<(), Memory>
        requires sound { IsSound self.old }
        requires numbered { AreNumbered (length self.old.nested.items) modules.now }
        requires title { text.now.file ≡ self.old.title.now }
        requires names { AllByRecursion (λ i. LiesIn text.now.source i.name) instances.now }
        requires modules { AllByRecursion
            (λ i. IfSome i.«module» (LiesIn text.now.source)) instances.now }
        ensures sound { OnOk result (IsSound self.new) }
        ensures same { OnOk result (IsSame self.old self.new) }
        ensures known { OnOk result (known_of self.new
            ≡ and_known (known_of self.old)
            (named_modules.known_named text.now (module_in self.old modules.now)
            (map named_as instances.now))) }
    {
        let more = self.leads_named(alloc, text, modules, instances)?;
        self.note(&more)
    }

    /// Keeps a nested module that has ended, by what it exports and by the context round it, and answers
    /// its number.
    pub fn end(
        &mut self,
        alloc: Global,
        exports: Exported<'a>,
        context: &Context<'a>,
    ) -> Result<usize, Memory>
        requires sound { IsSound self.old }
        requires reached { AreReached (known_of self.old) (exports_of exports) }
        ensures sound { OnOk result (IsSound self.new) }
        ensures kept { OnOk result (IsEnded self.old self.new) }
        ensures known { OnOk result (known_of self.new ≡ known_of self.old) }
        ensures number { IfOk result (λ number. number ≡ length self.old.nested.items) }
        ensures view { OnOk result (view_at self.new.nested.items (length self.old.nested.items)
            ≡ instances.nested_view (known_of self.old) (context_of context.now)
            (exports_of exports.entry)) }
    {
        let number = self.nested.len();
        let parameters = own_parameters(alloc, &exports, context)?;
        let instances = kept_leads(alloc, &self.known, &exports)?;
        self.nested.push(Ended {
            exports,
            parameters,
            instances,
        })?;
        Ok(number)
    }

    /// Appends what is found in the tree below a node, in the order of the text. The context is behind it
    /// as it was before.
    pub fn walk(
        &self,
        alloc: Global,
        text: &ModuleText<'a>,
        modules: &Numbers<'a>,
        tree: &Tree,
        node: u32,
        context: &mut Context<'a>,
        findings: &mut List<Finding>,
    ) -> Result<(), Memory>
        requires there { node < length tree.now }
        requires lie { AllByRecursion (LiesIn text.now.source) (lexemes (tree_at tree.now node)) }
        ensures context { OnOk result (context_of context.new ≡ context_of context.old) }
        ensures findings { OnOk result (findings.new ≡ findings.old
            ++ in_trees.walk text.now (around_in self.now modules.now) (context_of context.old)
            (tree_at tree.now node)) }
    {
        let round = Round {
            scope: self,
            modules,
        };
        walk(alloc, text, &round, tree, node, context, findings)
    }
}
