// What is known at a place of a module of where names lead.
ghost use Rattle.std.specs.Prelude.{◌≡◌, ◌∷◌, IfNone, IfOk, IfSome, IsTrue, OnOk, Some, length, map};
ghost use Rattle.module_model.specs.Exports.{exports_of, instantiable, of_symbols, of_words};
ghost use Rattle.name_context.specs.AsTables.{meant_by};
ghost use Rattle.tree_names.specs.Parameters.{entries_in};
ghost use Rattle.flattened_trees.specs.Leads.{behind_instance, only, with_leads};
ghost use Rattle.flattened_units.specs.Units.{face_by, with_brought};
ghost use Rattle.tree_flattener.specs.Found.{lead_in};
ghost use Rattle.kind_table.specs.Flattened.{flat_of};
ghost use Rattle.module_leads.specs.Alike.{AreFacesAlike, FindsAlike};
ghost use Rattle.module_leads.specs.Ways.{face_at, found_way};
ghost use Rattle.module_leads.specs.Faces.{HasWays, faces_of};
ghost use Rattle.module_leads.specs.Layers.{ArePut, IsBrought, IsFaceWithin, way_by};
ghost use Rattle.module_leads.specs.Leading.{IsOutermost, IsSound, IsTaken, face_over, leading_in};
ghost use Rattle.module_leads.specs.Leading as known;

use crate::alike::faces_alike;
use crate::entries::{brought_entries, table_entries};
use crate::faces::{
    FaceNames, ListedNames, ModuleFace, TableNames, face_is_constant, face_outer, face_parameters,
};
use crate::layer::{Brought, Layer, Sought, way_in};
use crate::paths::{face_lead, follow};
use crate::ways::{FoundWay, Way, copied_name};
use flattened_trees::End;
use indexmap::IndexMap;
use kind_table::FlatModule;
use name_context::Named;
use std::alloc::Global;
use std::mem;
use tla_model::{Meaning, NameTable, copied_symbols};
use tla_symbols::Op;
use tool_list::{List, Memory};
use tree_flattener::Lead;
use tree_names::Parameter;

/// What is known at a place of a module of where names lead, and what modules are to their instances, by
/// number. Contracts say what is known, as the definitions have it (`leading_in`), and that it is sound:
/// all that was put leads behind faces that are there (`IsSound`). After `Memory` nothing is said of it.
pub struct ModuleLeads {
    faces: Vec<ModuleFace>,
    // What is said in the modules round the innermost one, the outermost first.
    round: Vec<Layer>,
    here: Layer,
}

// By hand, so that a proof meets one call wherever a value ends.
impl Drop for ModuleLeads {
    fn drop(self) {
        let ModuleLeads {
            faces: _,
            round: _,
            here: _,
        } = self;
    }
}

// Puts entries of a module, from the last to the first, so that the first that means something counts.
fn put_brought(
    layer: &mut Layer,
    entries: &[Parameter],
    instance: usize,
    face: Option<usize>,
) -> Result<(), Memory>
    ensures { OnOk result (IsBrought layer.old layer.new (entries_in entries.now) instance face) }
{
    let mut index = entries.len();
    while index > 0 {
        index -= 1;
        let entry = &entries[index];
        let name = copied_name(&entry.name)?;
        let way = Way::Through {
            instance,
            face,
            name,
        };
        layer.put(&entry.meaning, way)?;
    }
    Ok(())
}

// Puts the same way for each of these.
fn put_all(layer: &mut Layer, meanings: &[Meaning], way: &Way) -> Result<(), Memory>
    ensures { OnOk result (ArePut layer.old layer.new meanings.now way.now) }
{
    for meaning in meanings {
        layer.put(meaning, way.copied()?)?;
    }
    Ok(())
}

// The number of a face, if there is one.
fn known_face(faces: &[ModuleFace], face: Option<usize>) -> Option<usize>
    ensures within { IsFaceWithin (length faces.now) result }
    ensures same { face_at (faces_of faces.now) result ≡ face_at (faces_of faces.now) face }
{
    let number = face?;
    if number < faces.len() {
        Some(number)
    } else {
        None
    }
}

// The same names. Their words are shared.
fn same_table(alloc: Global, table: &NameTable) -> Result<NameTable, Memory>
    ensures { IfOk result (λ same. same ≡ table.now) }
{
    // The proof needs that no name of the table is there twice.
    let _len = table.len();
    let symbols = copied_symbols(alloc, table.symbols())?;
    table.extended(alloc, IndexMap::new(alloc), symbols)
}

// Puts entries of a table, as a list.
fn put_table_brought(
    alloc: Global,
    layer: &mut Layer,
    exports: &NameTable,
    instance: usize,
    face: Option<usize>,
) -> Result<(), Memory>
    ensures { OnOk result (IsBrought layer.old layer.new (instantiable (exports_of exports.now))
        instance face) }
{
    let entries = table_entries(alloc, exports)?;
    let brought = brought_entries(alloc, None, entries.as_slice())?;
    put_brought(layer, brought.as_slice(), instance, face)
}

// Brings what a module exports by a table: as the table, where nothing was put before it.
fn bring_exports(
    alloc: Global,
    layer: &mut Layer,
    exports: &NameTable,
    instance: usize,
    face: Option<usize>,
) -> Result<(), Memory>
    ensures { OnOk result (IsBrought layer.old layer.new (instantiable (exports_of exports.now))
        instance face) }
{
    if !layer.has_none_put() {
        return put_table_brought(alloc, layer, exports, instance, face);
    }
    let exports = same_table(alloc, exports)?;
    layer.bring(Brought {
        exports,
        instance,
        face,
    })
}

// The way of a meaning by what is said of it here, and round this.
fn way_by<'b>(round: &'b [Layer], here: &'b Layer, sought: &Sought) -> FoundWay<'b>
    ensures { found_way result ≡ way_by round.now here.now sought.now }
{
    match here.way(sought) {
        Some(way) => way,
        None => way_in(round, sought),
    }
}

// The same, to be kept.
fn kept_way(alloc: Global, round: &[Layer], here: &Layer, meaning: &Meaning) -> Result<Way, Memory>
    ensures { IfOk result (λ way. way ≡ way_by round.now here.now meaning.now) }
{
    let sought = Sought::new(meaning)?;
    way_by(round, here, &sought).owned(alloc)
}

// Puts entries with where their meanings lead.
fn put_entries(
    alloc: Global,
    round: &[Layer],
    here: &Layer,
    names: &mut ListedNames,
    entries: &[Parameter],
) -> Result<(), Memory>
    ensures { OnOk result (HasWays names.old names.new (way_by round.now here.now)
        (entries_in entries.now)) }
{
    for entry in entries {
        let way = kept_way(alloc, round, here, &entry.meaning)?;
        names.put(alloc, entry.name.named(), way)?;
    }
    Ok(())
}

// Puts the words of a table with where their meanings lead.
fn put_words(
    alloc: Global,
    round: &[Layer],
    here: &Layer,
    names: &mut ListedNames,
    table: &NameTable,
) -> Result<(), Memory>
    ensures { OnOk result (HasWays names.old names.new (way_by round.now here.now)
        (of_words table.now.words)) }
{
    for index in 0..table.len() {
        let Some((word, meaning)) = table.word_at(index) else {
            unreachable!();
        };
        let way = kept_way(alloc, round, here, meaning)?;
        names.put(alloc, Named::Word(word), way)?;
    }
    Ok(())
}

// Puts symbols with where their meanings lead.
fn put_symbols(
    alloc: Global,
    round: &[Layer],
    here: &Layer,
    names: &mut ListedNames,
    symbols: &[(Op, Meaning)],
) -> Result<(), Memory>
    ensures { OnOk result (HasWays names.old names.new (way_by round.now here.now)
        (of_symbols symbols.now)) }
{
    for (op, meaning) in symbols {
        let way = kept_way(alloc, round, here, meaning)?;
        names.put(alloc, Named::Symbol(*op), way)?;
    }
    Ok(())
}

// Puts the names of a table with where their meanings lead.
fn put_table(
    alloc: Global,
    round: &[Layer],
    here: &Layer,
    names: &mut ListedNames,
    table: &NameTable,
) -> Result<(), Memory>
    ensures { OnOk result (HasWays names.old names.new (way_by round.now here.now)
        (exports_of table.now)) }
{
    put_words(alloc, round, here, names, table)?;
    put_symbols(alloc, round, here, names, table.symbols())?;
    Ok(())
}

// Whether one module alone is round the place, of which nothing is said.
fn is_outermost(round: &[Layer]) -> bool
    ensures { IsTrue result → IsOutermost round.now }
{
    match round {
        [outer] => outer.is_silent(),
        _ => false,
    }
}

impl ModuleLeads {
    /// Nothing is known.
    pub fn new(alloc: Global) -> ModuleLeads
        ensures known { leading_in result ≡ known.nothing_led }
        ensures sound { IsSound result }
    {
        ModuleLeads {
            faces: Vec::new(alloc),
            round: Vec::new(alloc),
            here: Layer::new(alloc),
        }
    }

    /// Begins a module, with these symbols at places from this one on, before all that is said round it.
    pub fn enter(&mut self, alloc: Global, own: &[Meaning], place: usize) -> Result<(), Memory>
        ensures known { OnOk result (leading_in self.new
            ≡ known.entered (leading_in self.old) own.now place) }
        ensures sound { OnOk result (IsSound self.old → IsSound self.new) }
    {
        let mut inner = Layer::of_symbols(alloc, own, place)?;
        mem::swap(&mut self.here, &mut inner);
        self.round.push(inner)?;
        Ok(())
    }

    /// Ends the innermost module: names lead where they led round it. Where none was begun, all stays.
    pub fn leave(&mut self)
        ensures known { leading_in self.new ≡ known.left (leading_in self.old) }
        ensures sound { IsSound self.old → IsSound self.new }
    {
        if let Some(outer) = self.round.pop() {
            self.here = outer;
        }
    }

    /// Brings entries of a module, which come through an instance of it, without a name.
    pub fn bring(
        &mut self,
        entries: &[Parameter],
        instance: usize,
        face: Option<usize>,
    ) -> Result<(), Memory>
        ensures known { OnOk result (leading_in self.new ≡ known.leading (leading_in self.old)
            (with_brought (leading_in self.old).leads (entries_in entries.now) instance
            (face_at (leading_in self.old).faces face))) }
        ensures sound { OnOk result (IsSound self.old → IsSound self.new) }
    {
        let face = known_face(&self.faces, face);
        put_brought(&mut self.here, entries, instance, face)?;
        Ok(())
    }

    /// Brings what a module exports by a table, and can be named behind an instance, through one of it. Where
    /// nothing was defined and nothing brought as a list in the module that is read, nothing is listed.
    pub fn bring_table(
        &mut self,
        alloc: Global,
        exports: &NameTable,
        instance: usize,
        face: Option<usize>,
    ) -> Result<(), Memory>
        ensures known { OnOk result (leading_in self.new ≡ known.leading (leading_in self.old)
            (with_brought (leading_in self.old).leads (instantiable (exports_of exports.now))
            instance (face_at (leading_in self.old).faces face))) }
        ensures sound { OnOk result (IsSound self.old → IsSound self.new) }
    {
        let face = known_face(&self.faces, face);
        bring_exports(alloc, &mut self.here, exports, instance, face)?;
        Ok(())
    }

    /// Defines these: where no name follows, they lead to this.
    pub fn define(&mut self, meanings: &[Meaning], to: End) -> Result<(), Memory>
        ensures known { OnOk result (leading_in self.new ≡ known.leading (leading_in self.old)
            (with_leads (leading_in self.old).leads meanings.now (only to))) }
        ensures sound { OnOk result (IsSound self.old → IsSound self.new) }
    {
        put_all(&mut self.here, meanings, &Way::To(to))?;
        Ok(())
    }

    /// Defines these as names of an instance of a module.
    pub fn define_instance(
        &mut self,
        meanings: &[Meaning],
        instance: usize,
        face: Option<usize>,
    ) -> Result<(), Memory>
        ensures known { OnOk result (leading_in self.new ≡ known.leading (leading_in self.old)
            (with_leads (leading_in self.old).leads meanings.now
            (behind_instance instance (face_at (leading_in self.old).faces face)))) }
        ensures sound { OnOk result (IsSound self.old → IsSound self.new) }
    {
        let face = known_face(&self.faces, face);
        put_all(&mut self.here, meanings, &Way::Behind { instance, face })?;
        Ok(())
    }

    /// Where a meaning leads at the names that follow.
    pub fn lead(
        &self,
        alloc: Global,
        meaning: &Meaning,
        names: &[Named<'_>],
    ) -> Result<Lead, Memory>
        ensures { IfOk result (λ lead. lead_in lead
            ≡ (leading_in self.now).leads meaning.now (map meant_by names.now)) }
    {
        let sought = Sought::new(meaning)?;
        let way = way_by(&self.round, &self.here, &sought);
        follow(alloc, &self.faces, self.faces.len(), way, names)
    }

    /// Adds what a module is to its instances, by its symbols with their names, how many symbols of
    /// modules round it come before these, whether it is constant, and what it exports, and answers its
    /// number.
    pub fn add_face(
        &mut self,
        alloc: Global,
        parameters: List<Parameter>,
        outer: usize,
        is_constant: bool,
        entries: &[Parameter],
    ) -> Result<usize, Memory>
        requires { IsSound self.old }
        ensures number { IfOk result (λ number. number ≡ (leading_in self.old).count) }
        ensures known { OnOk result (leading_in self.new ≡ known.with_face (leading_in self.old)
            (face_over (entries_in parameters) outer is_constant (entries_in entries.now)
            (leading_in self.old).leads)) }
        ensures sound { OnOk result (IsSound self.new) }
    {
        let mut names = ListedNames::new(alloc);
        put_entries(alloc, &self.round, &self.here, &mut names, entries)?;
        let number = self.faces.len();
        self.faces.push(ModuleFace {
            parameters,
            outer,
            is_constant,
            names: FaceNames::Listed(names),
        })?;
        Ok(number)
    }

    // The same by a table of what the module exports.
    fn add_table(
        &mut self,
        alloc: Global,
        parameters: List<Parameter>,
        outer: usize,
        is_constant: bool,
        exports: &NameTable,
    ) -> Result<usize, Memory>
        requires { IsSound self.old }
        ensures number { IfOk result (λ number. number ≡ (leading_in self.old).count) }
        ensures known { OnOk result (leading_in self.new ≡ known.with_face (leading_in self.old)
            (face_over (entries_in parameters) outer is_constant (exports_of exports.now)
            (leading_in self.old).leads)) }
        ensures sound { OnOk result (IsSound self.new) }
    {
        let mut names = ListedNames::new(alloc);
        put_table(alloc, &self.round, &self.here, &mut names, exports)?;
        let number = self.faces.len();
        self.faces.push(ModuleFace {
            parameters,
            outer,
            is_constant,
            names: FaceNames::Listed(names),
        })?;
        Ok(number)
    }

    // Goes out of the innermost module and hands over what is said in it, if one alone is round it, of
    // which nothing is said.
    fn take_layer(&mut self) -> Option<Layer>
        ensures none { IfNone result (self.new ≡ self.old) }
        ensures taken { IfSome result (λ layer. IsTaken self.old self.new layer) }
    {
        if !is_outermost(self.round.as_slice()) {
            return None;
        }
        let mut layer = self.round.pop()?;
        mem::swap(&mut self.here, &mut layer);
        Some(layer)
    }

    /// Ends the innermost module, as `leave`, and adds what it is to its instances, by its symbols with
    /// their names, how many symbols of modules round it come before these, whether it is constant, and a
    /// table of what it exports, and answers its number. Of an outermost module what is said in it is kept
    /// as it is, and nothing is listed.
    pub fn end(
        &mut self,
        alloc: Global,
        parameters: List<Parameter>,
        outer: usize,
        is_constant: bool,
        exports: &NameTable,
    ) -> Result<usize, Memory>
        requires { IsSound self.old }
        ensures number { IfOk result (λ number. number ≡ (leading_in self.old).count) }
        ensures known { OnOk result (leading_in self.new
            ≡ known.left (known.with_face (leading_in self.old)
            (face_over (entries_in parameters) outer is_constant (exports_of exports.now)
            (leading_in self.old).leads))) }
        ensures sound { OnOk result (IsSound self.new) }
    {
        let Some(layer) = self.take_layer() else {
            let number = self.add_table(alloc, parameters, outer, is_constant, exports)?;
            self.leave();
            return Ok(number);
        };
        let exports = same_table(alloc, exports)?;
        let number = self.faces.len();
        self.faces.push(ModuleFace {
            parameters,
            outer,
            is_constant,
            names: FaceNames::Table(TableNames { exports, layer }),
        })?;
        Ok(number)
    }

    /// Where names lead behind an instance of a module.
    pub fn behind(
        &self,
        alloc: Global,
        face: Option<usize>,
        names: &[Named<'_>],
    ) -> Result<Lead, Memory>
        ensures { IfOk result (λ lead. lead_in lead
            ≡ (face_at (leading_in self.now).faces face).leads (map meant_by names.now)) }
    {
        face_lead(alloc, &self.faces, face, names)
    }

    /// Whether two modules lead alike, as far as numbers of nodes tell: whether they have the same symbols,
    /// with as many round them, both are constant or neither, and their names lead to the same resolved trees.
    pub fn are_alike(
        &self,
        alloc: Global,
        flat: &FlatModule,
        numbers: &[usize],
        one: usize,
        other: usize,
    ) -> Result<bool, Memory>
        ensures same { IfOk result (λ same. IsTrue same → AreFacesAlike (flat_of flat.now)
            numbers.now ((leading_in self.now).faces one) ((leading_in self.now).faces other)) }
        ensures found { IfOk result (FindsAlike (flat_of flat.now) numbers.now
            ((leading_in self.now).faces one) ((leading_in self.now).faces other)) }
    {
        faces_alike(alloc, flat, numbers, &self.faces, one, other)
    }

    /// The symbols of a module that INSTANCE replaces, in their order.
    pub fn parameters(&self, alloc: Global, face: Option<usize>) -> Result<List<Parameter>, Memory>
        ensures { IfOk result (λ parameters. entries_in parameters
            ≡ (face_at (leading_in self.now).faces face).parameters) }
    {
        face_parameters(alloc, &self.faces, face)
    }

    /// How many symbols of modules round a module come before its own.
    pub fn outer(&self, face: Option<usize>) -> usize
        ensures { result ≡ (face_at (leading_in self.now).faces face).outer }
    {
        face_outer(&self.faces, face)
    }

    /// Whether a module is constant.
    pub fn is_constant(&self, face: Option<usize>) -> bool
        ensures { result ≡ (face_at (leading_in self.now).faces face).is_constant }
    {
        face_is_constant(&self.faces, face)
    }
}
