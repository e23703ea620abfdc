//! What is known of a module that was accepted: it meets what laws on its nodes ask.
//!
//! No code: each function states a law. Knows nothing of how nodes are built.
#![tactic(auto)]

ghost use Rattle.std.specs.Prelude.{◌≡◌, ◌⊎◌, ℕ, Bool, true, false, List, []};
ghost use Rattle.std.specs.Prelude.{◌∷◌, ◌++◌, Option, Some, None};
ghost use Rattle.std.specs.List.{AllByRecursion};
ghost use Rattle.std.specs.Str.{bytes_eq};
ghost use Rattle.tla_symbols.specs.declared.lexeme.Lexeme.{Lexeme};
ghost use Rattle.tla_symbols.specs.declared.lexeme.Span.{Span};
ghost use Rattle.tla_tree.specs.declared.form.Form.TheVariants as Form;
ghost use Rattle.tla_tree.specs.Syntax.{Node, Tree, Trees};
ghost use Rattle.unit_grammar.specs.Units.{Instance, ModuleBegin, ModuleUnits, UnitTree};
ghost use Rattle.unit_grammar.specs.Derivation.{DerivesModule};
ghost use Rattle.front_laws.specs.Fronts.{IsFront, Tree as TreeFront};
ghost use Rattle.tla_model.specs.Entities.{Meaning, Text, meant, name_of};
ghost use Rattle.tla_model.specs.EntityKinds.{is_meant, stands_for_parameter};
ghost use Rattle.tla_model.specs.Contexts.{built_in, meaning_of};
ghost use Rattle.tla_model.specs.Tables.{Named, same_named};
ghost use Rattle.tla_model.specs.Lexemes.{spelled};
ghost use Rattle.module_scope.specs.Environments.{Scope, begun, inside, meaning};
ghost use Rattle.module_scope.specs.Environments.{first as first_scope};
ghost use Rattle.module_model.specs.Bindings.{faults};
ghost use Rattle.module_model.specs.Instances.{unit_trees};
ghost use Rattle.module_model.specs.declared.face.Face.{Face};
ghost use Rattle.module_model.specs.Given.{imported};
ghost use Rattle.module_model.specs.Imports.{Imports};
ghost use Rattle.module_model.specs.Exports.{face_outside, files_of};
ghost use Rattle.module_model.specs.Exports.{Exports, Known, ModuleView, entry_of, exported};
ghost use Rattle.module_model.specs.Exports.{exports_by, parameters_in};
ghost use Rattle.module_model.specs.Modules.{exports_under, text_of};
ghost use Rattle.module_model.specs.Resolution.{findings, instance_brings, known_in};
ghost use Rattle.module_model.specs.Resolution.{module_named, outside_in, words_of};
ghost use Rattle.tree_kinds.specs.Standing.{Outside};
ghost use Rattle.module_kinds.specs.ModuleKinds.{KindState, after, first, known_at, last};
ghost use Rattle.module_kinds.specs.ModuleKinds.{named, named_in, outside, views};
ghost use Rattle.kind_text.specs.FlatModule.{FlatModule};
ghost use Rattle.arity_rules.specs.Arities.{arity_faults};
ghost use Rattle.flat_trees.specs.Instances.{symbols_of};
ghost use Rattle.flattened_trees.specs.Leads.{FlatFace, Leads};
ghost use Rattle.flattened_trees.specs.Questions.{Question};
ghost use Rattle.flattened_meanings.specs.Faces.{NameModules};
ghost use Rattle.flattened_units.specs.Units.{AreExtended, IsModuleMade, IsUnitMade, Reader};
ghost use Rattle.flattened_units.specs.Units.{face_in, meanings_of, symbol_setting};
ghost use Rattle.flattened_units.specs.Units.{no_leads, with_symbols};
ghost use Rattle.flat_kinds.specs.Declarations.{AreUnitsDeclared, Declarations, EachOnce};
ghost use Rattle.flat_kinds.specs.Declarations.{IsNoDefinition, IsOutsideDeclared};
ghost use Rattle.flat_kinds.specs.Declarations.{IsDeclared as declared_so, declared_names};
ghost use Rattle.flat_kinds.specs.Readings.{BringNone, Leaves, extended_entries};
ghost use Rattle.module_meanings.specs.Faces.{IsPlaced};
ghost use Rattle.module_meanings.specs.Premises.{AllCome};
ghost use Rattle.readable_laws.specs.Accepted.{IsDeclared};
ghost use Rattle.readable_laws.specs.ReadUnits.{AreKnownAmong, IsReadableUnit};
ghost use Rattle.readable_laws.specs.Steady.{IsSteadyView, state_behind};
ghost use Rattle.readable_laws.specs.Uses.{implied_by, means_by};
ghost use Rattle.accepted_modules.specs.States.{HaveViews, kinds_behind};
ghost use Rattle.accepted_modules.specs.Named.{AllNamed};
ghost use Rattle.accepted_modules.specs.Coming.{ComesOfModules};
ghost use Rattle.accepted_modules.specs.Faces.{FacesReadAs, ReadsAs};
ghost use Rattle.accepted_modules.specs.Leading.{LeadsByItself};
ghost use Rattle.accepted_modules.specs.Offered.{IsOffered};
ghost use Rattle.accepted_modules.specs.Beside.{IsBeside};
ghost use Rattle.accepted_modules.specs.Behind.{Behinds, IsForeignView, IsGivenView, with_own};

use lexeme_laws::{lexemes_are_held_once, names_begin_apart};
use readable_laws::{accepted_units_are_read, modules_stay_steady};

/// Wherever a unit of a module is read, the module that a name stands for has the view with which
/// names are resolved there, a nested module too, if that is so of files; so has the module itself.
pub fn views_go_together()
    ensures states { (outsides : List ℕ → Outside) (files : List ℕ → ModuleView)
        (source : List ℕ) (units : ModuleUnits) (before : List UnitTree)
        → HaveViews outsides files
        → (kinds_behind outsides source units before).read
        ≡ state_behind files source units before }
    ensures named { (outsides : List ℕ → Outside) (files : List ℕ → ModuleView)
        (source : List ℕ) (units : ModuleUnits) (before : List UnitTree) (name : List ℕ)
        → HaveViews outsides files
        → (named (text_of source units) outsides (words_of units)
        (kinds_behind outsides source units before) name).view
        ≡ module_named (text_of source units) files (words_of units)
        (state_behind files source units before) name }
    ensures nested { (outsides : List ℕ → Outside) (source : List ℕ) (units : ModuleUnits)
        (before : List UnitTree) (title name : List ℕ)
        → exports_under (exports_by (views (text_of source units) outsides (words_of units)))
        (meaning (inside
        (kinds_behind outsides source units before).read.place.here.modules title) name) name
        ≡ exported (named_in (text_of source units) outsides (words_of units)
        (begun (kinds_behind outsides source units before).modules title) name).view }
    ensures outside { (outsides : List ℕ → Outside) (files : List ℕ → ModuleView)
        (source : List ℕ) (units : ModuleUnits) → HaveViews outsides files
        → (outside outsides source units).view ≡ outside_in files source units }
{}

/// Names that a module brings come from it, behind what extends it and behind an INSTANCE without a
/// name: they are there the entities that they are here, and what is known behind them is what the
/// module has. This is asked: names are what their declarations are, behind these stands one thing
/// in all files, and files have no declaration of the module. Then the module is such a file too.
pub fn brought_names_come()
    ensures extended { (declares : Declarations) (behinds : Behinds)
        (outsides : List ℕ → Outside) (source : List ℕ) (units : ModuleUnits)
        → ((name : List ℕ) → IsGivenView declares behinds (outsides name).view)
        → ((name : List ℕ) → IsForeignView (text_of source units).file (outsides name).view)
        → AreUnitsDeclared declares (text_of source units) units.units
        → AllByRecursion (λ l. AllCome (first outsides source units).read.known
        (first outsides source units).read.place.here.context
        (named_in (text_of source units) outsides (words_of units)
        (first_scope (text_of source units).file) (spelled source l)).view
        (extended_entries (text_of source units) outsides (words_of units)
        (first_scope (text_of source units).file) l)) units.extends }
    ensures nested { (declares : Declarations) (behinds : Behinds) (outsides : List ℕ → Outside)
        (source : List ℕ) (units : ModuleUnits) (before behind : List UnitTree)
        (dashes name : Lexeme) (extends : List Lexeme)
        → ((name : List ℕ) → IsGivenView declares behinds (outsides name).view)
        → ((name : List ℕ) → IsForeignView (text_of source units).file (outsides name).view)
        → AreUnitsDeclared declares (text_of source units) units.units
        → units.units ≡ before ++ ModuleBegin dashes name extends ∷ behind
        → AllByRecursion (λ l. AllCome
        (after (text_of source units) outsides (words_of units)
        (kinds_behind outsides source units before)
        (ModuleBegin dashes name extends)).read.known
        (after (text_of source units) outsides (words_of units)
        (kinds_behind outsides source units before)
        (ModuleBegin dashes name extends)).read.place.here.context
        (named_in (text_of source units) outsides (words_of units)
        (begun (kinds_behind outsides source units before).modules (spelled source name))
        (spelled source l)).view
        (extended_entries (text_of source units) outsides (words_of units)
        (begun (kinds_behind outsides source units before).modules (spelled source name)) l))
        extends }
    ensures instances { (declares : Declarations) (behinds : Behinds)
        (outsides : List ℕ → Outside) (source : List ℕ) (units : ModuleUnits)
        (before behind : List UnitTree) (local : Option Lexeme) (x : Tree) (l : Lexeme)
        (at : Span) (rights : Trees)
        → ((name : List ℕ) → IsGivenView declares behinds (outsides name).view)
        → ((name : List ℕ) → IsForeignView (text_of source units).file (outsides name).view)
        → AreUnitsDeclared declares (text_of source units) units.units
        → units.units ≡ before ++ Instance local x ∷ behind → x ≡ Node (Form.Instance l) at rights
        → AllCome
        (after (text_of source units) outsides (words_of units)
        (kinds_behind outsides source units before) (Instance local x)).read.known
        (after (text_of source units) outsides (words_of units)
        (kinds_behind outsides source units before) (Instance local x)).read.place.here.context
        (named (text_of source units) outsides (words_of units)
        (kinds_behind outsides source units before) (spelled source l)).view
        (instance_brings (text_of source units)
        (views (text_of source units) outsides (words_of units)) (words_of units)
        (kinds_behind outsides source units before).read x) }
    ensures given { (declares : Declarations) (behinds : Behinds) (outsides : List ℕ → Outside)
        (source : List ℕ) (units : ModuleUnits)
        → ((name : List ℕ) → IsGivenView declares behinds (outsides name).view)
        → ((name : List ℕ) → IsForeignView (text_of source units).file (outsides name).view)
        → AreUnitsDeclared declares (text_of source units) units.units
        → IsGivenView declares
        (with_own (text_of source units).file (last outsides source units).read.known behinds)
        (outside outsides source units).view }
    ensures foreign { (outsides : List ℕ → Outside) (source : List ℕ) (units : ModuleUnits)
        (title : List ℕ)
        → ((name : List ℕ) → IsForeignView title (outsides name).view)
        → bytes_eq (text_of source units).file title ≡ false
        → IsForeignView title (outside outsides source units).view }
    ensures others { (declares : Declarations) (behinds : Behinds) (title : List ℕ)
        (known : Known) (view : ModuleView) → IsGivenView declares behinds view
        → IsForeignView title view → IsGivenView declares (with_own title known behinds) view }
{}

/// What stands in for parameters in a module is declared, if no names of files are built in; and
/// then no names of the module are.
pub fn stand_ins_are_declared()
    ensures found { (files : List ℕ → ModuleView) (source : List ℕ) (units : ModuleUnits)
        → ((name : List ℕ) → AllNamed IsBeside (files name))
        → AllByRecursion IsDeclared (findings files source units) }
    ensures outside { (files : List ℕ → ModuleView) (source : List ℕ) (units : ModuleUnits)
        → ((name : List ℕ) → AllNamed IsBeside (files name))
        → AllNamed IsBeside (outside_in files source units) }
{}

/// Faces of modules that can be named are what these are to those that name them, from the first
/// unit on and behind each. So the face that a name has is what its module is, if that is so of
/// files, and if the name is none of a module round the place.
pub fn faces_go_together()
    ensures begins { (name : List ℕ) → FacesReadAs (first_scope name) (first_scope name) }
    ensures kept { (flat : FlatModule) (text : Text) (means : ℕ → Option Meaning)
        (implied : ℕ → List Meaning) (files : List ℕ → FlatFace) (outsides : List ℕ → Outside)
        (words : List ℕ) (state : KindState) (reader : Reader) (unit : UnitTree) (next : Reader)
        (asked : List Question) → FacesReadAs reader.faces state.modules
        → IsUnitMade flat text means implied files outsides words state reader unit next asked
        → FacesReadAs next.faces (after text outsides words state unit).modules }
    ensures named { (flat : FlatModule) (text : Text) (means : ℕ → Option Meaning)
        (implied : ℕ → List Meaning) (files : List ℕ → FlatFace) (outsides : List ℕ → Outside)
        (words : List ℕ) (faces : Scope FlatFace) (modules : Scope Outside) (name : List ℕ)
        → FacesReadAs faces modules → ((n : List ℕ) → ReadsAs (files n) (outsides n))
        → (meaning modules.here name ≡ Some None → ⊥)
        → ReadsAs (face_in flat text means implied files outsides words faces name)
        (named_in text outsides words modules name) }
{}

/// Behind each instance that a unit names it is known what its module has, and modules that it
/// names have the faces that are theirs, where faces are. It is asked that no file has a name that
/// the module declares.
pub fn named_instances_are_known()
    ensures { (name bytes : List ℕ) (units : ModuleUnits) (files : List ℕ → ModuleView)
        (outsides : List ℕ → Outside) (faces : List ℕ → FlatFace) (means : ℕ → Option Meaning)
        (implied : ℕ → List Meaning) (nameable : List ℕ → Bool) (before : List UnitTree)
        (unit : UnitTree) (behind : List UnitTree) → IsFront name bytes (TreeFront units)
        → ((n : List ℕ) → IsForeignView (text_of bytes units).file (files n))
        → units.units ≡ before ++ unit ∷ behind
        → ((n : List ℕ) → (outsides n).view ≡ module_named (text_of bytes units) files
        (words_of units) (state_behind files bytes units before) n)
        → NameModules bytes nameable (unit_trees unit)
        → ((n : List ℕ) → nameable n ≡ true → ReadsAs (faces n) (outsides n))
        → AreKnownAmong (text_of bytes units)
        (known_in (text_of bytes units) files (words_of units)
        (state_behind files bytes units before) unit)
        outsides means implied faces (unit_trees unit) }
{
    lexemes_are_held_once();
    names_begin_apart();
}

/// So each unit of a module without faults of names and arities can be read, by what stands for its
/// names: it is asked of files that they are steady, that none of their names is built in, and that
/// none is declared in the module; and of the modules that the unit names that faces are theirs.
pub fn faultless_units_are_read()
    ensures { (name bytes : List ℕ) (units : ModuleUnits) (files : List ℕ → ModuleView)
        (outsides : List ℕ → Outside) (faces : List ℕ → FlatFace) (nameable : List ℕ → Bool)
        (before : List UnitTree) (unit : UnitTree) (behind : List UnitTree)
        → IsFront name bytes (TreeFront units) → faults (findings files bytes units) ≡ []
        → arity_faults (findings files bytes units) units.units ≡ []
        → ((n : List ℕ) → IsSteadyView (files n)) → ((n : List ℕ) → AllNamed IsBeside (files n))
        → ((n : List ℕ) → IsForeignView (text_of bytes units).file (files n))
        → HaveViews outsides files → units.units ≡ before ++ unit ∷ behind
        → NameModules bytes nameable (unit_trees unit)
        → ((n : List ℕ) → nameable n ≡ true → ReadsAs (faces n) (named (text_of bytes units)
        outsides (words_of units) (kinds_behind outsides bytes units before) n))
        → IsReadableUnit (text_of bytes units)
        (known_at (text_of bytes units) outsides (words_of units)
        (kinds_behind outsides bytes units before) unit)
        (named (text_of bytes units) outsides (words_of units)
        (kinds_behind outsides bytes units before))
        (means_by (findings files bytes units)) (implied_by (findings files bytes units)) faces
        (kinds_behind outsides bytes units before).read.place.here.context unit }
{
    accepted_units_are_read();
    lexemes_are_held_once();
    names_begin_apart();
}

/// Views that come of modules, over others that do, are steady; no name of these is built in, and
/// all are symbols, definitions and instances; the symbols are their parameters. Imports whose
/// faces come of modules are such views.
pub fn modules_come_steady()
    ensures steady { (view : ModuleView) → ComesOfModules view → IsSteadyView view }
    ensures beside { (view : ModuleView) → ComesOfModules view → AllNamed IsBeside view }
    ensures offered { (view : ModuleView) → ComesOfModules view → AllNamed IsOffered view }
    ensures parameters { (view : ModuleView) → ComesOfModules view
        → view.parameters ≡ parameters_in (exported view) }
    ensures imports { (imports : Imports)
        → ((name : List ℕ) (face : Face) → imported imports name ≡ Some face
        → ComesOfModules (face_outside face))
        → (name : List ℕ) → ComesOfModules (files_of imports name) }
{
    modules_stay_steady();
}

/// Each symbol that can be used in a module, outside of nested ones, is a parameter of the module,
/// once; so are those that a unit of one without faults declares. So they have places, where these
/// have. What none of the modules brings that it extends is such a symbol, or built in. All that
/// a module exports are symbols, definitions and instances, if that is so of files. Symbols of
/// the modules that it extends have places too, where it has no faults.
pub fn symbols_are_parameters()
    ensures offered { (files : List ℕ → ModuleView) (source : List ℕ) (units : ModuleUnits)
        → ((name : List ℕ) → AllNamed IsOffered (files name))
        → AllNamed IsOffered (outside_in files source units) }
    ensures stay { (files : List ℕ → ModuleView) (source : List ℕ) (units : ModuleUnits)
        (a : List Lexeme) (before behind : List UnitTree) (name : Named) (m : Meaning)
        → DerivesModule units a → units.units ≡ before ++ behind
        → (state_behind files source units before).place.round ≡ []
        → meaning_of (state_behind files source units before).place.here.context name ≡ Some m
        → is_meant stands_for_parameter m ≡ true
        → entry_of (outside_in files source units).parameters name ≡ Some m }
    ensures declared { (files : List ℕ → ModuleView) (source : List ℕ) (units : ModuleUnits)
        (a : List Lexeme) (before : List UnitTree) (unit : UnitTree) (behind : List UnitTree)
        → DerivesModule units a → faults (findings files source units) ≡ []
        → units.units ≡ before ++ unit ∷ behind
        → (state_behind files source units before).place.round ≡ []
        → AllByRecursion (λ binder.
        is_meant stands_for_parameter (meant (text_of source units) binder) ≡ true
        → entry_of (outside_in files source units).parameters (name_of source binder.name)
        ≡ Some (meant (text_of source units) binder)) (declared_names unit) }
    ensures once { (files : List ℕ → ModuleView) (source : List ℕ) (units : ModuleUnits)
        → ((name : List ℕ) → AllNamed IsOffered (files name))
        → EachOnce same_named (outside_in files source units).parameters }
    ensures placed { (leads : Leads) (parameters : Exports) (place : ℕ) (name : Named)
        (m : Meaning) → entry_of parameters name ≡ Some m
        → is_meant stands_for_parameter m ≡ true
        → IsPlaced (with_symbols leads (meanings_of parameters) place) m }
    ensures extended { (outsides : List ℕ → Outside) (source : List ℕ) (units : ModuleUnits)
        → ((name : List ℕ) → AllNamed IsOffered (outsides name).view) → (a : List Lexeme)
        (name : Named) (m : Meaning) → DerivesModule units a
        → meaning_of (first outsides source units).read.place.here.context name ≡ Some m
        → BringNone (text_of source units) outsides (words_of units)
        (first_scope (text_of source units).file) units.extends m
        → ((is_meant stands_for_parameter m ≡ true) × IsPlaced (with_symbols no_leads
        (symbols_of (outside outsides source units)) 0) m)
        ⊎ ((used : Named) × (meaning_of built_in used ≡ Some m)) }
    ensures shared { (declares : Declarations) (outsides : List ℕ → Outside) (source : List ℕ)
        (units : ModuleUnits) (a : List Lexeme) → DerivesModule units a
        → ((n : List ℕ) → AllNamed (declared_so declares) (outsides n).view)
        → ((n : List ℕ) → (outsides n).view.parameters ≡ parameters_in (exported (outsides n).view))
        → faults (findings (views (text_of source units) outsides (words_of units)) source units)
        ≡ []
        → AllByRecursion (λ l. AllByRecursion (λ m. is_meant stands_for_parameter m ≡ true
        → IsPlaced (with_symbols no_leads (symbols_of (outside outsides source units)) 0) m)
        (symbols_of (named_in (text_of source units) outsides (words_of units)
        (first_scope (text_of source units).file) (spelled source l)))) units.extends }
{}

/// A name that a unit leaves leads behind it where symbols do by themselves, in the module that is
/// read and in those round it, if it does so before; and behind what a module extends, if none of
/// that brings it. Nothing brings what is declared as no definition.
pub fn symbols_lead_by_themselves()
    ensures begins { (flat : FlatModule) (means : ℕ → Option Meaning) (implied : ℕ → List Meaning)
        (files : List ℕ → FlatFace) (outsides : List ℕ → Outside) (source : List ℕ)
        (units : ModuleUnits) (symbols : List Meaning) (faces : Scope FlatFace) (leads : Leads)
        (m : Meaning) → AreExtended flat (text_of source units) means implied files outsides
        (words_of units) (first_scope (text_of source units).file) faces
        (symbol_setting flat means implied files outsides source units symbols)
        (with_symbols no_leads symbols 0) units.extends leads
        → BringNone (text_of source units) outsides (words_of units)
        (first_scope (text_of source units).file) units.extends m
        → LeadsByItself m (record { leads = leads; frame = symbols; olds = [] }) [] }
    ensures kept { (flat : FlatModule) (text : Text) (means : ℕ → Option Meaning)
        (implied : ℕ → List Meaning) (files : List ℕ → FlatFace) (outsides : List ℕ → Outside)
        (words : List ℕ) (state : KindState) (reader : Reader) (unit : UnitTree) (next : Reader)
        (asked : List Question) (m : Meaning)
        → IsUnitMade flat text means implied files outsides words state reader unit next asked
        → Leaves text outsides words state unit m → LeadsByItself m reader.setting reader.round
        → LeadsByItself m next.setting next.round }
    ensures unbrought { (declares : Declarations) (outsides : List ℕ → Outside) (source : List ℕ)
        (units : ModuleUnits) (m : Meaning)
        → ((name : List ℕ) → IsOutsideDeclared declares (outsides name))
        → IsNoDefinition declares m
        → BringNone (text_of source units) outsides (words_of units)
        (first_scope (text_of source units).file) units.extends m }
{}

/// Behind all units of a module no other is round the one that is read.
pub fn readers_end()
    ensures states { (files : List ℕ → ModuleView) (source : List ℕ) (units : ModuleUnits)
        (a : List Lexeme) → DerivesModule units a
        → (state_behind files source units units.units).place.round ≡ [] }
    ensures readers { (flat : FlatModule) (means : ℕ → Option Meaning)
        (implied : ℕ → List Meaning) (files : List ℕ → FlatFace) (outsides : List ℕ → Outside)
        (source : List ℕ) (units : ModuleUnits) (symbols : List Meaning) (final : Reader)
        (asked : List Question) (a : List Lexeme) → DerivesModule units a
        → IsModuleMade flat means implied files outsides source units symbols final asked
        → final.round ≡ [] }
{}
