//! That a flat module whose nodes are what the units of a module write means the module.
//!
//! No code: each function states a law that proofs above cite. Knows nothing of how nodes are
//! built.
#![tactic(auto)]

ghost use Rattle.std.specs.Prelude.{◌≡◌, ℕ, ◌+◌, Bool, true, false, List, [], ◌∷◌, Option, Some};
ghost use Rattle.std.specs.Prelude.{◌⊎◌, length};
ghost use Rattle.std.specs.List.{AllByRecursion};
ghost use Rattle.tla_symbols.specs.declared.lexeme.Lexeme.{Lexeme};
ghost use Rattle.unit_grammar.specs.Units.{ModuleUnits, UnitTree};
ghost use Rattle.tla_model.specs.declared.names.Meaning.TheVariants.{BuiltIn};
ghost use Rattle.tla_model.specs.Contexts.{Context};
ghost use Rattle.tla_model.specs.Entities.{Meaning, Text};
ghost use Rattle.tla_model.specs.Lexemes.{spelled};
ghost use Rattle.tla_model.specs.Tables.{Named};
ghost use Rattle.module_scope.specs.Environments.{Scope};
ghost use Rattle.module_model.specs.Exports.{Exports, Known, behind_instance, entry_of};
ghost use Rattle.module_model.specs.Exports.{exports_of, onward};
ghost use Rattle.module_model.specs.Modules.{Reading};
ghost use Rattle.kind_text.specs.FlatModule.{Extends, FlatModule, IsOrdered};
ghost use Rattle.tree_kinds.specs.Standing.{Outside, is_bound};
ghost use Rattle.module_kinds.specs.ModuleKinds.{KindState, last, named_in, nested_outside};
ghost use Rattle.module_kinds.specs.ModuleKinds.{outside};
ghost use Rattle.flat_trees.specs.Stands.{Stand, Unsaid};
ghost use Rattle.flat_trees.specs.Layouts.{Layout, with_brought as with_brought_stands};
ghost use Rattle.flat_trees.specs.Instances.{symbols_of};
ghost use Rattle.flat_kinds.specs.Declarations.{IsOnce, OfAllKnown};
ghost use Rattle.flat_kinds.specs.Readings.{BringNone, KeepsState, exported_stand};
ghost use Rattle.flat_kinds.specs.Readings.{extended_entries};
ghost use Rattle.flat_kinds.specs.Readings.{with_own};
ghost use Rattle.flat_kinds.specs.Symbols.{AreDistinct, SaysNothing, symbols_at};
ghost use Rattle.flattened_trees.specs.Agreeing.{TakesBehind, lead_by, unsaid_stand};
ghost use Rattle.flattened_trees.specs.Leads.{FlatFace, Leads, Setting, nowhere};
ghost use Rattle.flattened_trees.specs.Questions.{Question};
ghost use Rattle.flattened_trees.specs.Within.{IsLeadWithin};
ghost use Rattle.flattened_units.specs.Units.{AreExtended, IsModuleMade, IsUnitMade, Reader};
ghost use Rattle.flattened_units.specs.Units.{exported_leads, face_in, nested_face, no_leads};
ghost use Rattle.flattened_units.specs.Units.{with_brought, with_symbols};
ghost use Rattle.module_meanings.specs.Faces.{IsExtendedBy, IsFaceBy, IsFaceWithin, IsPlaced};
ghost use Rattle.module_meanings.specs.Faces.{IsReaderWithin, LeadsAs, LeadsWithin, LeavesLead};
ghost use Rattle.module_meanings.specs.Following.{AreAlike, AreExtendedSo, Follows, IsBuiltSo};
ghost use Rattle.module_meanings.specs.Following.{IsFollowed, IsMeantSo, IsPlain, LeadsBy};
ghost use Rattle.module_meanings.specs.Premises.{AllCome, IsFileAt, IsModuleGiven, IsUnitGiven};
ghost use Rattle.module_meanings.specs.Premises.{IsUnitGivenBy};
ghost use Rattle.module_meanings.specs.Premises.{AllSymbolsLead, LeavesSymbols, SymbolsLead};
ghost use Rattle.module_meanings.specs.Premises.{symbol_leads};

/// Names lead where they stand: with symbols at places, from the first names of a module on; with
/// what comes through an instance without a name; and outside of a module, by what it exports.
pub fn leads_are_kept()
    ensures first { (symbols : List Meaning)
        → LeadsBy (symbols_at unsaid_stand symbols 0) (with_symbols no_leads symbols 0) }
    ensures symbols { (stands : Meaning → Stand) (leads : Leads) (symbols : List Meaning)
        (place : ℕ) → LeadsBy stands leads
        → LeadsBy (symbols_at stands symbols place) (with_symbols leads symbols place) }
    ensures brought { (stands : Meaning → Stand) (leads : Leads) (entries : Exports) (j : ℕ)
        (face : FlatFace) (inner : Named → Stand) → LeadsBy stands leads
        → ((name : Named) (names : List Named)
        → face.leads (name ∷ names) ≡ lead_by (inner name) names)
        → LeadsBy (with_brought_stands stands entries j inner)
        (with_brought leads entries j face) }
    ensures exported { (stands : Meaning → Stand) (leads : Leads) (entries : Exports)
        (name : Named) (names : List Named) → LeadsBy stands leads
        → exported_leads leads entries (name ∷ names)
        ≡ lead_by (exported_stand stands entries name) names }
{}

/// What is built in and bound names lead to the leaves that they are, in a module and in those round
/// it: from its first names on, behind what it extends, and behind each unit.
pub fn leaves_lead()
    ensures first { (symbols : List Meaning) → LeavesLead (with_symbols no_leads symbols 0) }
    ensures extended { (flat : FlatModule) (text : Text) (means : ℕ → Option Meaning)
        (implied : ℕ → List Meaning) (files : List ℕ → FlatFace) (outsides : List ℕ → Outside)
        (words : List ℕ) (modules : Scope Outside) (faces : Scope FlatFace) (setting : Setting)
        (leads : Leads) (names : List Lexeme) (next : Leads) → LeavesLead leads
        → AreExtended flat text means implied files outsides words modules faces setting leads names
        next → LeavesLead next }
    ensures units { (flat : FlatModule) (text : Text) (means : ℕ → Option Meaning)
        (implied : ℕ → List Meaning) (files : List ℕ → FlatFace) (outsides : List ℕ → Outside)
        (words : List ℕ) (state : KindState) (reader : Reader) (unit : UnitTree) (next : Reader)
        (asked : List Question) → LeavesLead reader.setting.leads
        → AllByRecursion (λ setting. LeavesLead setting.leads) reader.round
        → IsUnitMade flat text means implied files outsides words state reader unit next asked
        → LeavesLead next.setting.leads
        × AllByRecursion (λ setting. LeavesLead setting.leads) next.round }
{}

/// Symbols of a module and of those round it lead where they do by themselves: behind what the
/// module extends, and behind each unit, where these leave symbols.
pub fn symbols_lead()
    ensures first { (flat : FlatModule) (text : Text) (means : ℕ → Option Meaning)
        (implied : ℕ → List Meaning) (files : List ℕ → FlatFace) (outsides : List ℕ → Outside)
        (words : List ℕ) (modules : Scope Outside) (faces : Scope FlatFace)
        (symbols : List Meaning) (names : List Lexeme) (leads : Leads)
        → ((meaning : Meaning) → is_bound meaning ≡ false
        → (symbol_leads [] symbols meaning [] ≡ nowhere)
        ⊎ BringNone text outsides words modules names meaning)
        → AreExtended flat text means implied files outsides words modules faces
        (record { leads = with_symbols no_leads symbols 0; frame = symbols; olds = [] })
        (with_symbols no_leads symbols 0) names leads
        → SymbolsLead (record { leads = leads; frame = symbols; olds = [] }) [] }
    ensures units { (flat : FlatModule) (text : Text) (means : ℕ → Option Meaning)
        (implied : ℕ → List Meaning) (files : List ℕ → FlatFace) (outsides : List ℕ → Outside)
        (words : List ℕ) (state : KindState) (reader : Reader) (unit : UnitTree) (next : Reader)
        (asked : List Question) → AllSymbolsLead (reader.setting ∷ reader.round)
        → LeavesSymbols text outsides words state unit next.setting next.round
        → IsUnitMade flat text means implied files outsides words state reader unit next asked
        → AllSymbolsLead (next.setting ∷ next.round) }
{}

/// Modules that are extended come as a flat module has them: each through an instance that lets its
/// symbols stand as they do here. Names lead behind them where they stand; they take what they do
/// in these modules; and nothing more is said of names that none of them exports.
pub fn extended_modules_are_read()
    ensures { (flat : FlatModule) (text : Text) (means : ℕ → Option Meaning)
        (implied : ℕ → List Meaning) (files : List ℕ → FlatFace) (outsides : List ℕ → Outside)
        (words : List ℕ) (known : Known) (context : Context) (modules : Scope Outside)
        (faces : Scope FlatFace) (setting : Setting) (symbols : Leads) (here : Meaning → Stand)
        (names : List Lexeme) (stands : Meaning → Stand) (leads next : Leads)
        → IsOrdered flat → LeadsBy here symbols → AreAlike here → LeadsBy stands leads
        → AllByRecursion (λ l. IsExtendedBy flat setting.leads symbols
        (face_in flat text means implied files outsides words faces (spelled text.source l))
        (named_in text outsides words modules (spelled text.source l))
        × AllCome known context (named_in text outsides words modules (spelled text.source l)).view
        (extended_entries text outsides words modules l)) names
        → AreExtended flat text means implied files outsides words modules faces setting leads names
        next
        → AreExtendedSo flat text outsides words known context modules (length setting.frame) here
        names stands next }
{}

/// What is written of a unit that begins and ends no nested module is what comes of it: a name of a
/// definition stands for what this gives, an INSTANCE without a name brings what stands behind it,
/// and claims leave all as it is. And the reader behind the unit has what a layout leads to.
pub fn units_are_read()
    ensures { (flat : FlatModule) (text : Text) (means : ℕ → Option Meaning)
        (implied : ℕ → List Meaning) (files : List ℕ → FlatFace) (outsides : List ℕ → Outside)
        (words : List ℕ) (state : KindState) (reader : Reader) (seen : List Meaning)
        (layout : Layout) (unit : UnitTree) (next : Reader) (asked : List Question)
        → IsOrdered flat → Follows state reader seen layout → IsPlain unit
        → IsUnitMade flat text means implied files outsides words state reader unit next asked
        → IsUnitGiven flat text means implied files outsides words state reader seen unit next
        → IsFollowed flat text outsides words state layout unit next seen }
{}

/// Where nodes of a flat module are what the units of a module write, the flat module is built
/// along the module, and so it means the module: over its symbols names stand for what the module
/// exports, and these lead so outside of it. It is asked that what a nested module brings is new in
/// the modules round it, or stands there as before.
pub fn modules_are_meant()
    ensures built { (flat : FlatModule) (means : ℕ → Option Meaning) (implied : ℕ → List Meaning)
        (files : List ℕ → FlatFace) (outsides : List ℕ → Outside) (source : List ℕ)
        (units : ModuleUnits) (symbols : List Meaning) (last : Reader) (asked : List Question)
        (made : IsModuleMade flat means implied files outsides source units symbols last asked)
        → IsOrdered flat
        → IsModuleGiven flat means implied files outsides source units symbols last asked made
        → IsBuiltSo flat outsides source units symbols last }
    ensures means { (flat : FlatModule) (means : ℕ → Option Meaning) (implied : ℕ → List Meaning)
        (files : List ℕ → FlatFace) (outsides : List ℕ → Outside) (source : List ℕ)
        (units : ModuleUnits) (symbols : List Meaning) (last : Reader) (asked : List Question)
        (made : IsModuleMade flat means implied files outsides source units symbols last asked)
        → IsOrdered flat
        → IsModuleGiven flat means implied files outsides source units symbols last asked made
        → IsMeantSo flat outsides source units symbols last }
{}

/// A module that is meant is what is asked of one that is extended, where its symbols stand in the
/// order of its view, its names take what they do in it, and its symbols have places.
pub fn meant_modules_are_extended()
    ensures { (flat : FlatModule) (outsides : List ℕ → Outside) (source : List ℕ)
        (units : ModuleUnits) (symbols : List Meaning) (last_reader : Reader) (face : FlatFace)
        (leads : Leads) (round : List Setting) (frame : List Meaning)
        (meant : IsMeantSo flat outsides source units symbols last_reader)
        → symbols ≡ symbols_of (outside outsides source units) → face.outer ≡ 0
        → face.parameters ≡ (outside outsides source units).view.parameters
        → ((name : Named) (names : List Named) → face.leads (name ∷ names)
        ≡ exported_leads last_reader.setting.leads
        (exports_of (last outsides source units).read.place.here.exports) (name ∷ names))
        → ((name : Named) (next : Meaning)
        → entry_of (behind_instance (outside outsides source units).view []) name ≡ Some next
        → TakesBehind (meant.inner name)
        (onward (behind_instance (outside outsides source units).view) name) next)
        → AllByRecursion (λ meaning. IsPlaced (symbol_leads round frame) meaning
        × (leads meaning [] ≡ symbol_leads round frame meaning [])) symbols
        → IsExtendedBy flat leads (symbol_leads round frame) face
        (outside outsides source units) }
{}

/// A module that is meant is what is asked of one that a tree names, where its symbols stand in the
/// order of its view and no two of them mean the same, and its names take what they do in it: a
/// module of a file, where what is built in and bound names lead to leaves; and a nested one at its
/// end, where the symbols of the modules round it lead where they stand.
pub fn meant_modules_are_instanced()
    ensures files { (flat : FlatModule) (outsides : List ℕ → Outside) (source : List ℕ)
        (units : ModuleUnits) (symbols : List Meaning) (last_reader : Reader) (face : FlatFace)
        (leads : Leads) (new : Meaning → Bool)
        (meant : IsMeantSo flat outsides source units symbols last_reader)
        → symbols ≡ symbols_of (outside outsides source units) → face.outer ≡ 0
        → AreDistinct symbols → IsOnce (last outsides source units).read.place.here.exports
        → ((name : Named) (names : List Named) → face.leads (name ∷ names)
        ≡ exported_leads last_reader.setting.leads
        (exports_of (last outsides source units).read.place.here.exports) (name ∷ names))
        → ((name : Named) (next : Meaning)
        → entry_of (behind_instance (outside outsides source units).view []) name ≡ Some next
        → TakesBehind (meant.inner name)
        (onward (behind_instance (outside outsides source units).view) name) next)
        → LeavesLead leads → new BuiltIn ≡ false
        → IsFaceBy flat new leads face (outside outsides source units) }
    ensures nested { (flat : FlatModule) (text : Text) (means : ℕ → Option Meaning)
        (implied : ℕ → List Meaning) (files : List ℕ → FlatFace) (outsides : List ℕ → Outside)
        (words : List ℕ) (state : KindState) (round : Reading) (readings : List Reading)
        (setting outer : Setting) (base : Meaning → Stand) (own : List Meaning) (layout : Layout)
        (leads : Leads) (new : Meaning → Bool)
        → KeepsState flat (with_own base
        (symbols_at (λ (meaning : Meaning). Unsaid) own (length outer.frame))) layout state
        → layout.places ≡ length outer.frame + length own
        → own ≡ symbols_of (nested_outside state (round ∷ readings))
        → AreDistinct own → SaysNothing base own → IsOnce state.read.place.here.exports
        → LeadsBy layout.stands setting.leads
        → ((name : Named) (next : Meaning)
        → entry_of (behind_instance (nested_outside state (round ∷ readings)).view []) name
        ≡ Some next
        → TakesBehind (exported_stand layout.stands
        (exports_of state.read.place.here.exports) name)
        (onward (behind_instance (nested_outside state (round ∷ readings)).view) name) next)
        → ((meaning : Meaning) → LeadsAs (length outer.frame) (base meaning) (leads meaning []))
        → ((meaning : Meaning) → new meaning ≡ true → is_bound meaning ≡ false
        → base meaning ≡ Unsaid)
        → IsFaceBy flat new leads
        (nested_face flat text means implied files outsides words state round setting outer)
        (nested_outside state (round ∷ readings)) }
{}

/// Names of a module and of those round it lead to what is there, and so do those of nested modules
/// that can be named, where those of files do: from the first names of the module on, behind what it
/// extends, and behind each unit whose trees can be read; and outside of it.
pub fn leads_stay_within()
    ensures first { (flat : FlatModule) (symbols : List Meaning)
        → LeadsWithin flat (with_symbols no_leads symbols 0) }
    ensures extended { (flat : FlatModule) (text : Text) (means : ℕ → Option Meaning)
        (implied : ℕ → List Meaning) (files : List ℕ → FlatFace) (outsides : List ℕ → Outside)
        (words : List ℕ) (modules : Scope Outside) (faces : Scope FlatFace) (setting : Setting)
        (leads : Leads) (names : List Lexeme) (next : Leads)
        → ((title : List ℕ) → IsFaceWithin flat (files title))
        → OfAllKnown (IsFaceWithin flat) faces.here → LeadsWithin flat leads
        → AreExtended flat text means implied files outsides words modules faces setting leads names
        next → LeadsWithin flat next }
    ensures units { (flat : FlatModule) (text : Text) (means : ℕ → Option Meaning)
        (implied : ℕ → List Meaning) (files : List ℕ → FlatFace) (outsides : List ℕ → Outside)
        (words : List ℕ) (state : KindState) (reader : Reader) (seen : List Meaning)
        (unit : UnitTree) (next : Reader) (asked : List Question)
        → ((title : List ℕ) → IsFaceWithin flat (files title)) → IsReaderWithin flat reader
        → IsUnitGivenBy flat text means implied files outsides words
        (IsFileAt flat text means implied files outsides words) state reader seen unit next
        → IsUnitMade flat text means implied files outsides words state reader unit next asked
        → IsReaderWithin flat next }
    ensures exported { (flat : FlatModule) (leads : Leads) (entries : Exports) (name : Named)
        (names : List Named) → LeadsWithin flat leads
        → IsLeadWithin flat (exported_leads leads entries (name ∷ names)) }
{}

/// What a module means in a flat module it means in one that has more, where its names lead to what
/// is there already; and it is the same to trees that name it and to modules that extend it.
pub fn meanings_grow()
    ensures means { (flat more : FlatModule) (outsides : List ℕ → Outside) (source : List ℕ)
        (units : ModuleUnits) (symbols : List Meaning) (last_reader : Reader)
        → Extends flat more → IsOrdered flat
        → ((name : Named) (names : List Named) → IsLeadWithin flat
        (exported_leads last_reader.setting.leads
        (exports_of (last outsides source units).read.place.here.exports) (name ∷ names)))
        → IsMeantSo flat outsides source units symbols last_reader
        → IsMeantSo more outsides source units symbols last_reader }
    ensures faces { (flat more : FlatModule) (new : Meaning → Bool) (leads : Leads)
        (face : FlatFace) (named : Outside) → Extends flat more → IsOrdered flat
        → ((name : Named) (names : List Named) → IsLeadWithin flat (face.leads (name ∷ names)))
        → IsFaceBy flat new leads face named → IsFaceBy more new leads face named }
    ensures extended { (flat more : FlatModule) (leads symbols : Leads) (face : FlatFace)
        (named : Outside) → Extends flat more → IsOrdered flat
        → ((name : Named) (names : List Named) → IsLeadWithin flat (face.leads (name ∷ names)))
        → IsExtendedBy flat leads symbols face named
        → IsExtendedBy more leads symbols face named }
{}
