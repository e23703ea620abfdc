//! That modules which are the same to others are known alike, and that what names them is found
//! alike.
//!
//! No code: each function states a law. Knows nothing of how nodes are made, and of where files come
//! from. The laws of `known_modules` are passed on.
#![tactic(auto)]

ghost use Rattle.std.specs.Prelude.{◌≡◌, ◌∷◌, ℕ, List};
ghost use Rattle.unit_grammar.specs.Units.{ModuleUnits};
ghost use Rattle.tla_model.specs.declared.Diagnostic.{Diagnostic};
ghost use Rattle.tla_model.specs.Entities.{Meaning};
ghost use Rattle.module_facts.specs.Checks.{all_faults};
ghost use Rattle.kind_text.specs.FlatModule.{FlatModule};
ghost use Rattle.tree_kinds.specs.Standing.{Outside};
ghost use Rattle.flat_kinds.specs.Declarations.{Declarations};
ghost use Rattle.flattened_trees.specs.Leads.{FlatFace};
ghost use Rattle.flattened_trees.specs.Questions.{Question};
ghost use Rattle.written_trees.specs.Leading.{face_in};
ghost use Rattle.known_modules.specs.Known.{IsKnownFile, IsMadeOver, Knowledge, Reader, face_of};
ghost use Rattle.leveled_facts.specs.Modules.{Status, import_status, imports, leveled_by, outsides};
ghost use Rattle.alike_modules.specs.Alike.{AreFoundAlike};

pub use known_modules::{
    known_files_stay_known, made_modules_answer, made_modules_are_known, modules_are_foreign,
};
use leveled_facts::views_are_given;
use resolved_trees::{trees_tell_depths, trees_tell_expansions};

/// A face that was known of some file, whatever was known then, is known of another one, if a face
/// is that of a module with the same symbols and with the same resolved trees where its names lead.
pub fn faces_are_known_alike()
    ensures { (then declares : Declarations) (flat : FlatModule) (before knowledge : Knowledge)
        (face other : FlatFace) (was file : Outside) → IsKnownFile then flat before face was
        → IsKnownFile declares flat knowledge other file → face_in flat face ≡ face_in flat other
        → IsKnownFile declares flat knowledge face file }
{
    trees_tell_expansions();
    trees_tell_depths();
}

/// Where modules are to the names of a module what others are, and it comes over both with the same
/// nodes, symbols and questions, the same is found of it over both.
pub fn modules_are_found_alike()
    ensures { (given others : List ℕ → Status) (one two : Declarations) (flat : FlatModule)
        (before now : Knowledge) (files : List ℕ → FlatFace) (name source : List ℕ)
        (units : ModuleUnits) (symbols : List Meaning) (last : Reader) (asked : List Question)
        → ((other : List ℕ) → import_status (given other) ≡ import_status (others other))
        → IsMadeOver one flat before files (outsides given) name source units symbols last asked
        → IsMadeOver two flat now files (outsides others) name source units symbols last asked
        → AreFoundAlike (leveled_by given source units) (leveled_by others source units) }
{
    made_modules_answer();
    views_are_given();
}

/// So it is where its imports, names or arities are at fault, though it comes over neither: then
/// its levels do not count.
pub fn refused_modules_are_found_alike()
    ensures { (given others : List ℕ → Status) (source : List ℕ) (units : ModuleUnits)
        (fault : Diagnostic) (rest : List Diagnostic)
        → ((other : List ℕ) → import_status (given other) ≡ import_status (others other))
        → all_faults (imports given) source units ≡ fault ∷ rest
        → AreFoundAlike (leveled_by given source units) (leveled_by others source units) }
{
    views_are_given();
}

/// A module has the same face over modules that show the same names, where the same of these are
/// constant; and so it has where it comes over both with the same faces.
pub fn faces_are_made_alike()
    ensures shown { (given others : List ℕ → Status) (source : List ℕ) (units : ModuleUnits)
        (last : Reader)
        → ((other : List ℕ) → (outsides given other).view ≡ (outsides others other).view)
        → ((other : List ℕ)
        → (outsides given other).is_constant ≡ (outsides others other).is_constant)
        → face_of (outsides given) source units last ≡ face_of (outsides others) source units last }
    ensures made { (given others : List ℕ → Status) (one two : Declarations) (flat : FlatModule)
        (before now : Knowledge) (files : List ℕ → FlatFace) (name source : List ℕ)
        (units : ModuleUnits) (symbols : List Meaning) (last : Reader) (asked : List Question)
        → ((other : List ℕ) → (outsides given other).view ≡ (outsides others other).view)
        → IsMadeOver one flat before files (outsides given) name source units symbols last asked
        → IsMadeOver two flat now files (outsides others) name source units symbols last asked
        → face_of (outsides given) source units last ≡ face_of (outsides others) source units last }
{}
