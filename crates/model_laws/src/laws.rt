// What follows from the definitions alone.
ghost use Rattle.std.specs.Prelude.{◌≡◌, ℕ, List, Some, true, map, slice_get, Contains};
ghost use Rattle.std.specs.List.{All};
ghost use Rattle.unit_grammar.specs.Units.{ModuleUnits, UnitTree};
ghost use Rattle.module_model.specs.Bindings.{faults};
ghost use Rattle.tla_model.specs.Entities.{Meaning, Text};
ghost use Rattle.module_model.specs.Exports.{Exports, ModuleView};
ghost use Rattle.tla_model.specs.Lexemes.{module_lexemes};
ghost use Rattle.module_model.specs.Resolution.{ReadState, after, findings, first};
ghost use Rattle.model_laws.specs.Needed.{AsksNeeded};
ghost use Rattle.model_laws.specs.Settled.{IsSettled};
ghost use Rattle.module_model.specs.Substitutions.{AreApart, is_declared, replacement_of};
ghost use Rattle.tla_model.specs.Tables.{Named};
ghost use Rattle.module_model.specs.declared.face.Replacement.{Replacement};
ghost use Rattle.tla_model.specs.declared.ids.DeclId.{DeclId};

/// Each fault of a module's names stands at a lexeme that the module holds.
pub fn faults_at_lexemes()
    ensures { (files : List ℕ → ModuleView) → (source : List ℕ) → (units : ModuleUnits)
        → All (λ f. Contains (map (λ l. l.span) (module_lexemes units)) f.span)
        (faults (findings files source units)) }
{}

/// What stands for a parameter of an instantiated module is the replacement at the place of that
/// parameter, and so the one under its declaration.
pub fn replaced_by_declaration()
    ensures { (parameters : Exports) → (replacements : List Replacement) → (i : ℕ)
        → (p : Named × Meaning) → (r : Replacement) → (decl : DeclId) → AreApart parameters
        → slice_get parameters i ≡ Some p → slice_get replacements i ≡ Some r
        → is_declared p.1 decl ≡ true → replacement_of parameters replacements decl ≡ Some r }
{}

/// What the names of a module mean is told by the files that it needs: over others that agree on these,
/// the same is found at its names, and it is the same to others: what it exports, its parameters, and
/// what stands at each path of names through instances.
pub fn asks_needed()
    ensures { (source : List ℕ) → (units : ModuleUnits) → AsksNeeded source units }
{}

/// While a module is read, it is known what stands behind each instance that it exports so far, and
/// that one round it does: behind what it extends, and behind a unit where it was known before it.
pub fn instances_are_known()
    ensures begun { (files : List ℕ → ModuleView) → (source : List ℕ) → (units : ModuleUnits)
        → IsSettled (first files source units) }
    ensures kept { (text : Text) → (files : List ℕ → ModuleView) → (words : List ℕ)
        → (state : ReadState) → (unit : UnitTree) → IsSettled state
        → IsSettled (after text files words state unit) }
{}
