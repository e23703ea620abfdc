//! What holds of the definitions. The functions do nothing: their clauses are the theorems.

ghost use Rattle.std.specs.Prelude.{◌≡◌, ◌≢◌, ◌↔◌, ℕ, List, [], ◌∷◌, Option, None, Some, codes, map};
ghost use Rattle.std.specs.Prelude.{slice_get, true};
ghost use Rattle.lsp_wire.specs.declared.types.Change.{Change};
ghost use Rattle.lsp_answers.specs.States.{State, LooksAtTexts, ModuleText, all_notices, dues_of};
ghost use Rattle.lsp_answers.specs.States.{first_too_long, judged, judged_change, judged_root};
ghost use Rattle.doc_edit.specs.Edits.{first_backward, is_backward};
ghost use Rattle.server_documents.specs.Documents.{after_close, after_open, after_root, opened_at};
ghost use Rattle.server_documents.specs.Documents.{root_modules, text_of, with_file};
ghost use Rattle.server_documents.specs.Documents.{with_text, IsRooted};
ghost use Rattle.server_texts.specs.Kept.{AreInByteOrder, HasMembers, HasNamesInOrder, HasTexts};
ghost use Rattle.server_texts.specs.Kept.{IsKept};
ghost use Rattle.server_texts.specs.Notes.{notes_of};
ghost use Rattle.server_texts.specs.Server.{server_meaning};
ghost use Rattle.server_uris.specs.Uris.{module_of};

/// Notes look at the texts alone, and a root that is taken and a file that is read open and close no
/// document.
pub fn looks_at_texts()
    ensures { LooksAtTexts server_meaning }
{}

/// Texts stay in byte order of names, none of them twice, and so do open documents: from a state that
/// holds none, when a root is taken, with each file that is read, and through each notification.
pub fn names_stay_in_order()
    ensures first { (s : State) → s.texts ≡ [] → s.opened ≡ [] → HasNamesInOrder s }
    ensures taken { (s : State) (root : Option (List ℕ))
        → HasNamesInOrder s → HasNamesInOrder (after_root s root) }
    ensures read { (s : State) (name : List ℕ)
        → HasNamesInOrder s → HasNamesInOrder (with_file s name) }
    ensures root { (s : State) (root : Option (List ℕ))
        → HasNamesInOrder s → HasNamesInOrder (judged_root server_meaning s root).state }
    ensures kept { IsKept server_meaning (λ s. HasNamesInOrder s) }
{}

/// The modules whose files are read for a root are in byte order of names, each once.
pub fn root_modules_in_order()
    ensures { (s : State) (root : Option (List ℕ)) → AreInByteOrder (root_modules s root) }
{}

/// The URI of each open document stays one of its module, if none is open when a root is taken.
pub fn opened_are_members()
    ensures root { (s : State) (root : Option (List ℕ)) → s.opened ≡ [] → s.due ≡ None
        → HasMembers (judged_root server_meaning s root).state }
    ensures kept { IsKept server_meaning (λ s. HasMembers s) }
{}

/// Notices stand in byte order of the names of the modules that their URIs are, at most one for each.
pub fn notices_in_order()
    ensures { (s : State) → HasNamesInOrder s → HasMembers s
        → (names : List (List ℕ)) × AreInByteOrder names
        × (map (λ due. module_of s.root due.uri) (dues_of notes_of s)
        ≡ map (λ name. Some name) names) }
{}

/// Each open document stays one that has a text, if none is open when a root is taken.
pub fn opened_have_texts()
    ensures root { (s : State) (root : Option (List ℕ)) → s.opened ≡ []
        → HasTexts (judged_root server_meaning s root).state }
    ensures kept { IsKept server_meaning HasTexts }
{}

/// A text in byte order is the one of its name. A module has the text that it gets, or none where it
/// loses it, and no other module's text changes.
pub fn texts_by_name()
    ensures only { (s : State) (index : ℕ) (t : ModuleText) → HasNamesInOrder s
        → slice_get s.texts index ≡ Some t → text_of s t.name ≡ Some t.bytes }
    ensures given { (s : State) (name : List ℕ) (bytes : Option (List ℕ))
        → text_of (with_text s name bytes) name ≡ bytes }
    ensures others { (s : State) (name other : List ℕ) (bytes : Option (List ℕ))
        → other ≢ name → text_of (with_text s name bytes) other ≡ text_of s other }
{}

/// Messages that change nothing: on documents that are not open, changes of which one is backward, and
/// the text of a document that is no member of the root that is there.
pub fn nothing_happens()
    ensures changed { (s : State) (uri : List ℕ) (changes : List Change)
        → opened_at s uri ≡ None → judged_change server_meaning s uri changes ≡ judged s }
    ensures backward { (s : State) (uri : List ℕ) (changes : List Change) (index : ℕ)
        → first_backward changes ≡ Some index
        → judged_change server_meaning s uri changes ≡ judged s }
    ensures closed { (s : State) (uri : List ℕ)
        → opened_at s uri ≡ None → after_close s uri ≡ s }
    ensures opened { (s : State) (uri text : List ℕ)
        → IsRooted s → module_of s.root uri ≡ None → after_open s uri text ≡ s }
{}

/// Small cases, by computation: a range that is backward by its numbers, and notices in byte order of
/// names, that of a closed document among them.
pub fn small_cases()
    ensures backward { is_backward (Some (record
        { start = record { line = 1; unit = 3 }; end = record { line = 1; unit = 2 } })) ≡ true }
    ensures between { map (λ due. due.uri) (all_notices (λ name. [])
        (record { name = codes "B"; uri = codes "b" })
        (record { name = codes "A"; uri = codes "a"; sent = None }
        ∷ record { name = codes "C"; uri = codes "c"; sent = None } ∷ []))
        ≡ codes "a" ∷ codes "b" ∷ codes "c" ∷ [] }
{}
