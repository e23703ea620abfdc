//! What holds of the definitions. The functions do nothing: their clauses are the theorems.
ghost use Rattle.std.specs.Prelude.{◌≡◌, ℕ, List};
ghost use Rattle.lsp_answers.specs.States.{Opened, State, first_too_long};
ghost use Rattle.lsp_wire.specs.declared.types.Change.{Change};
ghost use Rattle.doc_edit.specs.Edits.{first_excess};
ghost use Rattle.server_documents.specs.Documents.{closed, texts_after, with_file};
ghost use Rattle.server_documents.specs.Held.{unopened};

/// A document is closed where it is no longer open and its file counts again.
pub fn closes_by_parts()
    ensures { (s : State) (o : Opened) → closed s o ≡ with_file (unopened s o) o.name }
{}

/// The first text that is too long after a change is the one of which `doc_edit` tells the length.
pub fn same_excess()
    ensures { (text : List ℕ) (changes : List Change)
        → first_too_long (texts_after text changes) ≡ first_excess text changes }
{}
