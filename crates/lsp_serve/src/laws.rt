//! What holds of sessions over whole streams. The functions do nothing: their clauses are the theorems.

ghost use Rattle.std.specs.Prelude.{◌≡◌, ℕ, List, IsSome};
ghost use Rattle.lsp_answers.specs.States.{State, Meaning};
ghost use Rattle.lsp_serve.specs.Serving.{Served, IsSession, FolderTells, KeepsTelling};

/// Over each stream, whatever its bytes, a session comes to something, and to one thing alone.
pub fn one_session()
    ensures comes { (m : Meaning) (s : State) (stream : List ℕ)
        → (all : Served) × IsSession m s stream all }
    ensures one { (m : Meaning) (s : State) (stream : List ℕ) (all other : Served)
        → IsSession m s stream all → IsSession m s stream other → all ≡ other }
{}

/// A folder that tells, and goes on telling whatever is called, tells wherever a message asks it.
pub fn folder_goes_on_telling()
    ensures { (m : Meaning) (s : State) (stream : List ℕ) → KeepsTelling m → IsSome s.folder
        → FolderTells m s stream }
{}
