//! What holds of the definitions. The functions do nothing: their clauses are the theorems.
ghost use Rattle.std.specs.Prelude.{◌≡◌, ◌↔◌, ℕ, List, Some, None, codes};
ghost use Rattle.server_uris.specs.Uris.{IsBeforeLastSlash, IsModuleText, before_last_slash};
ghost use Rattle.server_uris.specs.Uris.{client_root_of, cut_path, document_root, module_behind};
ghost use Rattle.server_uris.specs.Uris.{without_slash};

/// A text behind a root's is a module's exactly where it is the root's text, `/`, an identifier, which
/// is the module's name, and `.tla`. So a document is one module, and a module has one such text.
pub fn module_text()
    ensures { (root text name : List ℕ)
        → (module_behind root text ≡ Some name) ↔ IsModuleText root text name }
{}

/// The root that the first document makes is what stands before the last `/` of its URL's text.
pub fn last_slash()
    ensures { (text front : List ℕ)
        → (before_last_slash text ≡ Some front) ↔ IsBeforeLastSlash text front }
{}

/// Small cases of texts of URLs, by computation.
pub fn small_texts()
    ensures twice { without_slash (codes "file:///w//") ≡ codes "file:///w/" }
    ensures query { without_slash (codes "file:///w/?q") ≡ codes "file:///w/?q" }
    ensures alone { cut_path (codes "/") ≡ codes "/" }
    ensures path { cut_path (codes "/w/") ≡ codes "/w" }
    ensures first { before_last_slash (codes "file:///w/sub/A.tla") ≡ Some (codes "file:///w/sub") }
{}

/// Small cases of URIs, by computation: roots that a client names, with the folder that is read for
/// each, and a root that the first document makes.
pub fn small_roots()
    ensures query { client_root_of (codes "file:///w/?q")
        ≡ Some (record { text = codes "file:///w/?q"; path = Some (codes "/w") }) }
    ensures twice { client_root_of (codes "file:///w//")
        ≡ Some (record { text = codes "file:///w/"; path = Some (codes "/w/") }) }
    ensures decoded { client_root_of (codes "FILE:///a%20b/")
        ≡ Some (record { text = codes "file:///a%20b"; path = Some (codes "/a b") }) }
    ensures web { client_root_of (codes "http://w/a")
        ≡ Some (record { text = codes "http://w/a"; path = None }) }
    ensures document { document_root (codes "file:///w/A.tla")
        ≡ Some (record { text = codes "file:///w"; path = None }) }
{}
