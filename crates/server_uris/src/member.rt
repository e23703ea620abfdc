// The modules that documents are, by their URIs.
ghost use Rattle.std.specs.Prelude.{◌≡◌, IfOk};
ghost use Rattle.std.specs.Option.{option_copied};
ghost use Rattle.server_uris.specs.Uris as uris;

use crate::root::{Root, url_in};
use file_names::{file_of, module_of_file};
use std::alloc::Global;
use tool_list::{Chars, Memory};

// What stands behind a front, if a text begins with it.
fn behind_front<'a>(front: &str, text: &'a str) -> Option<&'a str>
    ensures { option_copied result ≡ uris.behind_front front.now text.now }
{
    text.strip_prefix(front)
}

// What stands behind a root's text and a `/`, if a text begins so.
fn behind_root<'a>(root: &str, text: &'a str) -> Option<&'a str>
    ensures { option_copied result ≡ uris.behind_root root.now text.now }
{
    behind_front("/", behind_front(root, text)?)
}

// The module of a text behind a root's.
fn module_behind<'a>(root: &str, text: &'a str) -> Option<&'a str>
    ensures { option_copied result ≡ uris.module_behind root.now text.now }
{
    module_of_file(behind_root(root, text)?)
}

/// The module that a document is, if it is a member of the root: its URL is the root's text, `/`, an
/// identifier, which is the module's name, and `.tla`. Without a root no document is one.
pub fn module_of(alloc: Global, root: Option<&Root>, uri: &str) -> Result<Option<Chars>, Memory>
    ensures { IfOk result (λ name. name ≡ uris.module_of (option_copied root.entry) uri.now) }
{
    let Some(root) = root else {
        return Ok(None);
    };
    let Some(url) = url_in(alloc, uri)? else {
        return Ok(None);
    };
    let Some(name) = module_behind(root.text(), url.as_str()) else {
        return Ok(None);
    };
    Ok(Some(Chars::from_str(alloc, name)?))
}

/// The URI of a module behind a root's text.
pub fn uri_of(alloc: Global, root: &str, name: &str) -> Result<Chars, Memory>
    ensures { IfOk result (λ uri. uri ≡ uris.uri_of root.now name.now) }
{
    let file = file_of(alloc, name)?;
    let file = file.as_str();
    let uri = format!(in alloc; "{root}/{file}")?;
    Chars::from_str(alloc, uri.as_str())
}
