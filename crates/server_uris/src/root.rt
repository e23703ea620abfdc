// The roots that URIs name.
ghost use Rattle.std.specs.Prelude.{◌≡◌, IfOk};
ghost use Rattle.std.specs.Option.{option_copied};
ghost use Rattle.server_uris.specs.Uris as uris;

use percent_encoding::{DecodeError, percent_decode};
use std::alloc::Global;
use std::marker::Model;
use tool_list::{Chars, Memory};
use url::{ParseError, Url};

/// The root of a folder. Contracts see its text and the path of its folder, if it names one.
pub struct Root {
    text: Chars,
    path: Option<Chars>,
}

// By hand, so that a proof meets one call wherever a value ends.
impl Drop for Root {
    fn drop(self) {
        let Root { text: _, path: _ } = self;
    }
}

impl Model for Root {
    ghost use Rattle.lsp_answers.specs.States as states;

    ghost Value = { states.Root };

    ghost view = { λ root. record { text = root.text; path = root.path } };
}

impl Root {
    /// The text of its URL, behind which the names of files stand.
    pub fn text(&self) -> &str
        ensures { result.now ≡ self.now.text }
    {
        self.text.as_str()
    }

    /// The path of its folder, if it names one.
    pub fn path(&self) -> Option<&str>
        ensures { option_copied result ≡ self.now.path }
    {
        match &self.path {
            Some(path) => Some(path.as_str()),
            None => None,
        }
    }
}

/// The URL that a URI is, if it is one. `Memory` comes where there was no room, and where its text
/// would have 4 GiB.
pub fn url_in(alloc: Global, uri: &str) -> Result<Option<Url>, Memory>
    ensures { IfOk result (λ url. url ≡ uris.url_in uri.now) }
{
    match Url::parse(alloc, uri) {
        Ok(url) => Ok(Some(url)),
        Err(ParseError::OutOfMemory | ParseError::Overflow) => Err(Memory),
        Err(_) => Ok(None),
    }
}

// A text without one `/` at its end.
fn without_slash(text: &str) -> &str
    ensures { result.now ≡ uris.without_slash text.now }
{
    match text.strip_suffix("/") {
        Some(front) => front,
        None => text,
    }
}

// The same of a path, unless `/` is all of it.
fn cut_path(path: &str) -> &str
    ensures { result.now ≡ uris.cut_path path.now }
{
    if path == "/" {
        return path;
    }
    without_slash(path)
}

// The folder that a URL names, if it is one of a file and its path is UTF-8 once it is decoded.
fn folder_of(alloc: Global, url: &Url) -> Result<Option<Chars>, Memory>
    ensures { IfOk result (λ folder. folder ≡ uris.folder_of url.now) }
{
    if url.scheme() != "file" {
        return Ok(None);
    }
    let decoded = percent_decode(cut_path(url.path()).as_bytes());
    match decoded.decode_utf8(alloc) {
        Ok(path) => Ok(Some(Chars::from_str(alloc, &path)?)),
        Err(DecodeError::Utf8(_)) => Ok(None),
        Err(DecodeError::OutOfMemory) => Err(Memory),
    }
}

/// The root that a client's URI is, if it is a URL: its text without one `/` at the end, and the path
/// of a `file` URL, decoded (LSP, `rootUri`).
pub fn client_root(alloc: Global, uri: &str) -> Result<Option<Root>, Memory>
    ensures { IfOk result (λ root. root ≡ uris.client_root_of uri.now) }
{
    let Some(url) = url_in(alloc, uri)? else {
        return Ok(None);
    };
    let text = Chars::from_str(alloc, without_slash(url.as_str()))?;
    let path = folder_of(alloc, &url)?;
    Ok(Some(Root { text, path }))
}

// What stands before the last `/` of a text.
fn before_last_slash(text: &str) -> Option<&str>
    ensures { option_copied result ≡ uris.before_last_slash text.now }
{
    match text.rfind('/') {
        Some(at) => Some(&text[..at]),
        None => None,
    }
}

/// The root that the first document makes, where its URL has a `/`: it has the URL's text before the
/// last one, and no folder is read for it.
pub fn document_root(alloc: Global, uri: &str) -> Result<Option<Root>, Memory>
    ensures { IfOk result (λ root. root ≡ uris.document_root uri.now) }
{
    let Some(url) = url_in(alloc, uri)? else {
        return Ok(None);
    };
    let Some(front) = before_last_slash(url.as_str()) else {
        return Ok(None);
    };
    Ok(Some(Root {
        text: Chars::from_str(alloc, front)?,
        path: None,
    }))
}
