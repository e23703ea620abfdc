//! The JSON of symbols, with those inside them.

ghost use Rattle.std.specs.Prelude.{◌≡◌, ◌++◌, IfOk, codes, decimal, false, map, string_bytes};
ghost use Rattle.serde_json.specs.Written.{compact_text, members_text};
ghost use Rattle.serde_json.specs.Data.{array};
ghost use Rattle.serde_json.specs.View.{items_of};
ghost use Rattle.lsp_wire.specs.Written.{symbol_data, symbol_members};

use crate::pieces::{area_text, push_item, quoted_text};
use crate::types::{Area, Symbol};
use std::alloc::{AllocError, Global};

#[cycle(symbols)]
fn symbol_text(alloc: Global, symbol: &Symbol) -> Result<String, AllocError>
    ensures { IfOk result (λ json. string_bytes json ≡ compact_text (symbol_data symbol.now)) }
{
    let name = symbol.name.as_str();
    let members = members_text(alloc, name, symbol.kind, symbol.area, symbol.name_area)?;
    match &symbol.children {
        Some(children) => {
            let children = symbols_text(alloc, children.as_slice())?;
            let text = nested_around(alloc, children.as_str(), members.as_str())?;
            Ok(text)
        }
        None => {
            let text = single_around(alloc, members.as_str())?;
            Ok(text)
        }
    }
}

/// The JSON of symbols, in order.
#[cycle(symbols)]
pub fn symbols_text(alloc: Global, symbols: &[Symbol]) -> Result<String, AllocError>
    ensures { IfOk result (λ json. string_bytes json
        ≡ compact_text (array (items_of (map symbol_data symbols.now)))) }
{
    let mut text = String::from_str(alloc, "[")?;
    let mut later = false;
    'symbols: for symbol in symbols {
        let item = symbol_text(alloc, symbol)?;
        push_item(&mut text, later, item.as_str())?;
        later = true;
    }
    text.push_str("]")?;
    Ok(text)
}

fn nested_around(alloc: Global, children: &str, members: &str) -> Result<String, AllocError>
    ensures { IfOk result (λ json. string_bytes json
        ≡ codes "{\"children\":" ++ (children.now ++ (codes "," ++ members.now))) }
{
    format!(in alloc; "{{\"children\":{children},{members}")
}

fn single_around(alloc: Global, members: &str) -> Result<String, AllocError>
    ensures { IfOk result (λ json. string_bytes json ≡ codes "{" ++ members.now) }
{
    format!(in alloc; "{{{members}")
}

// The members of a symbol but for those inside it, and the closing brace.
fn members_text(
    alloc: Global,
    name: &str,
    kind: u8,
    area: Area,
    name_area: Area,
) -> Result<String, AllocError>
    ensures { IfOk result (λ json. string_bytes json
        ≡ members_text false (symbol_members name.now kind area name_area)) }
{
    let name = quoted_text(alloc, name)?;
    let area = area_text(alloc, area)?;
    let name_area = area_text(alloc, name_area)?;
    members_around(
        alloc,
        kind,
        name.as_str(),
        area.as_str(),
        name_area.as_str(),
    )
}

fn members_around(
    alloc: Global,
    kind: u8,
    name: &str,
    area: &str,
    name_area: &str,
) -> Result<String, AllocError>
    ensures { IfOk result (λ json. string_bytes json
        ≡ codes "\"kind\":" ++ (decimal kind ++ (codes ",\"name\":" ++ (name.now
        ++ (codes ",\"range\":" ++ (area.now ++ (codes ",\"selectionRange\":"
        ++ (name_area.now ++ codes "}")))))))) }
{
    format!(in alloc;
        "\"kind\":{kind},\"name\":{name},\"range\":{area},\"selectionRange\":{name_area}}}"
    )
}
