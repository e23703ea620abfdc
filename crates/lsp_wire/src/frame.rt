//! A frame round a content.

ghost use Rattle.std.specs.Prelude.{◌≡◌, ◌++◌, IfOk, OnOk, OnErr, codes, decimal, length, string_bytes};
ghost use Rattle.rpc_frame.specs.Frames.{frame_of};

use std::alloc::{AllocError, Global};
use std::mem;
use tool_list::{List, Memory};

/// Appends the content in a frame. After `Memory` the bytes are as before.
pub fn append_frame(alloc: Global, content: &[u8], out: &mut List<u8>) -> Result<(), Memory>
    ensures ok { OnOk result (out.new ≡ out.old ++ frame_of content.now) }
    ensures err { OnErr result (out.new ≡ out.old) }
{
    let frame = frame_of(alloc, content)?;
    let mut bytes = mem::replace(out, List::new(alloc)).into_vec();
    let extended = bytes.extend_from_slice(&frame);
    *out = List::from_vec(bytes);
    match extended {
        Ok(()) => Ok(()),
        Err(_) => Err(Memory),
    }
}

fn frame_of(alloc: Global, content: &[u8]) -> Result<Vec<u8>, AllocError>
    ensures { IfOk result (λ frame. frame.items ≡ frame_of content.now) }
{
    let header = header(alloc, content.len())?;
    let mut frame = Vec::from_slice(alloc, header.as_bytes())?;
    frame.extend_from_slice(content)?;
    Ok(frame)
}

fn header(alloc: Global, length: usize) -> Result<String, AllocError>
    ensures { IfOk result
        (λ text. string_bytes text
        ≡ codes "Content-Length: " ++ (decimal length ++ codes "\r\n\r\n")) }
{
    format!(in alloc; "Content-Length: {length}\r\n\r\n")
}
