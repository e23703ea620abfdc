//! Sessions over a stand-in.

mod messages;
pub mod silent;

use lsp_session::{Session, SessionFault, Turn};
use messages::Row;
use silent::Silent;
use std::alloc::{AllocError, Global};
use std::process::Abort;
use std::test::Fail;
use step_count::Steps;
use tool_list::List;

fn frame_of(alloc: Global, length: usize, content: &str) -> Result<String, AllocError> {
    if content.is_empty() {
        return Ok(String::new(alloc));
    }
    format!(in alloc; "Content-Length: {length}\r\n\r\n{content}")
}

fn after(
    alloc: Global,
    session: &mut Session<Silent>,
    content: &str,
    out: &mut List<u8>,
) -> Result<Turn, SessionFault> {
    session.message(alloc, content.as_bytes(), out, &mut Steps::new(()))
}

// Hands these messages to a new session, and compares what comes.
fn follow(rt: &impl Abort, alloc: Global, rows: &'static [Row]) -> Result<Session<Silent>, Fail> {
    let mut session = Session::new(Silent::new(alloc));
    for (content, want, length, reply) in rows {
        let mut out = List::new(alloc);
        let said = after(alloc, &mut session, *content, &mut out);
        assert_eq!(rt; said, *want, "{content}");
        let frame = frame_of(alloc, *length, *reply)?;
        assert_eq!(rt; out.as_slice(), frame.as_bytes(), "{content}");
    }
    Ok(session)
}

#[test]
fn goes_on_message_by_message(rt: HostRuntime) -> Result<(), Fail> {
    let alloc = rt.alloc();
    // Each with whether it is shut in the end, and with what was told of documents.
    let sessions: [(&'static [Row], bool, &str); 6] = [
        (&messages::ORDER, true, "+u=t"),
        (&messages::FOLDER, false, ""),
        (&messages::LIMIT, false, ""),
        (&messages::EXIT, false, ""),
        (&messages::EARLY_EXIT, false, ""),
        (&messages::DOCUMENTS, false, "+u=t+v=w-v;"),
    ];
    for (rows, shut, told) in sessions {
        let session = follow(&rt, alloc, rows)?;
        assert_eq!(rt; session.shut(), shut, "{told}");
        assert_eq!(rt; session.into_answers().told(), told);
    }
    Ok(())
}
