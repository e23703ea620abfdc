// The input, piece by piece.
ghost use Rattle.std.specs.Prelude.{◌≡◌, ◌+◌, ◌^◌, ◌<◌, ◌≤◌, IfOk, IfSome, true, false, Some, length, vec_len};
ghost use Rattle.std.specs.Io.KnownBytes.{ReadConsumes};
ghost use Rattle.tool_io.specs.Causes.{HasOneCause};
ghost use Rattle.tool_io.specs.Source.{given};
ghost use Rattle.lsp_serve.specs.Ends.{IsPlain, is_status, status_of, end_of_input, ServesInput};
ghost use Rattle.lsp_serve.specs.Ends.{HasFolderCause, HasInputCause, HasOutputCause};
ghost use Rattle.lsp_serve.specs.InTime.{ReadsInTime};
ghost use Rattle.lsp_serve.specs.Serving.{most_input};
ghost use Rattle.lsp_session.specs.declared.phase.Phase.TheVariants.{Uninitialized};
ghost use Rattle.tool_output.specs.Output.{TellsFault};

use crate::ends::End;
use crate::messages::take_piece;
use lsp_answers::Answers;
use lsp_session::Session;
use rpc_frame::Framer;
use std::alloc::Global;
use step_count::Steps;
use tool_io::{Failed, Sink, Source};
use tool_list::Memory;

// The most bytes of input.
const MOST_INPUT: u64 = 1 << 40;

// The most bytes that are read at once.
const MOST_PIECE: usize = 1 << 16;

// How many bytes may be read at once, after so many: none beyond the most, but one behind them.
fn room_after(read: u64, size: usize) -> usize
    requires within { read ≤ most_input }
    requires some { 0 < size }
    ensures some { 0 < result }
    ensures fits { result ≤ size }
    ensures most { read < most_input → read + result ≤ most_input }
{
    size.min((MOST_INPUT - read) as usize).max(1)
}

// Reads the next bytes into the front of a buffer, at most so many.
fn read_piece<S: Source>(input: &mut S, buffer: &mut [u8], most: usize) -> Result<usize, Failed>
    requires some { 0 < most }
    requires fits { most ≤ length buffer.old }
    ensures bound { IfOk result (λ count. count ≤ most) }
    ensures bytes { ReadConsumes (S.left input.old) (S.left input.new) result buffer.new }
    ensures gave { IfSome (S.left input.new) (λ _. S.last input.new ≡ given result) }
    ensures cause { HasOneCause (S.fault_count input.old) (S.fault_count input.new) result }
{
    let count = input.read(&mut buffer[..most])?;
    Ok(count)
}

// The end where the input ends.
fn end_of_input(shut: bool, inside: bool) -> End
    ensures { result ≡ end_of_input shut inside }
{
    if shut && !inside {
        End::Done { status: 0 }
    } else {
        End::Done { status: 1 }
    }
}

// Reads the input and answers its messages, up to where the session ends.
fn read_on<A: Answers, S: Source, K: Sink, L>(
    alloc: Global,
    session: &mut Session<A>,
    buffer: &mut [u8],
    input: &mut S,
    output: &mut K,
    steps: &mut Steps<L>,
) -> End
    requires fresh { session.old.phase ≡ Uninitialized }
    requires awake { session.old.spent ≡ false }
    requires some { 0 < length buffer.old }
    requires few { length buffer.old ≤ 2 ^ 16 }
    ensures answers { ServesInput A.meaning (A.state session.old.answers) (S.left input.old)
        (status_of result) (A.state session.new.answers) (K.taken output.old) (K.taken output.new) }
    ensures in_time { ReadsInTime A.meaning (A.state session.old.answers) (S.left input.old)
        (S.left input.new) (S.last input.new) (status_of result)
        (K.taken output.old) (K.taken output.new) }
    ensures ends { IsPlain result }
    ensures folder_fault { HasFolderCause (A.fault_count session.old.answers)
        (A.fault_count session.new.answers) (Some result) }
    ensures input_fault { HasInputCause (S.fault_count input.old) (S.fault_count input.new)
        (Some result) }
    ensures output_fault { HasOutputCause (K.fault_count output.old) (K.fault_count output.new)
        (Some result) }
{
    let mut framer = Framer::new(alloc);
    let mut read = 0;
    'pieces: loop {
        let room = room_after(read, buffer.len());
        let count = match read_piece(input, buffer, room) {
            Ok(0) => return end_of_input(session.shut(), framer.inside()),
            Ok(count) => count,
            Err(Failed) => return End::InputFault,
        };
        if read == MOST_INPUT {
            return End::Limit;
        }
        let piece = &buffer[..count];
        match take_piece(alloc, session, &mut framer, piece, output, steps) {
            Some(end) => return end,
            None => read += count as u64,
        }
    }
}

// Room for the bytes that are read at once.
fn new_buffer(alloc: Global) -> Result<Vec<u8>, Memory>
    ensures { IfOk result (λ buffer. vec_len buffer ≡ 2 ^ 16) }
{
    let buffer = vec![in alloc; 0; MOST_PIECE]?;
    Ok(buffer)
}

// Reads the input and answers its messages, with room for what is read.
fn serve_session<A: Answers, S: Source, K: Sink, L>(
    alloc: Global,
    session: &mut Session<A>,
    input: &mut S,
    output: &mut K,
    steps: &mut Steps<L>,
) -> End
    requires fresh { session.old.phase ≡ Uninitialized }
    requires awake { session.old.spent ≡ false }
    ensures answers { ServesInput A.meaning (A.state session.old.answers) (S.left input.old)
        (status_of result) (A.state session.new.answers) (K.taken output.old) (K.taken output.new) }
    ensures in_time { ReadsInTime A.meaning (A.state session.old.answers) (S.left input.old)
        (S.left input.new) (S.last input.new) (status_of result)
        (K.taken output.old) (K.taken output.new) }
    ensures ends { IsPlain result }
    ensures folder_fault { HasFolderCause (A.fault_count session.old.answers)
        (A.fault_count session.new.answers) (Some result) }
    ensures input_fault { HasInputCause (S.fault_count input.old) (S.fault_count input.new)
        (Some result) }
    ensures output_fault { HasOutputCause (K.fault_count output.old) (K.fault_count output.new)
        (Some result) }
{
    match new_buffer(alloc) {
        Ok(mut buffer) => read_on(alloc, session, &mut buffer, input, output, steps),
        Err(Memory) => End::NoMemory,
    }
}

/// Answers the messages of an input, one after another, and hands back whoever answers. What answers
/// a message is written before the input is read further. The first answer is the status: 0 where
/// `exit` came after an answered `shutdown`, or the input ended after it between two frames; 1 where
/// `exit` came without it, or the input ended without it or inside a frame; 3, 4 and 5 where the
/// folder, the input and the output failed; 6 where there was no room; 7 where a message met a limit, a
/// header says more than 2^24 bytes, or more than 2^40 bytes came; 8 where bytes came behind the
/// messages that begin no header.
pub fn serve<A: Answers, S: Source, K: Sink, L>(
    alloc: Global,
    answers: A,
    input: &mut S,
    output: &mut K,
    steps: &mut Steps<L>,
) -> (u8, A)
    // Whatever the status, the bytes written are from the front of the session's over the input,
    // however that is cut. Where no object failed and there was room, all of them are written, and the
    // status is the session's; and but for a limit the session's calls leave whoever answers.
    ensures answers { ServesInput A.meaning (A.state answers) (S.left input.old) result.0
        (A.state result.1) (K.taken output.old) (K.taken output.new) }
    ensures status { is_status result.0 ≡ true }

    // Each message is answered before the input is read further.
    ensures in_time { ReadsInTime A.meaning (A.state answers) (S.left input.old) (S.left input.new)
        (S.last input.new) result.0 (K.taken output.old) (K.taken output.new) }

    // When each status comes that is no end of the session.
    ensures folder_fault { TellsFault 3 result.0 (A.fault_count answers)
        (A.fault_count result.1) }
    ensures input_fault { TellsFault 4 result.0 (S.fault_count input.old)
        (S.fault_count input.new) }
    ensures output_fault { TellsFault 5 result.0 (K.fault_count output.old)
        (K.fault_count output.new) }
{
    let mut session = Session::new(answers);
    let end = serve_session(alloc, &mut session, input, output, steps);
    (end.status(), session.into_answers())
}
