//! Requests: refused, or answered.

ghost use Rattle.std.specs.Prelude.{◌≡◌, ◌++◌, IfOk, IfErr, IsSome, OnOk, OnErr, option_map};
ghost use Rattle.rpc_frame.specs.Frames.{frame_of};
ghost use Rattle.lsp_wire.specs.Replies.{reply_content};
ghost use Rattle.lsp_answers.specs.States.{IsQuestion};
ghost use Rattle.lsp_session.specs.SessionOutput.{refusal, refused, initialized, questioned, answered};
ghost use Rattle.lsp_session.specs.SessionOutput.{requested, phase_after, IsAnswered};
ghost use Rattle.lsp_session.specs.SessionOutput.{TellsAnswered, TellsRequested, IsDone};
ghost use Rattle.lsp_session.specs.SessionOutput.{HasSessionCause, Adds};

use crate::phase::{Phase, SessionFault, fault_of};
use lsp_answers::Answers;
use lsp_wire::{
    Call, INVALID_PARAMS, INVALID_REQUEST, Id, METHOD_NOT_FOUND, Reply, SERVER_NOT_INITIALIZED,
    Uri, write_error, write_reply,
};
use std::alloc::Global;
use step_count::Steps;
use tool_list::List;

// Why a request is refused, if it is: the first reason that fits.
fn refusal(phase: Phase, call: &Call) -> Option<i32>
    ensures { result ≡ refusal phase call.now }
{
    match phase {
        Phase::Uninitialized => match call {
            Call::Initialize { .. } => None,
            _ => Some(SERVER_NOT_INITIALIZED),
        },
        Phase::Stopped => Some(INVALID_REQUEST),
        Phase::Running => match call {
            Call::Initialize { .. } => Some(INVALID_REQUEST),
            Call::Unknown => Some(METHOD_NOT_FOUND),
            Call::BadParams => Some(INVALID_PARAMS),
            _ => None,
        },
    }
}

// Takes the client's root, and answers `initialize`.
fn initialize<A: Answers, L>(
    answers: &mut A,
    alloc: Global,
    id: &Id,
    root: Option<&Uri>,
    out: &mut List<u8>,
    steps: &mut Steps<L>,
) -> Result<(), SessionFault>
    ensures goes { IsSome (A.state answers.old).folder
        → IsDone (initialized A.meaning (A.state answers.old) id.now
        (option_map (λ uri. uri.now) root.entry))
        out.old out.new (A.state answers.new) result }
    ensures cause { HasSessionCause (A.fault_count answers.old) (A.fault_count answers.new) result }
    ensures adds { Adds out.old out.new result }
{
    match answers.root(alloc, root, steps) {
        Ok(()) => reply(alloc, id, &Reply::Initialized, out),
        Err(fault) => Err(fault_of(fault)),
    }
}

// Answers a question on the texts.
fn question<A: Answers, L>(
    answers: &mut A,
    alloc: Global,
    id: &Id,
    call: &Call,
    out: &mut List<u8>,
    steps: &mut Steps<L>,
) -> Result<(), SessionFault>
    requires { IsQuestion call.now }
    ensures goes { IsDone (questioned A.meaning (A.state answers.old) id.now call.now)
        out.old out.new (A.state answers.new) result }
    ensures cause { HasSessionCause (A.fault_count answers.old) (A.fault_count answers.new) result }
    ensures adds { Adds out.old out.new result }
{
    match answers.ask(alloc, call, steps) {
        Ok(found) => reply(alloc, id, &found, out),
        Err(_) => Err(SessionFault::Memory),
    }
}

// Appends the frame of an answer.
fn reply(alloc: Global, id: &Id, found: &Reply, out: &mut List<u8>) -> Result<(), SessionFault>
    ensures ok { OnOk result (out.new ≡ out.old ++ frame_of (reply_content id.now found.now)) }
    ensures err { OnErr result (out.new ≡ out.old) }
    ensures memory { IfErr result (λ fault. fault ≡ SessionFault.Memory) }
{
    match write_reply(alloc, id, found, out) {
        Ok(()) => Ok(()),
        Err(_) => Err(SessionFault::Memory),
    }
}

/// Answers with an error.
pub fn refuse(alloc: Global, id: &Id, code: i32, out: &mut List<u8>) -> Result<(), SessionFault>
    ensures ok { OnOk result (out.new ≡ out.old ++ refused id.now code) }
    ensures err { OnErr result (out.new ≡ out.old) }
    ensures memory { IfErr result (λ fault. fault ≡ SessionFault.Memory) }
{
    match write_error(alloc, id, code, out) {
        Ok(()) => Ok(()),
        Err(_) => Err(SessionFault::Memory),
    }
}

// Answers a request that is not refused. Gives the phase that it leads to.
fn answer<A: Answers, L>(
    answers: &mut A,
    alloc: Global,
    id: &Id,
    call: &Call,
    out: &mut List<u8>,
    steps: &mut Steps<L>,
) -> Result<Phase, SessionFault>
    requires { IsAnswered call.now }
    ensures goes { TellsAnswered (A.state answers.old) call.now
        → IsDone (answered A.meaning (A.state answers.old) id.now call.now)
        out.old out.new (A.state answers.new) result }
    ensures phase { IfOk result (λ phase. phase ≡ phase_after call.now) }
    ensures cause { HasSessionCause (A.fault_count answers.old) (A.fault_count answers.new) result }
    ensures adds { Adds out.old out.new result }
{
    match call {
        Call::Initialize { root } => {
            match initialize(answers, alloc, id, root.as_ref(), out, steps) {
                Ok(()) => Ok(Phase::Running),
                Err(fault) => Err(fault),
            }
        }
        Call::Shutdown => match reply(alloc, id, &Reply::Null, out) {
            Ok(()) => Ok(Phase::Stopped),
            Err(fault) => Err(fault),
        },
        _ => match question(answers, alloc, id, call, out, steps) {
            Ok(()) => Ok(Phase::Running),
            Err(fault) => Err(fault),
        },
    }
}

/// Refuses or answers a request. Gives the phase that it leads to.
pub fn request<A: Answers, L>(
    answers: &mut A,
    alloc: Global,
    phase: Phase,
    id: &Id,
    call: &Call,
    out: &mut List<u8>,
    steps: &mut Steps<L>,
) -> Result<Phase, SessionFault>
    ensures goes { TellsRequested (refusal phase call.now) (A.state answers.old) call.now
        → IsDone (requested A.meaning phase (A.state answers.old) id.now call.now)
        out.old out.new (A.state answers.new) result }
    ensures phase { IfOk result
        (λ next. next ≡ (requested A.meaning phase (A.state answers.old) id.now call.now).phase) }
    ensures cause { HasSessionCause (A.fault_count answers.old) (A.fault_count answers.new) result }
    ensures adds { Adds out.old out.new result }
{
    match refusal(phase, call) {
        Some(code) => match refuse(alloc, id, code, out) {
            Ok(()) => Ok(phase),
            Err(fault) => Err(fault),
        },
        None => answer(answers, alloc, id, call, out, steps),
    }
}
