//! Notifications, and the notices that they ask for.

ghost use Rattle.std.specs.Prelude.{◌≡◌, ◌++◌, List, ℕ, IfErr, IsSome, OnOk, OnErr};
ghost use Rattle.lsp_answers.specs.States.{judged, judged_change, dues_of, after_dues};
ghost use Rattle.lsp_session.specs.SessionOutput.{noticed, notified, notice_frames, told_running};
ghost use Rattle.lsp_session.specs.SessionOutput.{TellsRunning, TellsNotified, IsCut, IsDone};
ghost use Rattle.lsp_session.specs.SessionOutput.{HasSessionCause, Adds};

use crate::phase::{Phase, SessionFault, fault_of};
use lsp_answers::{Answers, Due};
use lsp_wire::{Change, FileEvent, Notice, Uri, write_notes};
use std::alloc::Global;
use step_count::Steps;
use tool_list::{Chars, List, Memory};

// Appends the frames of notices. After `Memory` the first of them may stand there.
fn write_dues(alloc: Global, dues: &[Due], out: &mut List<u8>) -> Result<(), Memory>
    ensures ok { OnOk result (out.new ≡ out.old ++ notice_frames dues.now) }
    ensures err { OnErr result (IsCut out.old out.new (notice_frames dues.now)) }
{
    'dues: for due in dues {
        write_notes(alloc, &due.uri, &due.notes, out)?;
    }
    Ok(())
}

// Sends the notices that a change of the texts asks for.
fn notices<A: Answers, L>(
    answers: &mut A,
    alloc: Global,
    out: &mut List<u8>,
    steps: &mut Steps<L>,
) -> Result<(), SessionFault>
    ensures ok { OnOk result ((out.new
        ≡ out.old ++ notice_frames (dues_of A.meaning.notes_of (A.state answers.old)))
        × (A.state answers.new ≡ after_dues A.meaning.notes_of (A.state answers.old))) }
    ensures cut { OnErr result (IsCut out.old out.new
        (notice_frames (dues_of A.meaning.notes_of (A.state answers.old)))) }
    ensures cause { A.fault_count answers.new ≡ A.fault_count answers.old }
    ensures adds { Adds out.old out.new result }
    ensures memory { IfErr result (λ fault. fault ≡ SessionFault.Memory) }
{
    match answers.due(alloc, steps) {
        Ok(dues) => match write_dues(alloc, dues.as_slice(), out) {
            Ok(()) => Ok(()),
            Err(_) => Err(SessionFault::Memory),
        },
        Err(_) => Err(SessionFault::Memory),
    }
}

fn opened<A: Answers, L>(
    answers: &mut A,
    alloc: Global,
    uri: &Uri,
    text: &Chars,
    out: &mut List<u8>,
    steps: &mut Steps<L>,
) -> Result<(), SessionFault>
    ensures goes { IsDone (noticed A.meaning
        (judged (A.meaning.after_open (A.state answers.old) uri.now text.now)))
        out.old out.new (A.state answers.new) result }
    ensures cause { HasSessionCause (A.fault_count answers.old) (A.fault_count answers.new) result }
    ensures adds { Adds out.old out.new result }
{
    match answers.open(alloc, uri, text, steps) {
        Ok(()) => notices(answers, alloc, out, steps),
        Err(fault) => Err(fault_of(fault)),
    }
}

fn changed<A: Answers, L>(
    answers: &mut A,
    alloc: Global,
    uri: &Uri,
    changes: &List<Change>,
    out: &mut List<u8>,
    steps: &mut Steps<L>,
) -> Result<(), SessionFault>
    ensures goes { IsDone (noticed A.meaning
        (judged_change A.meaning (A.state answers.old) uri.now changes.now))
        out.old out.new (A.state answers.new) result }
    ensures cause { HasSessionCause (A.fault_count answers.old) (A.fault_count answers.new) result }
    ensures adds { Adds out.old out.new result }
{
    match answers.change(alloc, uri, changes, steps) {
        Ok(()) => notices(answers, alloc, out, steps),
        Err(fault) => Err(fault_of(fault)),
    }
}

fn closed<A: Answers, L>(
    answers: &mut A,
    alloc: Global,
    uri: &Uri,
    out: &mut List<u8>,
    steps: &mut Steps<L>,
) -> Result<(), SessionFault>
    ensures goes { IsSome (A.state answers.old).folder
        → IsDone (noticed A.meaning (judged (A.meaning.after_close (A.state answers.old) uri.now)))
        out.old out.new (A.state answers.new) result }
    ensures cause { HasSessionCause (A.fault_count answers.old) (A.fault_count answers.new) result }
    ensures adds { Adds out.old out.new result }
{
    match answers.close(alloc, uri, steps) {
        Ok(()) => notices(answers, alloc, out, steps),
        Err(fault) => Err(fault_of(fault)),
    }
}

fn files_changed<A: Answers, L>(
    answers: &mut A,
    alloc: Global,
    events: &List<FileEvent>,
    out: &mut List<u8>,
    steps: &mut Steps<L>,
) -> Result<(), SessionFault>
    ensures goes { IsSome (A.state answers.old).folder
        → IsDone (noticed A.meaning
        (judged (A.meaning.after_files (A.state answers.old) events.now)))
        out.old out.new (A.state answers.new) result }
    ensures cause { HasSessionCause (A.fault_count answers.old) (A.fault_count answers.new) result }
    ensures adds { Adds out.old out.new result }
{
    match answers.files(alloc, events, steps) {
        Ok(()) => notices(answers, alloc, out, steps),
        Err(fault) => Err(fault_of(fault)),
    }
}

// Takes in a notification while the server runs.
fn told_running<A: Answers, L>(
    answers: &mut A,
    alloc: Global,
    notice: &Notice,
    out: &mut List<u8>,
    steps: &mut Steps<L>,
) -> Result<(), SessionFault>
    ensures goes { TellsRunning (A.state answers.old) notice.now
        → IsDone (told_running A.meaning (A.state answers.old) notice.now)
        out.old out.new (A.state answers.new) result }
    ensures cause { HasSessionCause (A.fault_count answers.old) (A.fault_count answers.new) result }
    ensures adds { Adds out.old out.new result }
{
    match notice {
        Notice::Open { uri, text } => opened(answers, alloc, uri, text, out, steps),
        Notice::Change { uri, changes } => changed(answers, alloc, uri, changes, out, steps),
        Notice::Close { uri } => closed(answers, alloc, uri, out, steps),
        Notice::Files { events } => files_changed(answers, alloc, events, out, steps),
        Notice::Exit => Ok(()),
        Notice::Other => Ok(()),
    }
}

/// Takes in a notification: while the server does not run, only an exit is looked at.
pub fn notification<A: Answers, L>(
    answers: &mut A,
    alloc: Global,
    phase: Phase,
    notice: &Notice,
    out: &mut List<u8>,
    steps: &mut Steps<L>,
) -> Result<(), SessionFault>
    ensures goes { TellsNotified phase (A.state answers.old) notice.now
        → IsDone (notified A.meaning phase (A.state answers.old) notice.now)
        out.old out.new (A.state answers.new) result }
    ensures cause { HasSessionCause (A.fault_count answers.old) (A.fault_count answers.new) result }
    ensures adds { Adds out.old out.new result }
{
    match phase {
        Phase::Running => told_running(answers, alloc, notice, out, steps),
        Phase::Uninitialized => Ok(()),
        Phase::Stopped => Ok(()),
    }
}
