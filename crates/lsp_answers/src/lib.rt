//! What a session asks of whoever holds the texts: the trait [`Answers`], with its meaning.
//!
//! Each implementation names the definitions of its meaning: the state after each call, the notes
//! of a document, the reply to a question. Knows nothing of modules, and no order of messages.
#![tactic(auto)]

ghost use Rattle.std.specs.Prelude.{◌≡◌, ◌≢◌, ℕ, Err, IfOk, OnOk, IsSome, option_map};
ghost use Rattle.lsp_answers.specs.States.{State, Meaning, dues_of, after_dues};
ghost use Rattle.lsp_answers.specs.States.{judged, judged_change, judged_root};
ghost use Rattle.lsp_answers.specs.States.{IsAfter, IsQuestion, HasAnswerCause};

use lsp_wire::{Call, Change, FileEvent, Note, Reply, Uri};
use std::alloc::Global;
use step_count::Steps;
use thiserror::Error;
use tool_list::{Chars, List, Memory};

/// Why a call of [`Answers`] was refused. The value then answers no further call.
#[derive(Clone, Copy, Debug, PartialEq, Eq, Error)]
pub enum AnswerFault {
    /// The folder failed: its count rose by one in the call, or stands at its last value.
    #[error("the folder failed")]
    Folder,
    /// The call would leave more than 1,024 modules or more than 2^25 bytes of texts, or a text
    /// passed 2^25 bytes within it: the number that is too large.
    #[error("more modules or bytes of texts than may be held: {said}")]
    Limit { said: u64 },
    /// There was no room.
    #[error("out of memory")]
    Memory,
}

impl From<Memory> for AnswerFault {
    ghost use Rattle.std.specs.Prelude.{◌≡◌};
    ghost use Rattle.lsp_answers.specs.declared.AnswerFault.TheVariants.{Memory};

    ghost from_gives = { λ _ fault. fault ≡ Memory };

    fn from(_: Memory) -> Self {
        AnswerFault::Memory
    }
}

/// A notice to send: the document as its client spelled it, and its notes.
#[derive(Drop)]
pub struct Due {
    pub uri: Uri,
    pub notes: List<Note>,
}

/// Holds the texts of documents, and answers questions on them.
pub trait Answers {
    /// What it holds.
    ghost state: { Self → State };

    /// How often its folder failed.
    ghost fault_count: { Self → ℕ };

    /// What its calls mean, where limits are not looked at: these the clauses judge.
    ghost meaning: { Meaning };

    /// Takes the client's root, and reads the folder that it names. A limit is judged after each
    /// read, and the first that is met ends the call.
    fn root<L>(
        &mut self,
        alloc: Global,
        root: Option<&Uri>,
        steps: &mut Steps<L>,
    ) -> Result<(), AnswerFault>
        ensures goes { IsSome (state self.old).folder
            → IsAfter (judged_root meaning (state self.old)
            (option_map (λ uri. uri.now) root.entry)) result (state self.new) }
        ensures cause { HasAnswerCause (fault_count self.old) (fault_count self.new) result };

    /// Opens a document, or replaces its text.
    fn open<L>(
        &mut self,
        alloc: Global,
        uri: &Uri,
        text: &Chars,
        steps: &mut Steps<L>,
    ) -> Result<(), AnswerFault>
        ensures goes { IsAfter (judged (meaning.after_open (state self.old) uri.now text.now))
            result (state self.new) }
        ensures cause { fault_count self.new ≡ fault_count self.old }
        ensures quiet { result ≢ Err AnswerFault.Folder };

    /// Applies changes to an open document. If one has its start behind its end, all of them
    /// change nothing. That the document's text alone is too long is judged after each change too.
    fn change<L>(
        &mut self,
        alloc: Global,
        uri: &Uri,
        changes: &List<Change>,
        steps: &mut Steps<L>,
    ) -> Result<(), AnswerFault>
        ensures goes { IsAfter (judged_change meaning (state self.old) uri.now changes.now)
            result (state self.new) }
        ensures cause { fault_count self.new ≡ fault_count self.old }
        ensures quiet { result ≢ Err AnswerFault.Folder };

    /// Closes a document, whose file then counts again.
    fn close<L>(
        &mut self,
        alloc: Global,
        uri: &Uri,
        steps: &mut Steps<L>,
    ) -> Result<(), AnswerFault>
        ensures goes { IsSome (state self.old).folder
            → IsAfter (judged (meaning.after_close (state self.old) uri.now))
            result (state self.new) }
        ensures cause { HasAnswerCause (fault_count self.old) (fault_count self.new) result };

    /// Takes note of files that were made, changed or deleted.
    fn files<L>(
        &mut self,
        alloc: Global,
        events: &List<FileEvent>,
        steps: &mut Steps<L>,
    ) -> Result<(), AnswerFault>
        ensures goes { IsSome (state self.old).folder
            → IsAfter (judged (meaning.after_files (state self.old) events.now))
            result (state self.new) }
        ensures cause { HasAnswerCause (fault_count self.old) (fault_count self.new) result };

    /// The notices to send, in byte order of the modules' names, which then count as sent.
    fn due<L>(&mut self, alloc: Global, steps: &mut Steps<L>) -> Result<List<Due>, Memory>
        ensures dues { IfOk result (λ dues. dues ≡ dues_of meaning.notes_of (state self.old)) }
        ensures sent { OnOk result (state self.new ≡ after_dues meaning.notes_of (state self.old)) }
        ensures cause { fault_count self.new ≡ fault_count self.old };

    /// The reply to a question on the texts, which stay as they are.
    fn ask<L>(&mut self, alloc: Global, call: &Call, steps: &mut Steps<L>) -> Result<Reply, Memory>
        requires { IsQuestion call.now }
        ensures reply { IfOk result (λ reply. reply ≡ meaning.reply_to (state self.old) call.now) }
        ensures stays { OnOk result (state self.new ≡ state self.old) }
        ensures cause { fault_count self.new ≡ fault_count self.old };

    /// How often its folder failed.
    fn faults(&self) -> u64
        ensures { result ≡ fault_count self.now };
}
