//! A stand-in that tells what it is told, has no notes, and replies with null to every question.

ghost use Rattle.std.specs.Prelude.{◌≡◌};
ghost use Rattle.message_samples.specs.Silent.{silent_state, silent_meaning};

use lsp_answers::{AnswerFault, Answers, Due};
use lsp_wire::{Call, Change, FileEvent, Reply, Uri};
use std::alloc::Global;
use step_count::Steps;
use tool_list::{Chars, List, Memory};

// One byte more than a text may have.
const TOO_MANY: u64 = (1 << 25) + 1;

/// Tells the documents that are opened, each with its text, and those that are closed, and asks for a
/// notice for each that is opened. A root is a fault of its folder, and changes meet the limit of a
/// text that has one byte too many.
#[derive(Drop)]
pub struct Silent {
    told: String,
    due: Option<Chars>,
    faults: u64,
}

impl Answers for Silent {
    ghost state = { λ s. silent_state s.due };

    ghost fault_count = { λ s. s.faults };

    ghost meaning = { silent_meaning };

    fn root<L>(
        &mut self,
        _alloc: Global,
        root: Option<&Uri>,
        _steps: &mut Steps<L>,
    ) -> Result<(), AnswerFault> {
        match root {
            Some(_) => {
                self.faults = self.faults.saturating_add(1);
                Err(AnswerFault::Folder)
            }
            None => Ok(()),
        }
    }

    fn open<L>(
        &mut self,
        alloc: Global,
        uri: &Uri,
        text: &Chars,
        _steps: &mut Steps<L>,
    ) -> Result<(), AnswerFault> {
        if self.tell(['+', '='], uri, text.as_str()).is_err() {
            return Err(AnswerFault::Memory);
        }
        match Chars::from_str(alloc, uri.as_str()) {
            Ok(due) => {
                self.due = Some(due);
                Ok(())
            }
            Err(_) => Err(AnswerFault::Memory),
        }
    }

    fn change<L>(
        &mut self,
        _alloc: Global,
        _uri: &Uri,
        _changes: &List<Change>,
        _steps: &mut Steps<L>,
    ) -> Result<(), AnswerFault> {
        Err(AnswerFault::Limit { said: TOO_MANY })
    }

    fn close<L>(
        &mut self,
        _alloc: Global,
        uri: &Uri,
        _steps: &mut Steps<L>,
    ) -> Result<(), AnswerFault> {
        match self.tell(['-', ';'], uri, "") {
            Ok(()) => Ok(()),
            Err(_) => Err(AnswerFault::Memory),
        }
    }

    fn files<L>(
        &mut self,
        _alloc: Global,
        _events: &List<FileEvent>,
        _steps: &mut Steps<L>,
    ) -> Result<(), AnswerFault> {
        Ok(())
    }

    fn due<L>(&mut self, alloc: Global, _steps: &mut Steps<L>) -> Result<List<Due>, Memory> {
        let mut dues = List::new(alloc);
        match self.due.take() {
            Some(uri) => {
                dues.push(Due {
                    uri,
                    notes: List::new(alloc),
                })?;
                Ok(dues)
            }
            None => Ok(dues),
        }
    }

    fn ask<L>(
        &mut self,
        _alloc: Global,
        _call: &Call,
        _steps: &mut Steps<L>,
    ) -> Result<Reply, Memory> {
        Ok(Reply::Null)
    }

    fn faults(&self) -> u64 {
        self.faults
    }
}

impl Silent {
    /// One that was told nothing.
    pub fn new(alloc: Global) -> Silent {
        Silent {
            told: String::new(alloc),
            due: None,
            faults: 0,
        }
    }

    /// What was told.
    pub fn told(&self) -> &str {
        self.told.as_str()
    }

    // Tells the document and the text, each behind its mark.
    fn tell(&mut self, marks: [char; 2], uri: &Uri, text: &str) -> Result<(), Memory>
        ensures due { self.new.due ≡ self.old.due }
        ensures faults { self.new.faults ≡ self.old.faults }
    {
        let [before_uri, before_text] = marks;
        self.told.push(before_uri)?;
        self.told.push_str(uri.as_str())?;
        self.told.push(before_text)?;
        self.told.push_str(text)?;
        Ok(())
    }
}
