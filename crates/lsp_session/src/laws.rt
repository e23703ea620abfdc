//! What holds of all that a session writes, and of what it has sent. The functions do nothing: their
//! clauses are the theorems.

ghost use Rattle.std.specs.Prelude.{◌≡◌, ℕ, List, [], flat_map};
ghost use Rattle.rpc_frame.specs.Frames.{frame_of};
ghost use Rattle.lsp_wire.specs.declared.types.Incoming.{Incoming};
ghost use Rattle.lsp_answers.specs.States.{State, After, Meaning, LooksAtTexts};
ghost use Rattle.lsp_session.specs.declared.phase.Phase.{Phase};
ghost use Rattle.lsp_session.specs.declared.phase.Phase.TheVariants.{Running};
ghost use Rattle.lsp_session.specs.NotesSent.{HasSent, KeepsDocuments};
ghost use Rattle.lsp_session.specs.SessionOutput.{handled, noticed};

/// Whatever the message, what is written for it are whole frames of contents. So whoever takes the
/// output apart finds these contents.
pub fn writes_whole_frames()
    ensures { (meaning : Meaning) (phase : Phase) (state : State) (message : Incoming)
        → (contents : List (List ℕ))
        × ((handled meaning phase state message).bytes ≡ flat_map frame_of contents) }
{}

/// Where notes look at the texts alone: between two messages no notice is still to be sent, and the
/// notes last sent for each open document are its notes on the texts as they stand. So a notification
/// that leaves texts and documents as they are sends nothing.
pub fn notes_are_sent()
    ensures always { (meaning : Meaning) → LooksAtTexts meaning
        → (phase : Phase) (state : State) (message : Incoming) → HasSent meaning phase state
        → HasSent meaning (handled meaning phase state message).phase
        (handled meaning phase state message).state }
    ensures ignored { (meaning : Meaning) → LooksAtTexts meaning
        → (state : State) (after : After) → HasSent meaning Running state
        → KeepsDocuments state after.state
        → ((noticed meaning after).bytes ≡ []) × ((noticed meaning after).state ≡ after.state) }
{}
