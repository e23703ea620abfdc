//! What holds of contents and messages. The function does nothing: its clauses are the theorem.

ghost use Rattle.std.specs.Prelude.{◌≡◌, ℕ, List};
ghost use Rattle.lsp_wire.specs.Messages.{IsMessage, message_in};
ghost use Rattle.lsp_wire.specs.declared.types.Incoming.{Incoming};

/// Each content, whatever its bytes, is the message that the function gives, and no other.
pub fn one_message()
    ensures is { (content : List ℕ) → IsMessage content (message_in content) }
    ensures no_other { (content : List ℕ) (message : Incoming) → IsMessage content message
        → message ≡ message_in content }
{}
