//! Names of modules, operators and variables.
ghost use Rattle.std.specs.Prelude.{◌≡◌};
ghost use Rattle.std.specs.List.{list_all, list_any};
ghost use Rattle.tla_lexeme.specs.LexemeSets as sets;
ghost use Rattle.tla_lexeme.specs.declared.class.Class.TheVariants.{Letter, WordChar};

use crate::class::Class;
use crate::slices::begins;
use crate::table::table_kind;

/// Whether a text begins so, and goes on.
fn goes_beyond(prefix: &[u8], spelling: &[u8]) -> bool
    ensures { result ≡ sets.goes_beyond prefix.now spelling.now }
{
    begins(spelling, prefix) && prefix.len() < spelling.len()
}

fn is_fair(spelling: &[u8]) -> bool
    ensures { result ≡ sets.is_fair spelling.now }
{
    goes_beyond(b"WF_", spelling) || goes_beyond(b"SF_", spelling)
}

fn has_word_chars_alone(spelling: &[u8]) -> bool
    ensures { result ≡ list_all (sets.is_in WordChar) spelling.now }
{
    spelling.iter().all(|byte| Class::WordChar.has(*byte))
}

fn has_letter(spelling: &[u8]) -> bool
    ensures { result ≡ list_any (sets.is_in Letter) spelling.now }
{
    spelling.iter().any(|byte| Class::Letter.has(*byte))
}

fn is_name(spelling: &[u8]) -> bool
    ensures { result ≡ sets.is_name spelling.now }
{
    has_word_chars_alone(spelling) && has_letter(spelling) && !is_fair(spelling)
}

/// Whether a spelling is an identifier: letters, digits and `_` with at least one letter, which do
/// not go on behind `WF_` or `SF_` and are no reserved word (*Specifying Systems*, section 15.1.1).
#[tactic(auto, unfolding(crate::specs::LexemeSets::is_identifier))]
pub fn is_identifier(spelling: &[u8]) -> bool
    ensures { result ≡ sets.is_identifier spelling.now }
{
    is_name(spelling) && table_kind(spelling).is_none()
}
