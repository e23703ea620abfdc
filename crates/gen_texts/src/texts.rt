// The names and the texts of the modules.
ghost use Rattle.std.specs.Prelude.{◌≡◌, ◌<◌, IfOk, string_bytes};
ghost use Rattle.gen_texts.specs.Texts as texts;

use std::alloc::{AllocError, Global};

// The text of the first module.
const FIRST: &str = "---- MODULE G0 ----
EXTENDS Naturals
CONSTANT c
VARIABLE x
F(a) == a + c
Next == x' = F(x)
Deep == Next
====
";

/// The name of the module of a number.
pub fn name_of(alloc: Global, number: u16) -> Result<String, AllocError>
    ensures { IfOk result (λ name. string_bytes name ≡ texts.name_of number) }
{
    format!(in alloc; "G{number}")
}

// The text of a module that has an instance of another.
fn further_text(alloc: Global, number: u16, other: u16) -> Result<String, AllocError>
    ensures { IfOk result (λ text. string_bytes text ≡ texts.further_text number other) }
{
    format!(in alloc;
        "---- MODULE G{number} ----\nEXTENDS Naturals\nCONSTANT c\nVARIABLE x\nP == INSTANCE G{other} WITH c <- c + 1, x <- x\nF(a) == a + c\nNext == x' = F(x)\nDeep == P!Deep \\/ Next\n====\n"
    )
}

/// The text of the module of a number.
pub fn text_of(alloc: Global, number: u16) -> Result<String, AllocError>
    ensures { IfOk result (λ text. string_bytes text ≡ texts.text_of number) }
{
    if number == 0 {
        return String::from_str(alloc, FIRST);
    }
    further_text(alloc, number, (number - 1) / 2)
}
