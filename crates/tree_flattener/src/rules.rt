// Which parts of forms are looked at.
ghost use Rattle.std.specs.Prelude.{◌≡◌};
ghost use Rattle.tree_kinds.specs.Expanding as expanding;
ghost use Rattle.tree_flattener.specs.Parts.{is_whole, taken_by};

use tla_tree::{Form, helps};

/// Which parts of a form are looked at.
#[derive(Clone, Copy)]
pub(crate) enum Taken {
    All,
    Outside,
    Inside,
}

// Whether a part of a form stands outside of the scope of its names, and of its right sides.
fn stands_outside(form: Form) -> bool
    ensures { result ≡ expanding.stands_outside form }
{
    matches!(form, Form::IndexStep | Form::Bound | Form::TupleBound)
}

// Whether a part with this form is looked at.
pub(crate) fn is_taken(which: Taken, form: Form) -> bool
    ensures { result ≡ taken_by which form }
{
    match which {
        Taken::All => true,
        Taken::Outside => stands_outside(form),
        Taken::Inside => !stands_outside(form),
    }
}

// Whether a part with this form is an expression by itself.
pub(crate) fn is_whole(form: Form) -> bool
    ensures { result ≡ is_whole form }
{
    !stands_outside(form) && !helps(form)
}
