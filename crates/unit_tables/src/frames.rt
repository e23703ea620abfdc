// What a frame waits for once it has a part.
ghost use Rattle.std.specs.Prelude.{◌≡◌};
ghost use Rattle.unit_machine.specs.Tables as tables;

use tla_tree::Form;
use unit_machine::Wait;

/// What a frame waits for once it has the part that stood in a frame of its own.
pub fn after_part(wait: Wait) -> Wait
    ensures { result ≡ tables.after_part wait }
{
    match wait {
        Wait::Parameters(name) => Wait::ParametersRead(name),
        Wait::Replacements(name) => Wait::ReplacementsRead(name),
        Wait::Body(name) => Wait::Complete(Form::ModuleDefinition(name)),
        _ => wait,
    }
}

/// What a frame waits for once it has the expression that it waited for.
pub fn after_expression(wait: Wait) -> Wait
    ensures { result ≡ tables.after_expression wait }
{
    match wait {
        Wait::Body(name) => Wait::Complete(Form::OperatorDefinition(name)),
        Wait::Right(form) => Wait::Complete(form),
        Wait::ReplacementRight(left) => Wait::Complete(Form::Replacement(left)),
        _ => wait,
    }
}

/// What a frame waits for once it has the bounds that it waited for.
pub fn after_bounds(wait: Wait) -> Wait
    ensures { result ≡ tables.after_bounds wait }
{
    match wait {
        Wait::Bounds(name) => Wait::BoundsRead(name),
        _ => wait,
    }
}
