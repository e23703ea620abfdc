// Diagnostics in order.
ghost use Rattle.module_model.specs.Bindings.{AreInOrder};

use tla_model::Diagnostic;
use tool_list::List;

/// These diagnostics by their start, then their end, then their code, each once. Positions are in
/// bytes. It takes no memory.
pub fn in_order(faults: List<Diagnostic>) -> List<Diagnostic>
    ensures { AreInOrder faults result }
{
    let mut faults = faults.into_vec();
    faults.sort_unstable_by_key(|fault| (fault.span.start, fault.span.end, fault.code));
    faults.dedup();
    List::from_vec(faults)
}
