// All of some bytes to an output.
ghost use Rattle.std.specs.Prelude.{◌≢◌, [], OnErr};
ghost use Rattle.tool_io.specs.Causes.{HasCause};
ghost use Rattle.tool_output.specs.Output.{Writes};

use tool_io::{IoFault, Sink};
use tool_list::skip;

/// Writes all bytes, in as many calls as it takes.
pub fn write_all<K: Sink>(output: &mut K, bytes: &[u8]) -> Result<(), IoFault>
    ensures bytes { Writes (K.taken output.old) (K.taken output.new) result bytes.now }
    ensures some { OnErr result (bytes.now ≢ []) }
    ensures cause { HasCause (K.fault_count output.old) (K.fault_count output.new) result }
{
    let mut rest = bytes;
    while !rest.is_empty() {
        let count = output.write(rest)?;
        rest = skip(rest, count);
    }
    Ok(())
}
