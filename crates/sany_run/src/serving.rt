// The server over a folder.
ghost use Rattle.std.specs.Prelude.{◌≡◌, true};
ghost use Rattle.lsp_serve.specs.Ends.{is_status};
ghost use Rattle.sany_run.specs.Serving.{ServesFolder, ServesInTime};
ghost use Rattle.tool_output.specs.Output.{TellsFault};

use lsp_serve::laws::folder_goes_on_telling;
use lsp_serve::serve;
use std::alloc::Global;
use step_count::Steps;
use tool_io::{Folder, Sink, Source};
use workspace::Workspace;

/// Answers the messages of an input over the texts of a folder, and hands the folder back.
pub fn serve_folder<F: Folder, S: Source, K: Sink, L>(
    alloc: Global,
    folder: F,
    input: &mut S,
    output: &mut K,
    steps: &mut Steps<L>,
) -> (u8, F)
    ensures answers { ServesFolder (F.told folder) (S.left input.old) result.0 (F.told result.1)
        (K.taken output.old) (K.taken output.new) }
    ensures in_time { ServesInTime (F.told folder) (S.left input.old) (S.left input.new)
        (S.last input.new) result.0 (K.taken output.old) (K.taken output.new) }
    ensures status { is_status result.0 ≡ true }
    ensures folder_fault { TellsFault 3 result.0 (F.fault_count folder) (F.fault_count result.1) }
    ensures input_fault { TellsFault 4 result.0 (S.fault_count input.old)
        (S.fault_count input.new) }
    ensures output_fault { TellsFault 5 result.0 (K.fault_count output.old)
        (K.fault_count output.new) }
{
    folder_goes_on_telling();
    let workspace = Workspace::new(alloc, folder);
    let (status, workspace) = serve(alloc, workspace, input, output, steps);
    (status, workspace.into_folder())
}
