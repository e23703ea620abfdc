// All that the program does.
ghost use Rattle.std.specs.Prelude.{◌≡◌, ◌≢◌, ◌↔◌, ◌||◌, ◌==◌, IfSome, None, true, false, nat_le, []};
ghost use Rattle.std.specs.Io.KnownBytes.{Appends};
ghost use Rattle.std.specs.Bool.{OnFalse, OnTrue};
ghost use Rattle.std.specs.Option.{option_map};
ghost use Rattle.family_facts.specs.Verdicts.{after_checks, checks_of};
ghost use Rattle.gen_texts.specs.Generated.{generated};
ghost use Rattle.sany_files.specs.Calls.{IsLeftAfter, calls_made, calls_of_folder};
ghost use Rattle.sany_files.specs.Calls.{calls_of_request, told_after, told_after_request};
ghost use Rattle.sany_files.specs.Files.{files_in, files_of, files_of_request};
ghost use Rattle.sany_files.specs.Files.{is_over, is_over_folder, is_over_request};
ghost use Rattle.sany_files.specs.Reading.{after_folder};
ghost use Rattle.sany_run.specs.Answers.{Answers, is_answer, is_done, is_status};
ghost use Rattle.sany_run.specs.Answers.{is_stopped, is_written, least_calls};
ghost use Rattle.sany_run.specs.Program.{outcome_of_folder, outcome_of_generated};
ghost use Rattle.sany_run.specs.Program.{is_serve, outcome_of_request, program};
ghost use Rattle.sany_run.specs.Serving.{ServesFolder, ServesInTime};
ghost use Rattle.lsp_serve.specs.Ends as serving;
ghost use Rattle.sany_words.specs.Texts.{texts};
ghost use Rattle.sany_words.specs.Words.{request_of as request_in};
ghost use Rattle.tool_output.specs.Output.{TellsFault};

use crate::check::{self, Outcome};
use crate::generate;
use crate::serving::serve_folder;
use sany_words::{Request, request_of};
use std::alloc::Global;
use step_count::Steps;
use tool_io::{Folder, IoFault, Sink, Source};
use tool_list::Memory;
use tool_output::write_all;

// The words ask for nothing.
const USAGE: u8 = 2;

// The folder failed.
const FOLDER_FAULT: u8 = 3;

// The output failed.
const OUTPUT_FAULT: u8 = 5;

// There was no room.
const NO_MEMORY: u8 = 6;

// A limit was passed.
const LIMIT: u8 = 7;

// Writes an outcome.
fn status_of_outcome<K: Sink>(output: &mut K, outcome: &Outcome) -> u8
    requires { is_done outcome.now.status ≡ true }
    ensures answers { Answers outcome.now result (K.taken output.old) (K.taken output.new) }
    ensures some { OnTrue (result == 5) (outcome.now.bytes ≢ []) }
    ensures status { is_written result ≡ true }
    ensures output_fault { TellsFault 5 result (K.fault_count output.old)
        (K.fault_count output.new) }
{
    match write_all(output, outcome.bytes.as_slice()) {
        Ok(()) => outcome.status,
        Err(IoFault::Failed) => OUTPUT_FAULT,
        Err(IoFault::Memory) => NO_MEMORY,
    }
}

// Checks a folder.
fn status_of_check<F: Folder, K: Sink, L>(
    alloc: Global,
    path: &str,
    facts: bool,
    folder: &mut F,
    output: &mut K,
    steps: &mut Steps<L>,
) -> u8
    ensures answers { IfSome (F.told folder.old)
        (λ t. Answers (outcome_of_folder t path.now facts) result (K.taken output.old)
        (K.taken output.new)) }
    ensures some { OnTrue (result == 5)
        (IfSome (F.told folder.old) (λ t. (outcome_of_folder t path.now facts).bytes ≢ [])) }
    ensures status { is_answer result ≡ true }
    ensures folder_fault { TellsFault 3 result (F.fault_count folder.old)
        (F.fault_count folder.new) }
    ensures output_fault { TellsFault 5 result (K.fault_count output.old)
        (K.fault_count output.new) }
    ensures limit { IfSome (F.told folder.old) (λ t. OnFalse (is_stopped result) ((result ≡ 7)
        ↔ (is_over_folder t path.now ≡ true))) }
    ensures silent { OnTrue (result == 3 || result == 7)
        (Appends (K.taken output.old) (K.taken output.new) []) }
    ensures ticks { IfSome (F.told folder.old)
        (λ t. OnTrue (nat_le result 1) (steps.new
        ≡ after_checks (checks_of (files_of t path.now)) steps.old)) }
    ensures told { OnFalse (is_stopped result) (F.told folder.new
        ≡ option_map (after_folder path.now) (F.told folder.old)) }
    ensures part { IfSome (F.told folder.old)
        (λ t. OnTrue (is_stopped result)
        (IsLeftAfter 1 (calls_of_folder t path.now) t (F.told folder.new))) }
{
    let outcome = match check::outcome_of_folder(alloc, folder, path, facts, steps) {
        Ok(Some(outcome)) => outcome,
        Ok(None) => return LIMIT,
        Err(IoFault::Failed) => return FOLDER_FAULT,
        Err(IoFault::Memory) => return NO_MEMORY,
    };
    status_of_outcome(output, &outcome)
}

// Makes modules and checks them.
fn status_of_generated<K: Sink, L>(
    alloc: Global,
    count: u16,
    output: &mut K,
    steps: &mut Steps<L>,
) -> u8
    ensures answers { Answers (outcome_of_generated count) result (K.taken output.old)
        (K.taken output.new) }
    ensures some { OnTrue (result == 5) ((outcome_of_generated count).bytes ≢ []) }
    ensures status { is_written result ≡ true }
    ensures output_fault { TellsFault 5 result (K.fault_count output.old)
        (K.fault_count output.new) }
    ensures ticks { OnTrue (nat_le result 1) (steps.new
        ≡ after_checks (checks_of (generated count)) steps.old) }
{
    match generate::outcome_of_generated(alloc, count, steps) {
        Ok(outcome) => status_of_outcome(output, &outcome),
        Err(Memory) => NO_MEMORY,
    }
}

// Does what is asked for, if that is no server.
fn status_of_request<F: Folder, K: Sink, L>(
    alloc: Global,
    request: Option<Request>,
    folder: &mut F,
    output: &mut K,
    steps: &mut Steps<L>,
) -> u8
    requires { is_serve request ≡ false }
    ensures answers { IfSome (F.told folder.old)
        (λ t. Answers (outcome_of_request t request) result (K.taken output.old)
        (K.taken output.new)) }
    ensures some { OnTrue (result == 5)
        (IfSome (F.told folder.old) (λ t. (outcome_of_request t request).bytes ≢ [])) }
    ensures status { is_status result ≡ true }
    ensures usage { OnFalse (result == 6) ((result ≡ 2) ↔ (request ≡ None)) }
    ensures folder_fault { TellsFault 3 result (F.fault_count folder.old)
        (F.fault_count folder.new) }
    ensures output_fault { TellsFault 5 result (K.fault_count output.old)
        (K.fault_count output.new) }
    ensures limit { IfSome (F.told folder.old) (λ t. OnFalse (is_stopped result) ((result ≡ 7)
        ↔ (is_over_request t request ≡ true))) }
    ensures silent { OnTrue (result == 3 || result == 7)
        (Appends (K.taken output.old) (K.taken output.new) []) }
    ensures ticks { IfSome (F.told folder.old)
        (λ t. OnTrue (nat_le result 1) (steps.new
        ≡ after_checks (checks_of (files_of_request t request)) steps.old)) }
    ensures told { OnFalse (is_stopped result) (F.told folder.new
        ≡ option_map (told_after_request request) (F.told folder.old)) }
    ensures part { IfSome (F.told folder.old)
        (λ t. OnTrue (is_stopped result)
        (IsLeftAfter (least_calls result) (calls_of_request t request) t (F.told folder.new))) }
{
    match request {
        Some(
            Request::Check {
                folder: path,
                facts,
            },
        ) => { status_of_check(alloc, path.as_str(), facts, folder, output, steps) }
        Some(Request::Generate(count)) => status_of_generated(alloc, count, output, steps),
        Some(Request::Serve) => unreachable!(),
        None => USAGE,
    }
}

// Whether the server is asked for.
fn is_serve(request: &Option<Request>) -> bool
    ensures { result ≡ is_serve request.now }
{
    match request {
        Some(Request::Serve) => true,
        Some(Request::Check { .. }) | Some(Request::Generate(_)) | None => false,
    }
}

// Does what is asked for, and hands the folder back.
fn answer<F: Folder, S: Source, K: Sink, L>(
    alloc: Global,
    request: Option<Request>,
    mut folder: F,
    input: &mut S,
    output: &mut K,
    steps: &mut Steps<L>,
) -> (u8, F)
    ensures server { OnTrue (is_serve request) (ServesFolder (F.told folder) (S.left input.old)
        result.0 (F.told result.1) (K.taken output.old) (K.taken output.new)) }
    ensures in_time { OnTrue (is_serve request) (ServesInTime (F.told folder)
        (S.left input.old) (S.left input.new) (S.last input.new) result.0
        (K.taken output.old) (K.taken output.new)) }
    ensures server_status { OnTrue (is_serve request) (serving.is_status result.0 ≡ true) }
    ensures answers { OnFalse (is_serve request) (IfSome (F.told folder)
        (λ t. Answers (outcome_of_request t request) result.0 (K.taken output.old)
        (K.taken output.new))) }
    ensures some { OnFalse (is_serve request) (OnTrue (result.0 == 5)
        (IfSome (F.told folder) (λ t. (outcome_of_request t request).bytes ≢ []))) }
    ensures status { OnFalse (is_serve request) (is_status result.0 ≡ true) }
    ensures usage { OnFalse (is_serve request) (OnFalse (result.0 == 6)
        ((result.0 ≡ 2) ↔ (request ≡ None))) }
    ensures folder_fault { TellsFault 3 result.0 (F.fault_count folder) (F.fault_count result.1) }
    ensures input_fault { TellsFault 4 result.0 (S.fault_count input.old)
        (S.fault_count input.new) }
    ensures output_fault { TellsFault 5 result.0 (K.fault_count output.old)
        (K.fault_count output.new) }
    ensures limit { OnFalse (is_serve request) (IfSome (F.told folder)
        (λ t. OnFalse (is_stopped result.0) ((result.0 ≡ 7)
        ↔ (is_over_request t request ≡ true)))) }
    ensures silent { OnFalse (is_serve request) (OnTrue (result.0 == 3 || result.0 == 7)
        (Appends (K.taken output.old) (K.taken output.new) [])) }
    ensures ticks { OnFalse (is_serve request) (IfSome (F.told folder)
        (λ t. OnTrue (nat_le result.0 1) (steps.new
        ≡ after_checks (checks_of (files_of_request t request)) steps.old))) }
    ensures told { OnFalse (is_serve request) (OnFalse (is_stopped result.0) (F.told result.1
        ≡ option_map (told_after_request request) (F.told folder))) }
    ensures part { OnFalse (is_serve request) (IfSome (F.told folder)
        (λ t. OnTrue (is_stopped result.0)
        (IsLeftAfter (least_calls result.0) (calls_of_request t request) t
        (F.told result.1)))) }
    ensures input { OnFalse (is_serve request) (input.new ≡ input.old) }
{
    if is_serve(&request) {
        return serve_folder(alloc, folder, input, output, steps);
    }
    let status = status_of_request(alloc, request, &mut folder, output, steps);
    (status, folder)
}

/// Does all that the program does, and hands the folder back. Its first answer is the status. Where
/// the words do not ask for the server, it is 0 where each module is accepted, 1 where some module
/// is refused, 2 where the words ask for nothing, 3 and 5 where the folder and the output failed, 6
/// where there was no room, 7 where a limit is passed; the input is not read. The server's are
/// those of `serve` of
/// `lsp_serve`.
pub fn run<F: Folder, S: Source, K: Sink, L>(
    alloc: Global,
    words: &[String],
    folder: F,
    input: &mut S,
    output: &mut K,
    steps: &mut Steps<L>,
) -> (u8, F)
    // Whatever the status, the bytes written are from the front of the program's. Where no object
    // failed and there was room, all of them are written and the status is the program's. Those of
    // the server are a session's over the input, however that is cut, with each message answered
    // before the input is read further.
    ensures answers { OnFalse (is_serve (request_in (texts words.now))) (IfSome (F.told folder)
        (λ t. Answers (program (texts words.now) t) result.0 (K.taken output.old)
        (K.taken output.new))) }
    ensures server { OnTrue (is_serve (request_in (texts words.now)))
        (ServesFolder (F.told folder) (S.left input.old) result.0 (F.told result.1)
        (K.taken output.old) (K.taken output.new)) }
    ensures in_time { OnTrue (is_serve (request_in (texts words.now))) (OnFalse (result.0 == 6)
        (ServesInTime (F.told folder) (S.left input.old) (S.left input.new) (S.last input.new)
        result.0 (K.taken output.old) (K.taken output.new))) }

    // With 5 there was something to write.
    ensures some { OnFalse (is_serve (request_in (texts words.now))) (OnTrue (result.0 == 5)
        (IfSome (F.told folder) (λ t. (program (texts words.now) t).bytes ≢ []))) }
    ensures status { OnFalse (is_serve (request_in (texts words.now))) (is_status result.0 ≡ true) }
    ensures server_status { OnTrue (is_serve (request_in (texts words.now)))
        (serving.is_status result.0 ≡ true) }

    // When each status comes that is no verdict. What the words ask for takes memory to know.
    ensures usage { OnFalse (is_serve (request_in (texts words.now))) (OnFalse (result.0 == 6)
        ((result.0 ≡ 2) ↔ (request_in (texts words.now) ≡ None))) }
    ensures folder_fault { TellsFault 3 result.0 (F.fault_count folder) (F.fault_count result.1) }
    ensures input_fault { TellsFault 4 result.0 (S.fault_count input.old)
        (S.fault_count input.new) }
    ensures output_fault { TellsFault 5 result.0 (K.fault_count output.old)
        (K.fault_count output.new) }
    ensures limit { OnFalse (is_serve (request_in (texts words.now))) (IfSome (F.told folder)
        (λ t. OnFalse (is_stopped result.0) ((result.0 ≡ 7)
        ↔ (is_over (texts words.now) t ≡ true)))) }

    // What it leaves, where it is not to serve. The folder is as the calls of the program leave it,
    // and with 3 and 6 as the first ones of them do, one at least with 3: none is made behind the
    // one with which a limit is passed.
    ensures folder_after { OnFalse (is_serve (request_in (texts words.now)))
        (OnFalse (is_stopped result.0) (F.told result.1
        ≡ option_map (told_after (texts words.now)) (F.told folder))) }
    ensures folder_part { OnFalse (is_serve (request_in (texts words.now))) (IfSome (F.told folder)
        (λ t. OnTrue (is_stopped result.0)
        (IsLeftAfter (least_calls result.0) (calls_made (texts words.now) t) t
        (F.told result.1)))) }
    ensures silent { OnFalse (is_serve (request_in (texts words.now)))
        (OnTrue (result.0 == 3 || result.0 == 7)
        (Appends (K.taken output.old) (K.taken output.new) [])) }
    ensures ticks { OnFalse (is_serve (request_in (texts words.now))) (IfSome (F.told folder)
        (λ t. OnTrue (nat_le result.0 1) (steps.new
        ≡ after_checks (checks_of (files_in (texts words.now) t)) steps.old))) }
    ensures input_after { OnFalse (is_serve (request_in (texts words.now)))
        (input.new ≡ input.old) }
{
    match request_of(alloc, words) {
        Ok(request) => answer(alloc, request, folder, input, output, steps),
        Err(Memory) => (NO_MEMORY, folder),
    }
}
