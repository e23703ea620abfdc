// Whole runs over objects in memory.
mod arities;
mod devices;
mod facts;
mod families;
mod files;
mod instances;
mod levels;
mod modules;
mod nested;
mod scopes;
mod sessions;

use crate::tests::sessions::Session;
use sany_run::run;
use std::alloc::Global;
use std::process::Abort;
use std::test::Fail;
use step_count::Steps;
use tool_io::{FileBytes, FolderFiles, MemoryFolder, MemorySink, QuietSource};
use tool_list::{Chars, List, Memory};

/// Modules, each with its lines between header and end; the status; and the report.
pub type Case = (&'static [(&'static str, &'static str)], u8, &'static str);

/// The lines of a module `A`; the status; and the report.
pub type Single = (&'static str, u8, &'static str);

/// A file's name and its bytes; the status; and the report.
pub type Text = (&'static str, &'static [u8], u8, &'static str);

/// Files, each with its bytes; the status; and the report.
pub type Folder = (&'static [(&'static str, &'static [u8])], u8, &'static str);

// What a run answered, wrote and counted.
#[derive(Drop)]
struct Ran {
    status: u8,
    output: MemorySink,
    ticks: u64,
}

fn file_of(alloc: Global, name: &str, bytes: &[u8]) -> Result<FileBytes, Memory> {
    Ok(FileBytes {
        name: Chars::from_str(alloc, name)?,
        bytes: List::from_vec(Vec::from_slice(alloc, bytes)?),
    })
}

fn files_of(alloc: Global, files: &[(&str, &[u8])]) -> Result<List<FileBytes>, Memory> {
    let mut made = List::new(alloc);
    for (name, bytes) in files {
        made.push(file_of(alloc, *name, *bytes)?)?;
    }
    Ok(made)
}

fn module_of(alloc: Global, name: &str, lines: &str) -> Result<FileBytes, Memory> {
    let file = format!(in alloc; "{name}.tla")?;
    let text = format!(in alloc; "---- MODULE {name} ----\n{lines}\n====\n")?;
    file_of(alloc, file.as_str(), text.as_bytes())
}

// The files of these modules, beside one that is no module's.
fn modules_of(alloc: Global, modules: &[(&str, &str)]) -> Result<List<FileBytes>, Memory> {
    let mut made = List::new(alloc);
    made.push(file_of(alloc, "A.txt", b"")?)?;
    for (name, lines) in modules {
        made.push(module_of(alloc, *name, *lines)?)?;
    }
    Ok(made)
}

// The folder `w` with these files, which fails at the call of this number.
fn folder_of(alloc: Global, files: List<FileBytes>, fails: u32) -> Result<MemoryFolder, Memory> {
    folder_at(alloc, "w", files, fails)
}

fn folder_at(
    alloc: Global,
    path: &str,
    files: List<FileBytes>,
    fails: u32,
) -> Result<MemoryFolder, Memory> {
    let path = Chars::from_str(alloc, path)?;
    let mut map = List::new(alloc);
    map.push(FolderFiles { path, files })?;
    Ok(MemoryFolder::new(map, only(alloc, fails)?))
}

fn only(alloc: Global, number: u32) -> Result<List<u32>, Memory> {
    let mut numbers = List::new(alloc);
    numbers.push(number)?;
    Ok(numbers)
}

fn words_of(alloc: Global, texts: &[&str]) -> Result<Vec<String>, Memory> {
    let mut words = Vec::new(alloc);
    for text in texts {
        words.push(String::from_str(alloc, *text)?)?;
    }
    Ok(words)
}

fn run_over(
    alloc: Global,
    words: &[&str],
    folder: MemoryFolder,
    output: MemorySink,
) -> Result<Ran, Memory> {
    run_with(alloc, words, folder, Vec::new(alloc), output)
}

// The same with an input of these bytes.
fn run_with(
    alloc: Global,
    words: &[&str],
    folder: MemoryFolder,
    input: Vec<u8>,
    mut output: MemorySink,
) -> Result<Ran, Memory> {
    let words = words_of(alloc, words)?;
    let mut input = QuietSource::new(List::from_vec(input));
    let mut steps = Steps::new(());
    let (status, _) = run(alloc, &words, folder, &mut input, &mut output, &mut steps);
    Ok(Ran {
        status,
        output,
        ticks: steps.count(),
    })
}

fn check(alloc: Global, files: List<FileBytes>) -> Result<Ran, Memory> {
    check_within(alloc, files, 400)
}

// Checks these files, with room for so many bytes of a report.
fn check_within(alloc: Global, files: List<FileBytes>, room: u32) -> Result<Ran, Memory> {
    let folder = folder_of(alloc, files, 0)?;
    let output = MemorySink::new(alloc, room, 7, List::new(alloc))?;
    run_over(alloc, &["check", "w"], folder, output)
}

// The same with the uses of names in accepted modules.
fn check_with_facts(alloc: Global, files: List<FileBytes>) -> Result<Ran, Memory> {
    let folder = folder_of(alloc, files, 0)?;
    let output = MemorySink::new(alloc, 1024, 7, List::new(alloc))?;
    run_over(alloc, &["check", "w", "--facts"], folder, output)
}

fn expect(rt: &impl Abort, ran: &Ran, status: u8, written: &str) {
    assert_eq!(rt; ran.output.bytes(), written.as_bytes());
    assert_eq!(rt; ran.status, status, "{written}");
}

fn reports(rt: &impl Abort, alloc: Global, cases: &'static [Case]) -> Result<(), Fail> {
    for (modules, status, report) in cases {
        let ran = check(alloc, modules_of(alloc, *modules)?)?;
        expect(rt, &ran, *status, *report);
    }
    Ok(())
}

fn reports_on_each(rt: &impl Abort, alloc: Global, rows: &'static [Single]) -> Result<(), Fail> {
    for (lines, status, report) in rows {
        let ran = check(alloc, modules_of(alloc, &[("A", *lines)])?)?;
        expect(rt, &ran, *status, *report);
    }
    Ok(())
}

fn shows(rt: &impl Abort, alloc: Global, cases: &'static [Case]) -> Result<(), Fail> {
    for (modules, status, report) in cases {
        let ran = check_with_facts(alloc, modules_of(alloc, *modules)?)?;
        expect(rt, &ran, *status, *report);
    }
    Ok(())
}

fn shows_on_each(rt: &impl Abort, alloc: Global, rows: &'static [Single]) -> Result<(), Fail> {
    for (lines, status, report) in rows {
        let ran = check_with_facts(alloc, modules_of(alloc, &[("A", *lines)])?)?;
        expect(rt, &ran, *status, *report);
    }
    Ok(())
}

#[test]
fn reports_on_scopes(rt: HostRuntime) -> Result<(), Fail> {
    reports_on_each(&rt, rt.alloc(), &scopes::SCOPES)
}

#[test]
fn reports_on_arities(rt: HostRuntime) -> Result<(), Fail> {
    reports_on_each(&rt, rt.alloc(), &arities::ARITIES)
}

#[test]
fn reports_on_levels(rt: HostRuntime) -> Result<(), Fail> {
    let alloc = rt.alloc();
    reports_on_each(&rt, alloc, &levels::LEVELS)?;
    reports(&rt, alloc, &levels::LEVELED)
}

#[test]
fn shows_facts_of_modules(rt: HostRuntime) -> Result<(), Fail> {
    let tables: [&'static [Single]; 13] = [
        &facts::uses::USES,
        &facts::uses::SCOPES,
        &facts::actions::ACTIONS,
        &facts::actions::STEPS,
        &facts::formulas::FORMULAS,
        &facts::formulas::CLAIMS,
        &facts::values::VALUES,
        &facts::values::FAULTS,
        &facts::arguments::ARGUMENTS,
        &facts::operators::OPERATORS,
        &facts::operators::ALONE,
        &facts::functions::FUNCTIONS,
        &facts::functions::OLD_VALUES,
    ];
    for table in tables {
        shows_on_each(&rt, rt.alloc(), table)?;
    }
    Ok(())
}

#[test]
fn shows_facts_of_families(rt: HostRuntime) -> Result<(), Fail> {
    let tables: [&'static [Case]; 14] = [
        &facts::files::FILES,
        &facts::files::BUILT_IN,
        &facts::replaced::REPLACED,
        &facts::replaced::UNWRITTEN,
        &facts::replaced::SYMBOLS,
        &facts::paths::PATHS,
        &facts::paths::HANDED,
        &facts::paths::INNER,
        &facts::brought::BROUGHT,
        &facts::brought::BUILT_IN,
        &facts::brought::AGAIN,
        &facts::constants::CONSTANTS,
        &facts::constants::OPERATORS,
        &facts::constants::MODULES,
    ];
    for table in tables {
        shows(&rt, rt.alloc(), table)?;
    }
    Ok(())
}

#[test]
fn reports_on_depths(rt: HostRuntime) -> Result<(), Fail> {
    let alloc = rt.alloc();
    let tower = facts::depths::TOWER;
    for (below, status, report) in &facts::depths::DEPTHS {
        let lines = format!(in alloc; "{tower}{below}")?;
        let modules = [("A", lines.as_str()), ("M", facts::depths::M)];
        let ran = check(alloc, modules_of(alloc, &modules)?)?;
        expect(&rt, &ran, *status, *report);
    }
    Ok(())
}

#[test]
fn reports_on_modules(rt: HostRuntime) -> Result<(), Fail> {
    reports_on_each(&rt, rt.alloc(), &modules::MODULES)
}

#[test]
fn reports_on_nested_modules(rt: HostRuntime) -> Result<(), Fail> {
    reports_on_each(&rt, rt.alloc(), &nested::NESTED)
}

#[test]
fn reports_on_families(rt: HostRuntime) -> Result<(), Fail> {
    let tables: [&'static [Case]; 4] = [
        &families::FAMILIES,
        &families::EXPORTS,
        &families::IMPORTS,
        &families::INSTANCES,
    ];
    for table in tables {
        reports(&rt, rt.alloc(), table)?;
    }
    Ok(())
}

fn reports_on_tables(
    rt: &impl Abort,
    alloc: Global,
    tables: [&'static [Case]; 3],
) -> Result<(), Fail> {
    for table in tables {
        reports(rt, alloc, table)?;
    }
    Ok(())
}

#[test]
fn reports_on_instances(rt: HostRuntime) -> Result<(), Fail> {
    let tables: [&'static [Case]; 3] = [
        &instances::paths::PATHS,
        &instances::segments::SEGMENTS,
        &instances::uses::USES,
    ];
    reports_on_tables(&rt, rt.alloc(), tables)
}

#[test]
fn reports_on_what_instances_replace(rt: HostRuntime) -> Result<(), Fail> {
    let tables: [&'static [Case]; 3] = [
        &instances::replaced::REPLACED,
        &instances::inner::INNER,
        &instances::needed::NEEDED,
    ];
    reports_on_tables(&rt, rt.alloc(), tables)
}

#[test]
fn reports_on_what_instances_bring(rt: HostRuntime) -> Result<(), Fail> {
    let tables: [&'static [Case]; 3] = [
        &instances::unnamed::UNNAMED,
        &instances::brought::BROUGHT,
        &instances::shared::SHARED,
    ];
    reports_on_tables(&rt, rt.alloc(), tables)
}

#[test]
fn reports_on_files(rt: HostRuntime) -> Result<(), Fail> {
    let alloc = rt.alloc();
    let tables: [&'static [Text]; 2] = [&files::FRONT, &files::FILES];
    for table in tables {
        for (name, bytes, status, report) in table {
            let ran = check(alloc, files_of(alloc, &[(*name, *bytes)])?)?;
            expect(&rt, &ran, *status, *report);
        }
    }
    Ok(())
}

#[test]
fn reports_in_order_of_names(rt: HostRuntime) -> Result<(), Fail> {
    let alloc = rt.alloc();
    for (files, status, report) in &files::FOLDERS {
        let ran = check(alloc, files_of(alloc, *files)?)?;
        expect(&rt, &ran, *status, *report);
    }
    Ok(())
}

// Modules, and how many are checked, the built-in ones among them.
static CHECKED: [Case; 6] = [
    (&[("A", "F == 1")], 9, ""),
    (&[("A", ";")], 8, ""),
    (&[("A", "EXTENDS Q")], 9, ""),
    (
        &[("A", "EXTENDS B, C"), ("B", "F == 1"), ("C", "F == 1")],
        11,
        "",
    ),
    (&[("A", "CONSTANT c, c"), ("B", ""), ("C", "?")], 10, ""),
    (
        &[("A", "EXTENDS Naturals\nU == F"), ("Naturals", "F == 1")],
        9,
        "",
    ),
];

#[test]
fn counts_the_modules_that_are_checked(rt: HostRuntime) -> Result<(), Fail> {
    let alloc = rt.alloc();
    for (modules, ticks, _) in &CHECKED {
        let ran = check(alloc, modules_of(alloc, *modules)?)?;
        assert_eq!(rt; ran.ticks, *ticks as u64, "{modules:?}");
    }
    Ok(())
}

#[test]
fn counts_the_modules_that_are_made(rt: HostRuntime) -> Result<(), Fail> {
    let alloc = rt.alloc();
    let folder = folder_of(alloc, List::new(alloc), 0)?;
    let output = MemorySink::new(alloc, 100, 7, List::new(alloc))?;
    let ran = run_over(alloc, &["gen", "3"], folder, output)?;
    assert_eq!(rt; ran.ticks, 11);
    Ok(())
}

#[test]
fn ends_as_its_devices_do(rt: HostRuntime) -> Result<(), Fail> {
    let alloc = rt.alloc();
    for (words, folder_fails, output_fails, room, status, written) in &devices::TRIALS {
        let files = files_of(alloc, &[("A.tla", devices::TEXT.as_bytes())])?;
        let folder = folder_of(alloc, files, *folder_fails)?;
        let output = MemorySink::new(alloc, *room, 10, only(alloc, *output_fails)?)?;
        let ran = run_over(alloc, *words, folder, output)?;
        expect(&rt, &ran, *status, *written);
    }
    Ok(())
}

#[test]
fn keeps_to_the_limits(rt: HostRuntime) -> Result<(), Fail> {
    let alloc = rt.alloc();
    for (pieces, status, report) in &devices::LARGE {
        let text = devices::repeated(alloc, *pieces)?;
        let ran = check(alloc, files_of(alloc, &[("A.tla", text.as_slice())])?)?;
        expect(&rt, &ran, *status, *report);
    }
    for (count, status) in [(1024u32, 1), (1025, 7)] {
        let ran = check_within(alloc, numbered(alloc, count)?, 1 << 16)?;
        assert_eq!(rt; ran.status, status, "{count}");
        assert_eq!(rt; ran.output.bytes().is_empty(), status == 7, "{count}");
    }
    Ok(())
}

fn numbered_file(alloc: Global, number: u32) -> Result<FileBytes, Memory> {
    let name = format!(in alloc; "M{number}.tla")?;
    file_of(alloc, name.as_str(), b"")
}

// So many empty files with names of modules.
fn numbered(alloc: Global, count: u32) -> Result<List<FileBytes>, Memory> {
    let mut files = List::new(alloc);
    for number in 0..count {
        files.push(numbered_file(alloc, number)?)?;
    }
    Ok(files)
}

// Adds the frame of a content.
fn add_frame(alloc: Global, bytes: &mut Vec<u8>, content: &str) -> Result<(), Memory> {
    let length = content.len();
    let frame = format!(in alloc; "Content-Length: {length}\r\n\r\n{content}")?;
    bytes.extend_from_slice(frame.as_bytes())?;
    Ok(())
}

// The frames of these contents, one behind the other.
fn frames_of(alloc: Global, contents: &[&str]) -> Result<Vec<u8>, Memory> {
    let mut bytes = Vec::new(alloc);
    for content in contents {
        add_frame(alloc, &mut bytes, *content)?;
    }
    Ok(bytes)
}

// What a session over the folder `/w` with these files is answered.
fn serve(alloc: Global, files: List<FileBytes>, input: Vec<u8>, room: u32) -> Result<Ran, Memory> {
    let folder = folder_at(alloc, "/w", files, 0)?;
    let output = MemorySink::new(alloc, room, 7, List::new(alloc))?;
    run_with(alloc, &["serve"], folder, input, output)
}

// Whether a session over the folder `/w` with these modules is answered as it should be.
fn answer_one(
    rt: &impl Abort,
    alloc: Global,
    files: &[(&str, &str)],
    session: &Session,
) -> Result<(), Memory> {
    let (contents, answers, status) = session;
    let input = frames_of(alloc, *contents)?;
    let ran = serve(alloc, modules_of(alloc, files)?, input, 4096)?;
    let written = frames_of(alloc, *answers)?;
    assert_eq!(rt; ran.output.bytes(), written.as_slice());
    assert_eq!(rt; ran.status, *status);
    Ok(())
}

// The same of each session over the modules that most of them have.
fn answer(rt: &impl Abort, alloc: Global, rows: &[Session]) -> Result<(), Memory> {
    for session in rows {
        answer_one(rt, alloc, &sessions::FILES, session)?;
    }
    Ok(())
}

#[test]
fn answers_its_client(rt: HostRuntime) -> Result<(), Fail> {
    answer(&rt, rt.alloc(), &sessions::SESSIONS)?;
    answer(&rt, rt.alloc(), &sessions::phases::PHASES)?;
    Ok(())
}

#[test]
fn knows_documents_by_any_spelling(rt: HostRuntime) -> Result<(), Fail> {
    answer(&rt, rt.alloc(), &sessions::spellings::SPELLINGS)?;
    answer(&rt, rt.alloc(), &sessions::roots::ROOTS)?;
    Ok(())
}

#[test]
fn takes_files_and_changes(rt: HostRuntime) -> Result<(), Fail> {
    answer(&rt, rt.alloc(), &sessions::files::FILES)?;
    answer(&rt, rt.alloc(), &sessions::changes::CHANGES)?;
    Ok(())
}

#[test]
fn tells_names(rt: HostRuntime) -> Result<(), Fail> {
    answer(&rt, rt.alloc(), &sessions::outlines::OUTLINES)?;
    answer(&rt, rt.alloc(), &sessions::names::NAMES)?;
    Ok(())
}

#[test]
fn tells_others_of_an_edit(rt: HostRuntime) -> Result<(), Fail> {
    answer(&rt, rt.alloc(), &sessions::edits::EDITS)?;
    Ok(())
}

#[test]
fn tells_others_of_an_instance(rt: HostRuntime) -> Result<(), Fail> {
    for (files, session) in &sessions::instances::INSTANCES {
        answer_one(&rt, rt.alloc(), *files, session)?;
    }
    Ok(())
}

#[test]
fn checks_what_reaches_a_change(rt: HostRuntime) -> Result<(), Fail> {
    let alloc = rt.alloc();
    for (files, contents, ticks) in &sessions::counts::COUNTED {
        let input = frames_of(alloc, *contents)?;
        let ran = serve(alloc, modules_of(alloc, *files)?, input, 4096)?;
        assert_eq!(rt; ran.ticks, *ticks);
    }
    Ok(())
}
