// The report on some modules.
ghost use Rattle.std.specs.Prelude.{◌≡◌, ◌+◌, [], IfOk, string_bytes, true, nat_le};
ghost use Rattle.std.specs.List.{All};
ghost use Rattle.fact_lines.specs.Reports.{IsReportPlaced};
ghost use Rattle.sany_report.specs.Report as report_of;
ghost use Rattle.sany_report.specs.Spans.{FactsPlaced, FaultsPlaced};
ghost use Rattle.text_cursor.specs.Cursors.{IsCursor, cursor_at};
ghost use Rattle.text_cursor.specs.declared.cursor.Columns.TheVariants.{Characters};
ghost use Rattle.span_laws.specs.NodeSpans.{SpansText};
ghost use Rattle.tla_lexeme.specs.Spans.{IsPlaced};
ghost use Rattle.tla_text.specs.Places.{place_at};
ghost use Rattle.tla_text.specs.declared.Measure.TheVariants as measures;

use fact_lines::{FactLine, ModuleReport};
use std::alloc::{AllocError, Global};
use text_cursor::{Columns, Cursor};
use tla_model::{Diagnostic, Level};
use tla_symbols::Span;
use tla_text::{Place, Text};

// A line and a column as they are shown, from 1.
fn shown(place: Place) -> (u64, u64)
    ensures line { result.0 ≡ place.line + 1 }
    ensures column { result.1 ≡ place.column + 1 }
{
    (u64::from(place.line) + 1, u64::from(place.column) + 1)
}

fn line_between(alloc: Global, start: Place, end: Place, code: u16) -> Result<String, AllocError>
    ensures { IfOk result (λ line. string_bytes line ≡ report_of.line_between start end code) }
{
    let (line, col) = shown(start);
    let (last_line, last_col) = shown(end);
    format!(in alloc; "  {line}:{col}-{last_line}:{last_col} E{code}\n")
}

// The line on a fault, by the cursor at its start.
fn fault_line(
    alloc: Global,
    text: &Text,
    start: Cursor,
    fault: &Diagnostic,
) -> Result<String, AllocError>
    requires placed { IsPlaced text.now fault.now.span }
    requires cursor { IsCursor Characters text.now start }
    requires start { start ≡ cursor_at Characters text.now fault.now.span.start }
    ensures { IfOk result (λ line. string_bytes line ≡ report_of.fault_line text.now fault.now) }
{
    let end = start.moved(text, Columns::Characters, fault.span.end);
    line_between(alloc, start.place, end.place, fault.code)
}

fn fault_lines(alloc: Global, text: &Text, faults: &[Diagnostic]) -> Result<String, AllocError>
    requires { FaultsPlaced text.now faults.now }
    ensures { IfOk result (λ lines. string_bytes lines
        ≡ report_of.fault_lines text.now faults.now) }
{
    let mut lines = String::new(alloc);
    let mut cursor = Cursor::start(text, Columns::Characters);
    for fault in faults {
        cursor = cursor.moved(text, Columns::Characters, fault.span.start);
        lines.push_str(fault_line(alloc, text, cursor, fault)?.as_str())?;
    }
    Ok(lines)
}

// The word of a level.
fn level_word(level: Level) -> &'static str
    ensures { result.now ≡ report_of.level_word level }
{
    match level {
        Level::Constant => "constant",
        Level::State => "state",
        Level::Action => "action",
        Level::Temporal => "temporal",
        Level::Instance => "instance",
    }
}

// The line on a use.
fn use_line(
    alloc: Global,
    place: Place,
    name: &str,
    file: &str,
    declared: Place,
    word: &str,
) -> Result<String, AllocError>
    ensures { IfOk result (λ line. string_bytes line
        ≡ report_of.use_line place name.now file.now declared word.now) }
{
    let (line, col) = shown(place);
    let (name_line, name_col) = shown(declared);
    format!(in alloc; "  {line}:{col} {name} -> {file} {name_line}:{name_col} {word}\n")
}

// A text as it is written.
fn source_of(text: &Text) -> &str
    ensures { result.now ≡ text.now }
{
    match std::str::from_utf8(text.bytes()) {
        Ok(source) => source,
        Err(_) => unreachable!(),
    }
}

// A name as it is written in a text.
fn written(text: &str, span: Span) -> &str
    requires { SpansText text.now span }
    ensures { result.now ≡ report_of.written text.now span }
{
    &text[span.start as usize..span.end as usize]
}

// The line on a fact, by the place of its name.
fn fact_line(alloc: Global, text: &str, place: Place, fact: &FactLine) -> Result<String, AllocError>
    requires spans { SpansText text.now fact.now.name }
    requires place { place ≡ place_at measures.Characters text.now fact.now.name.start }
    ensures { IfOk result (λ line. string_bytes line ≡ report_of.fact_line text.now fact.now) }
{
    let name = written(text, fact.name);
    let file = fact.module.as_str();
    let word = level_word(fact.level);
    use_line(alloc, place, name, file, fact.declared, word)
}

// The lines on facts, each place counted from the one before.
fn fact_lines(alloc: Global, text: &Text, facts: &[FactLine]) -> Result<String, AllocError>
    requires { FactsPlaced text.now facts.now }
    ensures { IfOk result (λ lines. string_bytes lines ≡ report_of.fact_lines text.now facts.now) }
{
    let source = source_of(text);
    let mut lines = String::new(alloc);
    let mut cursor = Cursor::start(text, Columns::Characters);
    for fact in facts {
        cursor = cursor.moved(text, Columns::Characters, fact.name.start);
        lines.push_str(fact_line(alloc, source, cursor.place, fact)?.as_str())?;
    }
    Ok(lines)
}

fn acceptance(
    alloc: Global,
    name: &str,
    text: &Text,
    facts: &[FactLine],
) -> Result<String, AllocError>
    requires { FactsPlaced text.now facts.now }
    ensures { IfOk result (λ lines. string_bytes lines
        ≡ report_of.acceptance name.now text.now facts.now) }
{
    let lines = fact_lines(alloc, text, facts)?;
    format!(in alloc; "{name} accepted\n{lines}")
}

fn refusal(
    alloc: Global,
    name: &str,
    text: &Text,
    faults: &[Diagnostic],
) -> Result<String, AllocError>
    requires { FaultsPlaced text.now faults.now }
    ensures { IfOk result (λ lines. string_bytes lines
        ≡ report_of.refusal name.now text.now faults.now) }
{
    let lines = fault_lines(alloc, text, faults)?;
    format!(in alloc; "{name} refused\n{lines}")
}

fn module_lines(alloc: Global, report: &ModuleReport) -> Result<String, AllocError>
    requires { IsReportPlaced report.now }
    ensures { IfOk result (λ lines. string_bytes lines
        ≡ report_of.module_lines report.now.verdict.name report.now.verdict.text
        report.now.verdict.faults report.now.facts) }
{
    let name = report.verdict.name.as_str();
    let text = &report.verdict.text;
    let faults = report.verdict.faults.as_slice();
    match faults {
        [] => acceptance(alloc, name, text, report.facts.as_slice()),
        [_, ..] => refusal(alloc, name, text, faults),
    }
}

fn lines_of(alloc: Global, reports: &[ModuleReport]) -> Result<String, AllocError>
    requires { All IsReportPlaced reports.now }
    ensures { IfOk result (λ lines. string_bytes lines ≡ report_of.lines_of reports.now) }
{
    let mut lines = String::new(alloc);
    for report in reports {
        lines.push_str(module_lines(alloc, report)?.as_str())?;
    }
    Ok(lines)
}

fn is_refused(report: &ModuleReport) -> bool
    ensures { result ≡ report_of.is_refused report.now }
{
    match report.verdict.faults.as_slice() {
        [] => false,
        [_, ..] => true,
    }
}

fn refused_count(reports: &[ModuleReport]) -> usize
    ensures { result ≡ report_of.refused_count reports.now }
{
    reports.iter().filter(|report| is_refused(*report)).count()
}

fn summary(alloc: Global, count: usize, refused: usize) -> Result<String, AllocError>
    ensures { IfOk result (λ line. string_bytes line ≡ report_of.summary count refused) }
{
    format!(in alloc; "modules={count} refused={refused}\n")
}

fn count_line(alloc: Global, count: u64) -> Result<String, AllocError>
    ensures { IfOk result (λ line. string_bytes line ≡ report_of.count_line count) }
{
    format!(in alloc; "uses={count}\n")
}

/// The last line of the report on modules, and how many uses of names they have.
pub fn counts_of(
    alloc: Global,
    reports: &[ModuleReport],
    use_count: u64,
) -> Result<String, AllocError>
    ensures { IfOk result (λ text. string_bytes text ≡ report_of.counts reports.now use_count) }
{
    let mut text = summary(alloc, reports.len(), refused_count(reports))?;
    text.push_str(count_line(alloc, use_count)?.as_str())?;
    Ok(text)
}

/// The report on modules, in order of their names.
pub fn report_on(alloc: Global, reports: &[ModuleReport]) -> Result<String, AllocError>
    requires { All IsReportPlaced reports.now }
    ensures { IfOk result (λ text. string_bytes text ≡ report_of.report reports.now) }
{
    let mut text = lines_of(alloc, reports)?;
    let last = summary(alloc, reports.len(), refused_count(reports))?;
    text.push_str(last.as_str())?;
    Ok(text)
}

/// The status of a run that reports on modules: 0 where none is refused, else 1.
pub fn report_status(reports: &[ModuleReport]) -> u8
    ensures status { result ≡ report_of.report_status reports.now }
    ensures verdict { nat_le result 1 ≡ true }
{
    if refused_count(reports) == 0 { 0 } else { 1 }
}
