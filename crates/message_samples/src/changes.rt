// The words of LSP on small texts, as an editor sends them.
use doc_edit::{EditError, apply};
use lsp_wire::{Area, Change, Position};
use std::alloc::Global;
use std::process::Abort;
use tla_text::Text;
use tool_list::{Chars, List};

// The numbers of an area: line and unit of its start, line and unit of its end.
type Numbers = [u32; 4];
// A change by its area and its text.
type Edit = (Option<Numbers>, &'static str);

fn area_of(numbers: Numbers) -> Area {
    let [line, unit, end_line, end_unit] = numbers;
    Area {
        start: Position { line, unit },
        end: Position {
            line: end_line,
            unit: end_unit,
        },
    }
}

fn change_of(rt: &impl Abort, alloc: Global, edit: Edit) -> Change {
    let (numbers, text) = edit;
    Change {
        area: numbers.map(area_of),
        text: Chars::from_str(alloc, text).expect(rt, text),
    }
}

fn changes_of(rt: &impl Abort, alloc: Global, edits: &[Edit]) -> List<Change> {
    let mut changes = List::new(alloc);
    for edit in edits {
        changes.push(change_of(rt, alloc, *edit)).expect(rt, "room");
    }
    changes
}

fn text_of(rt: &impl Abort, alloc: Global, text: &str) -> Text {
    assert!(rt; text.len() < 1000);
    Text::read(alloc, text.as_bytes()).expect(rt, text)
}

// Texts, each with two changes and what they make of it.
static EDITED: [(&str, &[Edit], &str); 5] = [
    // The second counts from what the first left.
    (
        "ab\ncd\n",
        &[(Some([0, 1, 1, 1]), "X\nY"), (Some([1, 1, 1, 9]), "Z\n")],
        "aX\nYZ\n\n",
    ),
    // A pair of units is cut at its start.
    (
        "a😀b",
        &[(Some([0, 1, 0, 2]), "-"), (Some([0, 4, 0, 5]), "")],
        "a-😀",
    ),
    // CRLF, CR and LF end lines; a unit past a line's end is before what ends it.
    (
        "a\r\nb\rc\nd",
        &[(Some([0, 7, 1, 0]), "|"), (Some([1, 0, 2, 0]), "")],
        "a|b\rd",
    ),
    // A line past the last is the text's end.
    (
        "ab",
        &[(Some([7, 0, 8, 0]), "c"), (Some([0, 0, 0, 0]), "_")],
        "_abc",
    ),
    // A change without an area is of the whole text.
    (
        "old",
        &[(None, "new text"), (Some([0, 3, 0, 99]), "")],
        "new",
    ),
];

fn check_edited(rt: &impl Abort, alloc: Global, text: &str, edits: &[Edit], expected: &str) {
    let mut edited = text_of(rt, alloc, text);
    let result = apply(alloc, &mut edited, &changes_of(rt, alloc, edits));
    assert_eq!(rt; result, Ok(()), "{text}");
    assert_eq!(rt; edited.bytes(), expected.as_bytes(), "{text}");
}

#[test]
fn makes_changes_in_order(rt: HostRuntime) {
    for (text, edits, expected) in &EDITED {
        check_edited(&rt, rt.alloc(), *text, *edits, *expected);
    }
}

#[test]
fn refuses_a_backward_area_before_all_else(rt: HostRuntime) {
    let mut text = text_of(&rt, rt.alloc(), "ab");
    // Both positions of the second mean the text's end.
    let edits = [(None, "x"), (Some([9, 1, 9, 0]), "y")];
    let changes = changes_of(&rt, rt.alloc(), &edits);
    assert_eq!(rt;
        apply(rt.alloc(), &mut text, &changes),
        Err(EditError::BackwardRange { index: 1 })
    );
    assert_eq!(rt; text.bytes(), "ab".as_bytes());
}
