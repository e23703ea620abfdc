// Runs over devices that fail, and over large files.
use std::alloc::{AllocError, Global};

/// The words; the numbers of the folder's and the output's calls that fail, or 0; the output's
/// room; the status; and what is written.
pub type Trial = (&'static [&'static str], u32, u32, u32, u8, &'static str);

/// A text of pieces that are repeated so often; the status; and the report.
pub type Large = (&'static [(&'static [u8], usize)], u8, &'static str);

/// The text of the one file.
pub const TEXT: &str = "---- MODULE A ----\nCONSTANT N, N\n====\n";

const REPORT: &str = "A refused\n  2:13-2:14 E402\nmodules=1 refused=1\n";

/// Runs over a folder with that file, and an output that takes ten bytes a call.
pub static TRIALS: [Trial; 46] = [
    (&[], 0, 0, 100, 2, ""),
    (&["check"], 0, 0, 100, 2, ""),
    (&["check", "w", "w"], 0, 0, 100, 2, ""),
    (&["check", "-w"], 0, 0, 100, 2, ""),
    (&["check", "--help"], 0, 0, 100, 2, ""),
    (&["serve", "w"], 0, 0, 100, 2, ""),
    (&["serve", "--facts"], 0, 0, 100, 2, ""),
    // The input ends without a shutdown.
    (&["serve"], 0, 0, 100, 1, ""),
    (&["--", "serve"], 0, 0, 100, 1, ""),
    (&["checks", "w"], 0, 0, 100, 2, ""),
    (&["gen"], 0, 0, 100, 2, ""),
    (&["gen", ""], 0, 0, 100, 2, ""),
    (&["gen", "0"], 0, 0, 100, 2, ""),
    (&["gen", "01"], 0, 0, 100, 2, ""),
    (&["gen", "+1"], 0, 0, 100, 2, ""),
    (&["gen", "1a"], 0, 0, 100, 2, ""),
    (&["gen", "1025"], 0, 0, 100, 2, ""),
    (&["gen", "65537"], 0, 0, 100, 2, ""),
    (&["gen", "1", "2"], 0, 0, 100, 2, ""),
    (&["gen", "1", "--facts"], 0, 0, 100, 2, ""),
    // These are paths, at which there is no folder.
    (&["check", "v"], 0, 0, 100, 3, ""),
    (&["check", "/w"], 0, 0, 100, 3, ""),
    (&["check", "./w"], 0, 0, 100, 3, ""),
    (&["check", "_w"], 0, 0, 100, 3, ""),
    (&["check", "1"], 0, 0, 100, 3, ""),
    (&["check", ""], 0, 0, 100, 3, ""),
    (&["check", "\u{e9}"], 0, 0, 100, 3, ""),
    (&["check", "--", "-w"], 0, 0, 100, 3, ""),
    // Modules are made, and no folder is asked.
    (&["gen", "1"], 1, 0, 100, 0, "modules=1 refused=0\nuses=7\n"),
    (
        &["gen", "2"],
        1,
        0,
        100,
        0,
        "modules=2 refused=0\nuses=21\n",
    ),
    (
        &["gen", "17"],
        1,
        0,
        100,
        0,
        "modules=17 refused=0\nuses=231\n",
    ),
    (
        &["--", "gen", "1"],
        1,
        0,
        100,
        0,
        "modules=1 refused=0\nuses=7\n",
    ),
    (&["gen", "1"], 0, 1, 100, 5, ""),
    (&["gen", "1"], 0, 2, 100, 5, "modules=1 "),
    // The listing and the reading fail.
    (&["check", "w"], 1, 0, 100, 3, ""),
    (&["check", "w"], 2, 0, 100, 3, ""),
    (&["check", "w"], 3, 0, 100, 1, REPORT),
    // Facts may be asked for before the folder, and behind it.
    (&["check", "w", "--facts"], 0, 0, 100, 1, REPORT),
    (&["--facts", "check", "w"], 0, 0, 100, 1, REPORT),
    // Each write fails.
    (&["check", "w"], 0, 1, 100, 5, ""),
    (&["check", "w"], 0, 2, 100, 5, "A refused\n"),
    (&["check", "w"], 0, 3, 100, 5, "A refused\n  2:13-2:1"),
    (
        &["check", "w"],
        0,
        4,
        100,
        5,
        "A refused\n  2:13-2:14 E402\nmod",
    ),
    (
        &["check", "w"],
        0,
        5,
        100,
        5,
        "A refused\n  2:13-2:14 E402\nmodules=1 ref",
    ),
    (&["check", "w"], 0, 6, 100, 1, REPORT),
    // The output is full.
    (&["check", "w"], 0, 0, 12, 5, "A refused\n  "),
];

const BLANKS: &[u8] = b"                                                                ";

const START: &[u8] = b"---- MODULE A ----\nCONSTANT N\n====\n";

/// Texts at the limits of heights, and of 2^20 bytes for a module and 2^25 for all.
pub static LARGE: [Large; 8] = [
    (
        &[
            (b"---- MODULE A ----\nF == ", 1),
            (b"(", 999),
            (b"1", 1),
            (b")", 999),
            (b"\n====\n", 1),
        ],
        0,
        "A accepted\nmodules=1 refused=0\n",
    ),
    (
        &[
            (b"---- MODULE A ----\nF == ", 1),
            (b"(", 1000),
            (b"1", 1),
            (b")", 1000),
            (b"\n====\n", 1),
        ],
        1,
        "A refused\n  2:1-2:2 E105\nmodules=1 refused=1\n",
    ),
    // The name is looked at after that.
    (
        &[
            (b"---- MODULE B ----\nF == ", 1),
            (b"(", 1000),
            (b"1", 1),
            (b")", 1000),
            (b"\n====\n", 1),
        ],
        1,
        "A refused\n  2:1-2:2 E105\nmodules=1 refused=1\n",
    ),
    (
        &[(START, 1), (BLANKS, 16_383), (b" ", 29)],
        0,
        "A accepted\nmodules=1 refused=0\n",
    ),
    (
        &[(START, 1), (BLANKS, 16_383), (b" ", 30)],
        1,
        "A refused\n  1:1-1:1 E104\nmodules=1 refused=1\n",
    ),
    (&[(START, 1), (BLANKS, 524_287), (b" ", 30)], 7, ""),
    (
        &[(BLANKS, 16_384), (b" ", 1)],
        1,
        "A refused\n  1:1-1:1 E104\nmodules=1 refused=1\n",
    ),
    (
        &[(b"\xff", (1 << 20) + 1)],
        1,
        "A refused\n  1:1-1:1 E101\nmodules=1 refused=1\n",
    ),
];

/// The pieces behind each other, each so often.
pub fn repeated(alloc: Global, pieces: &[(&[u8], usize)]) -> Result<Vec<u8>, AllocError> {
    let mut text = Vec::new(alloc);
    for (piece, times) in pieces {
        for _ in 0..*times {
            text.extend_from_slice(*piece)?;
        }
    }
    Ok(text)
}
