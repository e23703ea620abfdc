// Files of any bytes and any names beside the whole reports on their folders.
use crate::tests::{Folder, Text};

/// Texts with front faults, and one without.
pub static FRONT: [Text; 16] = [
    (
        "A.tla",
        b"",
        1,
        "A refused\n  1:1-1:1 E102\nmodules=1 refused=1\n",
    ),
    (
        "A.tla",
        b"MODULE A",
        1,
        "A refused\n  1:1-1:1 E102\nmodules=1 refused=1\n",
    ),
    (
        "A.tla",
        b"---- MODULE B ----\n====\n",
        1,
        "A refused\n  1:13-1:14 E103\nmodules=1 refused=1\n",
    ),
    (
        "A.tla",
        b"---- MODULE A ----\n\xff",
        1,
        "A refused\n  2:1-2:1 E101\nmodules=1 refused=1\n",
    ),
    (
        "A.tla",
        b"\xc3\xa9\xc3",
        1,
        "A refused\n  1:2-1:2 E101\nmodules=1 refused=1\n",
    ),
    (
        "A.tla",
        b"---- MODULE A ----\nCONSTANT c",
        1,
        "A refused\n  2:11-2:11 E202\nmodules=1 refused=1\n",
    ),
    (
        "A.tla",
        b"---- MODULE",
        1,
        "A refused\n  1:12-1:12 E202\nmodules=1 refused=1\n",
    ),
    (
        "A.tla",
        b"---- MODULE A ?",
        1,
        "A refused\n  1:15-1:16 E201\nmodules=1 refused=1\n",
    ),
    (
        "A.tla",
        b"---- MODULE B ----\nCONSTANT",
        1,
        "A refused\n  2:9-2:9 E202\nmodules=1 refused=1\n",
    ),
    (
        "A.tla",
        b"---- MODULE B ----\nCONSTANT ?",
        1,
        "A refused\n  2:10-2:11 E201\nmodules=1 refused=1\n",
    ),
    (
        "A.tla",
        b"---- MODULE B ----\nCONSTANT c, c\n====\n",
        1,
        "A refused\n  1:13-1:14 E103\nmodules=1 refused=1\n",
    ),
    (
        "A.tla",
        b"---- MODULE B ----\nF == 1\n====\n",
        1,
        "A refused\n  1:13-1:14 E103\nmodules=1 refused=1\n",
    ),
    (
        "A.tla",
        b"---- MODULE A\n====\n",
        1,
        "A refused\n  2:1-2:5 E202\nmodules=1 refused=1\n",
    ),
    (
        "A.tla",
        b"--- MODULE A ----\n====\n",
        1,
        "A refused\n  1:1-1:1 E102\nmodules=1 refused=1\n",
    ),
    (
        "A.tla",
        b"? \xc3\xa9\n-----MODULE A----\nVARIABLE x====\n? \xc3",
        1,
        "A refused\n  4:3-4:3 E101\nmodules=1 refused=1\n",
    ),
    // What stands round a module is not looked at.
    (
        "A.tla",
        b"? \xc3\xa9\n---- MODULE A ----\nCONSTANT N\nF == N\n====\n? \xc3\xa9\n",
        0,
        "A accepted\nmodules=1 refused=0\n",
    ),
];

/// Files with other names than those of modules, and with such names.
pub static FILES: [Text; 15] = [
    (".tla", b"", 0, "modules=0 refused=0\n"),
    ("A", b"", 0, "modules=0 refused=0\n"),
    ("A.TLA", b"", 0, "modules=0 refused=0\n"),
    ("A.tla ", b"", 0, "modules=0 refused=0\n"),
    ("A.tlaa", b"", 0, "modules=0 refused=0\n"),
    ("a b.tla", b"", 0, "modules=0 refused=0\n"),
    ("B.tla.tla", b"", 0, "modules=0 refused=0\n"),
    ("12.tla", b"", 0, "modules=0 refused=0\n"),
    ("LET.tla", b"", 0, "modules=0 refused=0\n"),
    ("SF_.tla", b"", 0, "modules=0 refused=0\n"),
    ("\u{e9}.tla", b"", 0, "modules=0 refused=0\n"),
    // These are names of modules.
    (
        "_a.tla",
        b"",
        1,
        "_a refused\n  1:1-1:1 E102\nmodules=1 refused=1\n",
    ),
    (
        "1a.tla",
        b"",
        1,
        "1a refused\n  1:1-1:1 E102\nmodules=1 refused=1\n",
    ),
    (
        "let.tla",
        b"",
        1,
        "let refused\n  1:1-1:1 E102\nmodules=1 refused=1\n",
    ),
    (
        "xSF_.tla",
        b"",
        1,
        "xSF_ refused\n  1:1-1:1 E102\nmodules=1 refused=1\n",
    ),
];

/// An empty folder, and one of several files.
pub static FOLDERS: [Folder; 2] = [
    (&[], 0, "modules=0 refused=0\n"),
    // In byte order of names.
    (
        &[
            ("b.tla", b"---- MODULE b ----\n====\n"),
            ("A.tla", b"---- MODULE A ----\nVARIABLE v, v\n====\n"),
            ("UNION.tla", b"---- MODULE UNION ----\n====\n"),
            ("WF_x.tla", b""),
            ("B.tla", b""),
        ],
        1,
        "A refused\n  2:13-2:14 E402\nB refused\n  1:1-1:1 E102\nb accepted\nmodules=3 refused=2\n",
    ),
];
