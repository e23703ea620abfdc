// Modules that are instantiated and are at fault beside the whole reports on them.
use crate::tests::Case;

/// Which modules INSTANCE names, and which are refused.
pub static NEEDED: [Case; 12] = [
    // Two modules that instantiate each other, and one that does so with itself.
    (
        &[
            ("A", "I == INSTANCE B"),
            ("B", "LOCAL INSTANCE A"),
            ("C", "INSTANCE C\nU == Z"),
        ],
        1,
        "A refused\n  2:15-2:16 E302\nB refused\n  2:16-2:17 E302\nC refused\n  2:10-2:11 E302\nmodules=3 refused=3\n",
    ),
    // A circle through EXTENDS, a LET and an INSTANCE.
    (
        &[
            ("A", "EXTENDS B"),
            ("B", "U == LET I == INSTANCE C IN 1"),
            ("C", "INSTANCE A"),
            ("D", "I == INSTANCE A\nU == I!F"),
        ],
        1,
        "A refused\n  2:9-2:10 E302\nB refused\n  2:24-2:25 E302\nC refused\n  2:10-2:11 E302\nD refused\n  2:15-2:16 E303\nmodules=4 refused=4\n",
    ),
    // A circle through a nested module.
    (
        &[
            (
                "A",
                "---- MODULE P ----\nU == LET I == INSTANCE B IN 1\n====",
            ),
            ("B", "EXTENDS A"),
        ],
        1,
        "A refused\n  3:24-3:25 E302\nB refused\n  2:9-2:10 E302\nmodules=2 refused=2\n",
    ),
    // A refused module; the names of the other one are not looked at.
    (
        &[
            ("A", "I == INSTANCE B\nU == I!F\nV == Z"),
            ("B", "F == G"),
            ("C", "---- MODULE N ----\nLOCAL INSTANCE B\n===="),
        ],
        1,
        "A refused\n  2:15-2:16 E303\nB refused\n  2:6-2:7 E401\nC refused\n  3:16-3:17 E303\nmodules=3 refused=3\n",
    ),
    // In a LET, in an assumption, in a right side.
    (
        &[
            (
                "A",
                "U == LET I == INSTANCE Q\n         J == INSTANCE B\n     IN 1\nASSUME LET I == INSTANCE A IN TRUE\nK == INSTANCE D WITH c <- LET I == INSTANCE R IN 1",
            ),
            ("B", "F == G"),
            ("D", "CONSTANT c"),
        ],
        1,
        "A refused\n  2:24-2:25 E301\n  3:24-3:25 E303\n  5:26-5:27 E302\n  6:45-6:46 E301\nB refused\n  2:6-2:7 E401\nD accepted\nmodules=3 refused=2\n",
    ),
    // One refused for the next one.
    (
        &[
            ("A", "I == INSTANCE B"),
            ("B", "INSTANCE C"),
            ("C", "EXTENDS Q"),
        ],
        1,
        "A refused\n  2:15-2:16 E303\nB refused\n  2:10-2:11 E303\nC refused\n  2:9-2:10 E301\nmodules=3 refused=3\n",
    ),
    // Refused since an INSTANCE is at fault.
    (
        &[
            ("A", "INSTANCE B"),
            ("B", "I == INSTANCE C"),
            ("C", "CONSTANT c"),
            ("D", "U == LET I == INSTANCE B IN 1"),
        ],
        1,
        "A refused\n  2:10-2:11 E303\nB refused\n  2:15-2:16 E407\nC accepted\nD refused\n  2:24-2:25 E303\nmodules=4 refused=3\n",
    ),
    // A module with a front fault needs nothing.
    (
        &[("A", "I == INSTANCE B"), ("B", "I == INSTANCE A\n;")],
        1,
        "A refused\n  2:15-2:16 E303\nB refused\n  3:1-3:2 E201\nmodules=2 refused=2\n",
    ),
    // All faults of imports, in order.
    (
        &[
            (
                "A",
                "EXTENDS Q, B\nINSTANCE R\nU == LET I == INSTANCE A IN V\nI == INSTANCE B\nJ == INSTANCE Q",
            ),
            ("B", "F == 1"),
        ],
        1,
        "A refused\n  2:9-2:10 E301\n  3:10-3:11 E301\n  4:24-4:25 E302\n  6:15-6:16 E301\nB accepted\nmodules=2 refused=1\n",
    ),
    // A file hides the built-in module of its name.
    (
        &[
            (
                "A",
                "N == INSTANCE Naturals\nU == <<N!F, N!Nat>>\nI == INSTANCE Integers\nV == <<I!F, I!Int>>",
            ),
            ("Naturals", "F == 1"),
        ],
        1,
        "A refused\n  3:15-3:18 E401\nNaturals accepted\nmodules=2 refused=1\n",
    ),
    // And may stand in a circle with others.
    (
        &[
            ("A", "I == INSTANCE Integers"),
            ("Naturals", "INSTANCE Integers"),
        ],
        1,
        "A refused\n  2:15-2:23 E303\nNaturals refused\n  2:10-2:18 E302\nmodules=2 refused=2\n",
    ),
    // A module in comments is not needed.
    (
        &[(
            "A",
            r#"\* INSTANCE Q
(* INSTANCE A *)
U == "INSTANCE R""#,
        )],
        0,
        "A accepted\nmodules=1 refused=0\n",
    ),
];
