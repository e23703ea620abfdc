// Instances that other modules bring beside the whole reports on them.
use crate::tests::Case;

/// Instances that come along.
pub static BROUGHT: [Case; 15] = [
    // Instances come along, with what stands behind them.
    (
        &[
            ("A", "INSTANCE B\nU == <<I!G, F, I!F>>"),
            ("B", "I == INSTANCE C\nF == 1"),
            ("C", "G == 1"),
        ],
        1,
        "A refused\n  3:18-3:19 E401\nB accepted\nC accepted\nmodules=3 refused=1\n",
    ),
    // Also where the module has a parameter.
    (
        &[
            (
                "A",
                "INSTANCE B WITH c <- 1\nU == <<I!G, I!J!H>>\nINSTANCE B WITH c <- 2",
            ),
            ("B", "CONSTANT c\nI == INSTANCE C WITH d <- c"),
            ("C", "CONSTANT d\nG == d\nJ == INSTANCE D"),
            ("D", "H == 1"),
        ],
        1,
        "A refused\n  4:10-4:11 E404\nB accepted\nC accepted\nD accepted\nmodules=4 refused=1\n",
    ),
    // LOCAL ones don't.
    (
        &[
            ("A", "INSTANCE B\nU == I!G"),
            ("B", "LOCAL I == INSTANCE C"),
            ("C", "G == 1"),
        ],
        1,
        "A refused\n  3:6-3:7 E401\nB accepted\nC accepted\nmodules=3 refused=1\n",
    ),
    // From one that is extended.
    (
        &[
            ("A", "INSTANCE B\nU == I!G"),
            ("B", "EXTENDS C"),
            ("C", "I == INSTANCE D"),
            ("D", "G == 1"),
        ],
        0,
        "A accepted\nB accepted\nC accepted\nD accepted\nmodules=4 refused=0\n",
    ),
    // What an INSTANCE brought stands behind an instance, unless it is LOCAL.
    (
        &[
            ("A", "I == INSTANCE B\nU == <<I!F, I!G>>"),
            ("B", "INSTANCE C\nLOCAL INSTANCE D"),
            ("C", "F == 1"),
            ("D", "G == 1"),
        ],
        1,
        "A refused\n  3:15-3:16 E401\nB accepted\nC accepted\nD accepted\nmodules=4 refused=1\n",
    ),
    // One instance from two modules that share it.
    (
        &[
            ("A", "EXTENDS B, C\nU == I!F"),
            ("B", "EXTENDS D"),
            ("C", "EXTENDS D"),
            ("D", "I == INSTANCE E"),
            ("E", "F == 1"),
            ("F", "EXTENDS B\nINSTANCE C\nU == I!F"),
        ],
        0,
        "A accepted\nB accepted\nC accepted\nD accepted\nE accepted\nF accepted\nmodules=6 refused=0\n",
    ),
    // Two instances of one name are a clash, and the first one stays.
    (
        &[
            ("A", "EXTENDS B, C\nU == I!F"),
            ("B", "I == INSTANCE D"),
            ("C", "I == INSTANCE E"),
            ("D", "F == 1"),
            ("E", "G == 1"),
            ("F", "EXTENDS C\nINSTANCE B\nU == I!F"),
        ],
        1,
        "A refused\n  2:12-2:13 E403\nB accepted\nC accepted\nD accepted\nE accepted\nF refused\n  3:10-3:11 E404\n  4:8-4:9 E401\nmodules=6 refused=2\n",
    ),
    // Two instances of one name behind others are none.
    (
        &[
            (
                "A",
                "I == INSTANCE B\nK == INSTANCE D\nU == <<I!J!F, K!J!F, K!J!G>>",
            ),
            ("B", "J == INSTANCE C"),
            ("C", "F == 1"),
            ("D", "J == INSTANCE E"),
            ("E", "G == 1"),
        ],
        1,
        "A refused\n  4:19-4:20 E401\nB accepted\nC accepted\nD accepted\nE accepted\nmodules=5 refused=1\n",
    ),
    // An instance in a LET goes nowhere.
    (
        &[
            ("A", "EXTENDS B\nI == INSTANCE B\nU == <<V, I!V, I!J!F>>"),
            ("B", "V == LET J == INSTANCE C IN J!F"),
            ("C", "F == 1"),
        ],
        1,
        "A refused\n  4:18-4:19 E401\nB accepted\nC accepted\nmodules=3 refused=1\n",
    ),
    // A module that was extended is instantiated: a name behind it is asked of its exports.
    (
        &[
            ("M", "EXTENDS N\nI == INSTANCE Q"),
            ("N", "EXTENDS P"),
            ("O", "EXTENDS M\nU == I!H"),
            ("P", "---- MODULE Inner ----\nEXTENDS Q\n====\nG == 1"),
            ("Q", "F == 1"),
        ],
        1,
        "M accepted\nN accepted\nO refused\n  3:8-3:9 E401\nP accepted\nQ accepted\nmodules=5 refused=1\n",
    ),
    // Which has it here.
    (
        &[
            ("M", "EXTENDS N\nI == INSTANCE Q"),
            ("N", "EXTENDS P"),
            ("O", "EXTENDS M\nU == I!H"),
            ("P", "---- MODULE Inner ----\nEXTENDS Q\n====\nG == 1"),
            ("Q", "F == 1\nH == 1"),
        ],
        0,
        "M accepted\nN accepted\nO accepted\nP accepted\nQ accepted\nmodules=5 refused=0\n",
    ),
    // An instance that one way does not bring, and the other does.
    (
        &[
            ("B", "LOCAL INSTANCE M\nF == 1"),
            ("C", "EXTENDS B"),
            ("D", "EXTENDS C, M\nU == I!G"),
            ("M", "I == INSTANCE P"),
            ("P", "G == 1"),
            ("Q", "H == 1"),
        ],
        0,
        "B accepted\nC accepted\nD accepted\nM accepted\nP accepted\nQ accepted\nmodules=6 refused=0\n",
    ),
    // With nothing of that name behind it.
    (
        &[
            ("B", "LOCAL INSTANCE M\nF == 1"),
            ("C", "EXTENDS B"),
            ("D", "EXTENDS C, M\nU == I!G"),
            ("M", "I == INSTANCE Q"),
            ("P", "G == 1"),
            ("Q", "H == 1"),
        ],
        1,
        "B accepted\nC accepted\nD refused\n  3:8-3:9 E401\nM accepted\nP accepted\nQ accepted\nmodules=6 refused=1\n",
    ),
    // One that is LOCAL in a module and exported by another.
    (
        &[
            ("A", "EXTENDS B\nU == <<I!F, I!J!G>>"),
            ("B", "EXTENDS C\nLOCAL INSTANCE C"),
            ("C", "I == INSTANCE D"),
            ("D", "J == INSTANCE E\nF == 1"),
            ("E", "G == 1"),
        ],
        0,
        "A accepted\nB accepted\nC accepted\nD accepted\nE accepted\nmodules=5 refused=0\n",
    ),
    // What is LOCAL in a module can be defined where that one is extended.
    (
        &[
            ("A", "EXTENDS C\nU == <<I!F, I!G>>"),
            ("B", "F == 1\nLOCAL G == 2"),
            ("C", "I == INSTANCE D"),
            ("D", "EXTENDS B\nG == 3"),
        ],
        0,
        "A accepted\nB accepted\nC accepted\nD accepted\nmodules=4 refused=0\n",
    ),
];
