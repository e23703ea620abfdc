// Names behind instances beside the whole reports that the sentences of the language ask for.
use crate::tests::Case;

/// Paths, and what stands behind instances.
pub static PATHS: [Case; 20] = [
    // A name behind an instance.
    (
        &[("A", "I == INSTANCE B\nU == I!F"), ("B", "F == 1")],
        0,
        "A accepted\nB accepted\nmodules=2 refused=0\n",
    ),
    // Two instances of one module. Neither brings a name.
    (
        &[
            (
                "A",
                "I == INSTANCE B\nJ == INSTANCE B\nU == <<I!F, J!F, F>>",
            ),
            ("B", "F == 1"),
        ],
        1,
        "A refused\n  4:18-4:19 E401\nB accepted\nmodules=2 refused=1\n",
    ),
    // Behind an instance stands neither a constant nor a variable, nor what is LOCAL, nor a nested module.
    (
        &[
            (
                "A",
                "CONSTANT c\nVARIABLE x\nI == INSTANCE B\nU == <<I!c, I!x, I!F, I!G, I!N>>",
            ),
            (
                "B",
                "CONSTANT c\nVARIABLE x\nLOCAL F == c\nG == F\n---- MODULE N ----\n====",
            ),
        ],
        1,
        "A refused\n  5:10-5:11 E401\n  5:15-5:16 E401\n  5:20-5:21 E401\n  5:30-5:31 E401\nB accepted\nmodules=2 refused=1\n",
    ),
    // Nor what is built in, nor a bound name.
    (
        &[
            ("A", "I == INSTANCE B\nU == <<I!TRUE, I!x, I!y, I!F(1)>>"),
            ("B", r"F(x) == \A y \in {1} : x = y"),
        ],
        1,
        "A refused\n  3:10-3:14 E401\n  3:18-3:19 E401\n  3:23-3:24 E401\nB accepted\nmodules=2 refused=1\n",
    ),
    // An instance of a module that has an instance.
    (
        &[
            ("A", "I == INSTANCE B\nU == I!J!F"),
            ("B", "J == INSTANCE C"),
            ("C", "F == 1"),
        ],
        0,
        "A accepted\nB accepted\nC accepted\nmodules=3 refused=0\n",
    ),
    // Each segment may mean nothing; those behind it are not looked at.
    (
        &[
            (
                "A",
                "I == INSTANCE B\nU == Z!J!F\nV == I!Z!F\nW == I!J!Z\nX == I!F\nY == I!J!F",
            ),
            ("B", "J == INSTANCE C"),
            ("C", "F == 1"),
        ],
        1,
        "A refused\n  3:6-3:7 E401\n  4:8-4:9 E401\n  5:10-5:11 E401\n  6:8-6:9 E401\nB accepted\nC accepted\nmodules=3 refused=1\n",
    ),
    // Nor are their arguments, but those of the one that means nothing are.
    (
        &[
            ("A", "I == INSTANCE B\nU == I!Z(Y)!F(X)\nV == Z(1)!F(X)"),
            ("B", "F(x) == x"),
        ],
        1,
        "A refused\n  3:8-3:9 E401\n  3:10-3:11 E401\n  4:6-4:7 E401\nB accepted\nmodules=2 refused=1\n",
    ),
    // What is no instance has nothing behind it.
    (
        &[(
            "A",
            r"CONSTANT c
F == 1
U == <<F!G, c!G, TRUE!G>>
V == \A x \in {1} : x!G!H
W(J) == J!G",
        )],
        1,
        "A refused\n  4:10-4:11 E401\n  4:15-4:16 E401\n  4:23-4:24 E401\n  5:23-5:24 E401\n  6:11-6:12 E401\nmodules=1 refused=1\n",
    ),
    // A definition behind an instance is none.
    (
        &[
            ("A", "I == INSTANCE B\nU == I!F!G"),
            ("B", "F == 1\nG == 2"),
        ],
        1,
        "A refused\n  3:10-3:11 E401\nB accepted\nmodules=2 refused=1\n",
    ),
    // Four instances, one behind the other.
    (
        &[
            ("A", "I == INSTANCE B\nU == <<I!J!K!F, I!J!K!G, I!J!F>>"),
            ("B", "J == INSTANCE C"),
            ("C", "K == INSTANCE D"),
            ("D", "F == 1"),
        ],
        1,
        "A refused\n  3:23-3:24 E401\n  3:30-3:31 E401\nB accepted\nC accepted\nD accepted\nmodules=4 refused=1\n",
    ),
    // An instance that is extended.
    (
        &[
            ("A", "EXTENDS B\nU == <<I!F, I!G>>"),
            ("B", "I == INSTANCE C"),
            ("C", "F == 1\nLOCAL G == 2"),
        ],
        1,
        "A refused\n  3:15-3:16 E401\nB accepted\nC accepted\nmodules=3 refused=1\n",
    ),
    // Behind it stands what its module extends, too.
    (
        &[
            ("A", "J == INSTANCE B\nU == <<J!F, J!I!G>>"),
            ("B", "EXTENDS C"),
            ("C", "F == 1\nI == INSTANCE D"),
            ("D", "G == 1"),
        ],
        0,
        "A accepted\nB accepted\nC accepted\nD accepted\nmodules=4 refused=0\n",
    ),
    // An instance in a LET, for that LET alone.
    (
        &[
            ("A", "U == LET I == INSTANCE B IN I!F\nV == I!F"),
            ("B", "F == 1"),
        ],
        1,
        "A refused\n  3:6-3:7 E401\nB accepted\nmodules=2 refused=1\n",
    ),
    // The definitions of a LET are added in order.
    (
        &[
            (
                "A",
                "U == LET I == INSTANCE B\n         J == I!F\n     IN <<J, I!G>>\nV == LET J == I!F\n         I == INSTANCE B\n     IN J",
            ),
            ("B", "F == 1"),
        ],
        1,
        "A refused\n  4:16-4:17 E401\n  5:15-5:16 E401\nB accepted\nmodules=2 refused=1\n",
    ),
    // A LOCAL instance is not exported.
    (
        &[
            ("A", "EXTENDS B\nU == <<G, I!F>>"),
            ("B", "LOCAL I == INSTANCE C\nG == I!F"),
            ("C", "F == 1"),
            ("D", "J == INSTANCE B\nU == <<J!G, J!I!F>>"),
        ],
        1,
        "A refused\n  3:11-3:12 E401\nB accepted\nC accepted\nD refused\n  3:15-3:16 E401\nmodules=4 refused=2\n",
    ),
    // An instance is used behind its place, and not in itself.
    (
        &[
            ("A", "U == I!F\nI == INSTANCE B WITH c <- I!F\nV == I!F"),
            ("B", "CONSTANT c\nF == c"),
        ],
        1,
        "A refused\n  2:6-2:7 E401\n  3:27-3:28 E401\nB accepted\nmodules=2 refused=1\n",
    ),
    // Modules and symbols are named apart.
    (
        &[
            ("A", "B == INSTANCE B\nU == B!F"),
            ("B", "A == INSTANCE C\nF == A!G"),
            ("C", "G == 1"),
        ],
        0,
        "A accepted\nB accepted\nC accepted\nmodules=3 refused=0\n",
    ),
    // Symbols stand behind no instance; the names beside them do.
    (
        &[(
            "A",
            "N == INSTANCE Naturals\nU == N!Nat\nV == 1 + N!div\nW == Nat",
        )],
        1,
        "A refused\n  4:8-4:9 E401\n  4:12-4:15 E401\n  5:6-5:9 E401\nmodules=1 refused=1\n",
    ),
    // They can't be written there.
    (
        &[("A", "N == INSTANCE Naturals\nU == N!+(1, 2)")],
        1,
        "A refused\n  3:8-3:9 E202\nmodules=1 refused=1\n",
    ),
    // A path as a subscript.
    (
        &[
            ("A", "I == INSTANCE B\nU == [TRUE]_I!v\nV == WF_I!w(TRUE)"),
            ("B", "v == 1"),
        ],
        1,
        "A refused\n  4:11-4:12 E401\nB accepted\nmodules=2 refused=1\n",
    ),
];
