// What modules with INSTANCE share beside the whole reports on them.
use crate::tests::Case;

/// Names that come by several ways.
pub static SHARED: [Case; 15] = [
    // A module that is extended by one that is brought later.
    (
        &[
            ("A", "EXTENDS B\nINSTANCE C\nU == <<F, G>>"),
            ("B", "F == 1"),
            ("C", "EXTENDS B\nG == F"),
            ("D", "EXTENDS A\nV == <<F, G, U>>"),
            ("E", "EXTENDS B\nLOCAL INSTANCE C\nU == <<F, G>>"),
            ("F", "EXTENDS E\nV == <<F, U, G>>"),
        ],
        1,
        "A accepted\nB accepted\nC accepted\nD accepted\nE accepted\nF refused\n  3:14-3:15 E401\nmodules=6 refused=1\n",
    ),
    // LOCAL first, and a part of it without LOCAL.
    (
        &[
            ("A", "LOCAL INSTANCE C\nINSTANCE B\nU == G"),
            ("B", "F == 1"),
            ("C", "EXTENDS B\nG == F"),
            ("D", "EXTENDS A\nV == <<F, U, G>>"),
        ],
        1,
        "A accepted\nB accepted\nC accepted\nD refused\n  3:14-3:15 E401\nmodules=4 refused=1\n",
    ),
    // LOCAL first, and then EXTENDS in a nested module.
    (
        &[
            (
                "A",
                "LOCAL INSTANCE B\n---- MODULE N ----\nEXTENDS B\nG == F\n====\nI == INSTANCE N\nU == <<I!F, I!G>>",
            ),
            ("B", "F == 1"),
            ("C", "EXTENDS A\nV == <<I!F, U, F>>"),
        ],
        1,
        "A accepted\nB accepted\nC refused\n  3:16-3:17 E401\nmodules=3 refused=1\n",
    ),
    // A constant of the one and a constant of the other.
    (
        &[
            ("A", "CONSTANT c\nINSTANCE B\nU == F"),
            ("B", "CONSTANT c\nF == c"),
            ("C", "EXTENDS A\nV == <<c, F>>"),
            ("D", "EXTENDS A, B\nV == F"),
            ("E", "INSTANCE A WITH c <- 1\nV == <<F, U, c>>"),
        ],
        1,
        "A accepted\nB accepted\nC accepted\nD refused\n  2:12-2:13 E403\nE refused\n  3:14-3:15 E401\nmodules=5 refused=2\n",
    ),
    // The same entity by EXTENDS of the one and INSTANCE in the other.
    (
        &[
            ("A", "EXTENDS B, C\nU == F"),
            ("B", "F == 1\na + b == a"),
            ("C", "INSTANCE B"),
            ("D", "EXTENDS C, B\nU == F + 1"),
        ],
        0,
        "A accepted\nB accepted\nC accepted\nD accepted\nmodules=4 refused=0\n",
    ),
    // Another one, where there is a parameter.
    (
        &[
            ("A", "EXTENDS B, C\nU == F"),
            ("B", "CONSTANT c\nF == c"),
            ("C", "INSTANCE B WITH c <- 1"),
            ("D", "EXTENDS C, B\nU == <<F, c>>"),
        ],
        1,
        "A refused\n  2:12-2:13 E403\nB accepted\nC accepted\nD refused\n  2:12-2:13 E403\nmodules=4 refused=2\n",
    ),
    // A nested module behind a nested module, from other modules.
    (
        &[
            ("A", "EXTENDS B\nU == <<I!J!F, I!J!G>>"),
            (
                "B",
                "---- MODULE P ----\n---- MODULE N ----\nF == 1\n====\nJ == INSTANCE N\n====\nI == INSTANCE P",
            ),
            ("C", "K == INSTANCE B\nU == K!I!J!F"),
            ("D", "EXTENDS C\nV == K!I!J!F\nW == K!J!F"),
        ],
        1,
        "A refused\n  3:19-3:20 E401\nB accepted\nC accepted\nD refused\n  4:8-4:9 E401\nmodules=4 refused=2\n",
    ),
    // A nested module that extends one with an instance.
    (
        &[
            (
                "A",
                "---- MODULE N ----\nEXTENDS M\n====\nJ == INSTANCE N\nU == <<J!I!F, I!F>>",
            ),
            (
                "B",
                "---- MODULE N ----\nEXTENDS M\n====\nINSTANCE N\nU == I!F",
            ),
            ("C", "EXTENDS B\nV == <<I!F, U>>"),
            ("M", "I == INSTANCE P"),
            ("P", "F == 1"),
        ],
        1,
        "A refused\n  6:15-6:16 E401\nB accepted\nC accepted\nM accepted\nP accepted\nmodules=5 refused=1\n",
    ),
    // A nested module that brings one with an instance by a LOCAL INSTANCE.
    (
        &[
            (
                "A",
                "---- MODULE N ----\nLOCAL INSTANCE M\nG == I!F\n====\nJ == INSTANCE N\nU == <<J!G, J!I!F>>",
            ),
            ("M", "I == INSTANCE P"),
            ("P", "F == 1"),
        ],
        1,
        "A refused\n  7:15-7:16 E401\nM accepted\nP accepted\nmodules=3 refused=1\n",
    ),
    // A nested module in a LET, and with the name of a built-in module.
    (
        &[(
            "A",
            "---- MODULE N ----\nF == 1\n====\nU == LET I == INSTANCE N IN I!F\n---- MODULE Naturals ----\nG == 1\n====\nN == INSTANCE Naturals\nV == <<N!G, N!Nat>>",
        )],
        1,
        "A refused\n  10:15-10:18 E401\nmodules=1 refused=1\n",
    ),
    // What came without a name is there in nested modules.
    (
        &[
            (
                "A",
                "INSTANCE B WITH c <- 1\n---- MODULE N ----\nF == 1\n====\n---- MODULE P ----\nEXTENDS B\nU == <<F, c>>\n====",
            ),
            ("B", "CONSTANT c\nF == c"),
        ],
        1,
        "A refused\n  4:1-4:2 E402\n  7:9-7:10 E403\nB accepted\nmodules=2 refused=1\n",
    ),
    // A chain of instances that are brought without a name.
    (
        &[
            ("A", "INSTANCE B\nU == <<I!F, J!G, K!F>>"),
            ("B", "INSTANCE C\nI == INSTANCE D"),
            ("C", "INSTANCE D\nJ == INSTANCE E"),
            ("D", "F == 1\nK == INSTANCE F"),
            ("E", "G == 1"),
            ("F", "F == 1"),
        ],
        0,
        "A accepted\nB accepted\nC accepted\nD accepted\nE accepted\nF accepted\nmodules=6 refused=0\n",
    ),
    // A name of an instance that means an instance of another module elsewhere.
    (
        &[
            (
                "A",
                "I == INSTANCE B\nJ == INSTANCE C\nU == <<I!J!F, J!I!F, J!F, I!F>>",
            ),
            ("B", "J == INSTANCE C"),
            ("C", "F == 1\nI == INSTANCE D"),
            ("D", "F == 1"),
        ],
        1,
        "A refused\n  4:29-4:30 E401\nB accepted\nC accepted\nD accepted\nmodules=4 refused=1\n",
    ),
    // One module that is named by EXTENDS, with a name, and without.
    (
        &[
            (
                "A",
                "EXTENDS B\nINSTANCE B\nI == INSTANCE B\nLOCAL J == INSTANCE B\nU == <<F, I!F, J!F, K!G, I!K!G>>",
            ),
            ("B", "F == 1\nK == INSTANCE C"),
            ("C", "G == 1"),
            ("D", "EXTENDS A\nV == <<F, I!F, K!G, I!K!G, J!F>>"),
        ],
        1,
        "A accepted\nB accepted\nC accepted\nD refused\n  3:28-3:29 E401\nmodules=4 refused=1\n",
    ),
    // A refused module in the midst of all that.
    (
        &[
            ("A", "EXTENDS B\nI == INSTANCE C"),
            ("B", "INSTANCE D"),
            ("C", "INSTANCE D\nU == Z"),
            ("D", "F == 1"),
            ("E", "EXTENDS B\nU == F"),
        ],
        1,
        "A refused\n  3:15-3:16 E303\nB accepted\nC refused\n  3:6-3:7 E401\nD accepted\nE accepted\nmodules=5 refused=2\n",
    ),
];
