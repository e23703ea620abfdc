// INSTANCE without a name beside the whole reports on it.
use crate::tests::Case;

/// What INSTANCE without a name brings.
pub static UNNAMED: [Case; 20] = [
    // The definitions are brought, and neither constants nor variables.
    (
        &[
            ("A", "INSTANCE B WITH c <- 1, x <- 2\nU == <<F, c, x>>"),
            ("B", "CONSTANT c\nVARIABLE x\nF == c"),
        ],
        1,
        "A refused\n  3:11-3:12 E401\n  3:14-3:15 E401\nB accepted\nmodules=2 refused=1\n",
    ),
    // Nor LOCAL definitions, nor nested modules.
    (
        &[
            ("A", "INSTANCE B\nU == <<G, F>>\nN == 1"),
            ("B", "LOCAL F == 1\nG == F\n---- MODULE N ----\n===="),
        ],
        1,
        "A refused\n  3:11-3:12 E401\nB accepted\nmodules=2 refused=1\n",
    ),
    // Nor can a nested module be named.
    (
        &[
            ("A", "INSTANCE B\nI == INSTANCE N\nU == Z"),
            ("B", "---- MODULE N ----\n===="),
        ],
        1,
        "A refused\n  3:15-3:16 E301\nB accepted\nmodules=2 refused=1\n",
    ),
    // Without parameters they are the same as the module's, so they may come again.
    (
        &[
            (
                "A",
                "EXTENDS B\nINSTANCE B\nINSTANCE B\nLOCAL INSTANCE B\nU == F",
            ),
            ("B", "F == 1\na + b == a"),
        ],
        0,
        "A accepted\nB accepted\nmodules=2 refused=0\n",
    ),
    // With parameters they are others each time.
    (
        &[
            (
                "A",
                "INSTANCE B WITH c <- 1\nINSTANCE B WITH c <- 1\nU == F",
            ),
            ("B", "CONSTANT c\nF == c"),
        ],
        1,
        "A refused\n  3:10-3:11 E404\nB accepted\nmodules=2 refused=1\n",
    ),
    // And others than those that are extended.
    (
        &[
            ("A", "EXTENDS B\nINSTANCE B\nU == F"),
            ("B", "CONSTANT c\nF == c"),
            ("C", "EXTENDS D\nINSTANCE D"),
            ("D", "CONSTANT c\nVARIABLE x"),
        ],
        1,
        "A refused\n  3:10-3:11 E404\nB accepted\nC accepted\nD accepted\nmodules=4 refused=1\n",
    ),
    // A clash with a definition, which stays.
    (
        &[
            ("A", "F(x) == x\nINSTANCE B\nU == <<F(1), F>>"),
            ("B", "F == 1"),
            ("C", "F == 1\nLOCAL INSTANCE B"),
        ],
        1,
        "A refused\n  3:10-3:11 E404\n  4:14-4:15 E502\nB accepted\nC refused\n  3:16-3:17 E404\nmodules=3 refused=2\n",
    ),
    // Several clashes are one fault, and the rest is brought.
    (
        &[
            ("A", "F == 1\nLOCAL G == 2\nINSTANCE B\nU == H"),
            ("B", "F == 1\nG == 2\nH == 3"),
        ],
        1,
        "A refused\n  4:10-4:11 E404\nB accepted\nmodules=2 refused=1\n",
    ),
    // A clash by symbols, and by what is declared.
    (
        &[
            ("A", "a + b == a\nINSTANCE Naturals\nU == Nat"),
            (
                "B",
                "CONSTANT Nat\nVARIABLE F\nINSTANCE Naturals\nINSTANCE C",
            ),
            ("C", "F == 1"),
        ],
        1,
        "A refused\n  3:10-3:18 E404\nB refused\n  4:10-4:18 E404\n  5:10-5:11 E404\nC accepted\nmodules=3 refused=2\n",
    ),
    // What came is there.
    (
        &[
            (
                "A",
                r"INSTANCE B
F == 2
U == \A G \in {1} : F = G",
            ),
            ("B", "F == 1\nG == 2"),
        ],
        1,
        "A refused\n  3:1-3:2 E402\n  4:9-4:10 E402\nB accepted\nmodules=2 refused=1\n",
    ),
    // By two ways through one INSTANCE each: a clash.
    (
        &[
            ("A", "INSTANCE B\nINSTANCE D\nU == F"),
            ("B", "INSTANCE C WITH c <- 1"),
            ("C", "CONSTANT c\nF == c"),
            ("D", "INSTANCE C WITH c <- 1"),
            ("E", "EXTENDS B, D"),
        ],
        1,
        "A refused\n  3:10-3:11 E404\nB accepted\nC accepted\nD accepted\nE refused\n  2:12-2:13 E403\nmodules=5 refused=2\n",
    ),
    // By two ways through the same INSTANCE: none. So too where there is no parameter.
    (
        &[
            ("A", "INSTANCE B\nINSTANCE D\nU == F"),
            ("B", "INSTANCE C WITH c <- 1"),
            ("C", "CONSTANT c\nF == c"),
            ("D", "EXTENDS B"),
            ("E", "EXTENDS D, B, F, G\nU == H"),
            ("F", "INSTANCE I"),
            ("G", "INSTANCE I"),
            ("I", "H == 1"),
        ],
        0,
        "A accepted\nB accepted\nC accepted\nD accepted\nE accepted\nF accepted\nG accepted\nI accepted\nmodules=8 refused=0\n",
    ),
    // Naturals through an INSTANCE with parameters is another Naturals.
    (
        &[
            ("A", "EXTENDS Naturals\nINSTANCE B WITH c <- 1\nU == F + 1"),
            ("B", "EXTENDS Naturals\nCONSTANT c\nF == c + 1"),
        ],
        1,
        "A refused\n  3:10-3:11 E404\nB accepted\nmodules=2 refused=1\n",
    ),
    // It is not brought where the module has it as LOCAL.
    (
        &[
            ("A", "EXTENDS Naturals\nINSTANCE B WITH c <- 1\nU == F + 1"),
            ("B", "LOCAL INSTANCE Naturals\nCONSTANT c\nF == c + 1"),
            ("C", "INSTANCE B WITH c <- 1\nU == F + 1"),
        ],
        1,
        "A accepted\nB accepted\nC refused\n  3:8-3:9 E401\nmodules=3 refused=1\n",
    ),
    // Without parameters it is the same.
    (
        &[
            (
                "A",
                "EXTENDS Integers\nINSTANCE B\nINSTANCE Naturals\nU == F + 1",
            ),
            ("B", "EXTENDS Naturals\nF == 1 + 2"),
        ],
        0,
        "A accepted\nB accepted\nmodules=2 refused=0\n",
    ),
    // RealTime has a variable, and extends Reals.
    (
        &[
            ("A", "EXTENDS Reals\nVARIABLE now\nINSTANCE RealTime"),
            ("B", "VARIABLE now\nINSTANCE RealTime\nU == 1 / Real"),
        ],
        1,
        "A refused\n  4:10-4:18 E404\nB accepted\nmodules=2 refused=1\n",
    ),
    // What is not named, is no parameter, is named twice.
    (
        &[
            ("A", "INSTANCE B\nU == F"),
            ("B", "CONSTANT c\nF == c"),
            ("C", "INSTANCE B WITH c <- 1, F <- 2, c <- F\nU == F"),
            ("D", "c(a) == a\nINSTANCE B"),
        ],
        1,
        "A refused\n  2:10-2:11 E407\nB accepted\nC refused\n  2:25-2:26 E405\n  2:33-2:34 E406\n  2:38-2:39 E401\nD refused\n  3:10-3:11 E502\nmodules=4 refused=3\n",
    ),
    // Through one INSTANCE and another.
    (
        &[
            (
                "A",
                "INSTANCE B WITH d <- 1\nU == F\nINSTANCE C WITH c <- 1",
            ),
            ("B", "CONSTANT d\nINSTANCE C WITH c <- d"),
            ("C", "CONSTANT c\nF == c"),
        ],
        1,
        "A refused\n  4:10-4:11 E404\nB accepted\nC accepted\nmodules=3 refused=1\n",
    ),
    // What is LOCAL in its module, and what is not, once or again.
    (
        &[
            ("A", "EXTENDS B\nU == <<G, F>>"),
            ("B", "LOCAL INSTANCE C\nG == F"),
            ("C", "F == 1"),
            ("D", "LOCAL INSTANCE C\nINSTANCE C"),
            ("E", "INSTANCE C\nLOCAL INSTANCE C"),
            ("G", "EXTENDS D\nU == F"),
            ("H", "EXTENDS E\nU == F"),
        ],
        1,
        "A refused\n  3:11-3:12 E401\nB accepted\nC accepted\nD accepted\nE accepted\nG accepted\nH accepted\nmodules=7 refused=1\n",
    ),
    // An INSTANCE without a name stands in no LET, and no LOCAL does.
    (
        &[
            ("A", "U == LET INSTANCE B IN F"),
            ("B", "U == LET LOCAL I == INSTANCE C IN 1"),
            ("C", "LOCAL INSTANCE"),
        ],
        1,
        "A refused\n  2:10-2:18 E202\nB refused\n  2:10-2:15 E202\nC refused\n  3:1-3:5 E202\nmodules=3 refused=3\n",
    ),
];
