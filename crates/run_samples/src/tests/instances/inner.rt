// Instances of nested modules beside the whole reports on them.
use crate::tests::Case;

/// Nested modules that are instantiated, or that instantiate others.
pub static INNER: [Case; 20] = [
    // A nested module.
    (
        &[(
            "A",
            "---- MODULE N ----\nF == 1\n====\nI == INSTANCE N\nU == <<I!F, F>>",
        )],
        1,
        "A refused\n  6:13-6:14 E401\nmodules=1 refused=1\n",
    ),
    // The names round it don't stand behind an instance of it.
    (
        &[(
            "A",
            "F == 1\n---- MODULE N ----\nG == F\n====\nI == INSTANCE N\nU == <<I!G, I!F>>",
        )],
        1,
        "A refused\n  7:15-7:16 E401\nmodules=1 refused=1\n",
    ),
    // But what it extends does, though it was there.
    (
        &[(
            "A",
            "EXTENDS Naturals\n---- MODULE N ----\nEXTENDS Naturals\n====\nI == INSTANCE N\nU == I!Nat",
        )],
        0,
        "A accepted\nmodules=1 refused=0\n",
    ),
    // Its parameters are those that the context round it does not hold.
    (
        &[(
            "A",
            "CONSTANT c\n---- MODULE N ----\nVARIABLE x\nF == <<c, x>>\n====\nI == INSTANCE N WITH x <- 1, c <- 2\nJ == INSTANCE N\nU == I!F",
        )],
        1,
        "A refused\n  7:30-7:31 E405\n  8:15-8:16 E407\nmodules=1 refused=1\n",
    ),
    // That context is the one where it begins.
    (
        &[(
            "A",
            "---- MODULE N ----\nCONSTANT c\nF == c\n====\nI == INSTANCE N\nCONSTANT c\nJ == INSTANCE N\nK == INSTANCE N WITH c <- 1\nU == J!F",
        )],
        1,
        "A refused\n  6:15-6:16 E407\nmodules=1 refused=1\n",
    ),
    // What it extends again is no parameter.
    (
        &[
            (
                "A",
                "EXTENDS B\n---- MODULE N ----\nEXTENDS B\nG == F\n====\nI == INSTANCE N WITH c <- 1",
            ),
            ("B", "CONSTANT c\nF == c"),
        ],
        1,
        "A refused\n  7:22-7:23 E405\nB accepted\nmodules=2 refused=1\n",
    ),
    // But it is one where it comes for the first time.
    (
        &[
            (
                "A",
                "---- MODULE N ----\nEXTENDS B\nG == F\n====\nI == INSTANCE N WITH c <- 1\nU == <<I!F, I!G>>",
            ),
            ("B", "CONSTANT c\nF == c"),
        ],
        0,
        "A accepted\nB accepted\nmodules=2 refused=0\n",
    ),
    // What can't be declared is none either.
    (
        &[(
            "A",
            "CONSTANT c\n---- MODULE N ----\nCONSTANT c\nF == c\n====\nI == INSTANCE N WITH c <- 1\nU == I!F",
        )],
        1,
        "A refused\n  4:10-4:11 E402\n  7:22-7:23 E405\nmodules=1 refused=1\n",
    ),
    // One nested module extends another, with its parameter.
    (
        &[(
            "A",
            "---- MODULE N ----\nCONSTANT c\nF == c\n====\n---- MODULE P ----\nEXTENDS N\n====\nI == INSTANCE P WITH c <- 1\nU == I!F",
        )],
        0,
        "A accepted\nmodules=1 refused=0\n",
    ),
    // A nested module with the name of a file.
    (
        &[
            (
                "A",
                "I == INSTANCE B\n---- MODULE B ----\nF == 1\n====\nJ == INSTANCE B\nU == <<I!G, I!F, J!F, J!G>>",
            ),
            ("B", "G == 1"),
        ],
        1,
        "A refused\n  7:15-7:16 E401\n  7:25-7:26 E401\nB accepted\nmodules=2 refused=1\n",
    ),
    // An instance of a nested module, used in other modules.
    (
        &[
            ("A", "EXTENDS B\nU == <<I!F, I!G, I!J!H>>"),
            (
                "B",
                "G == 1\n---- MODULE N ----\nF == G\nJ == INSTANCE D\n====\nI == INSTANCE N",
            ),
            ("C", "J == INSTANCE B\nU == J!I!F\nV == J!I!J!G"),
            ("D", "H == 1"),
        ],
        1,
        "A refused\n  3:15-3:16 E401\nB accepted\nC refused\n  4:12-4:13 E401\nD accepted\nmodules=4 refused=2\n",
    ),
    // Without a name: the same again, but for a parameter.
    (
        &[(
            "A",
            "---- MODULE N ----\nF == 1\n====\nINSTANCE N\nINSTANCE N\nU == F\n---- MODULE P ----\nCONSTANT c\nG == c\n====\nINSTANCE P WITH c <- 1\nINSTANCE P WITH c <- 1",
        )],
        1,
        "A refused\n  13:10-13:11 E404\nmodules=1 refused=1\n",
    ),
    // A nested module whose constant is there round it has no parameter, so its definitions are its own.
    (
        &[(
            "A",
            "CONSTANT c\n---- MODULE N ----\nF == c\n====\nINSTANCE N\nINSTANCE N\nU == F",
        )],
        0,
        "A accepted\nmodules=1 refused=0\n",
    ),
    // A clash with what is nested.
    (
        &[(
            "A",
            "---- MODULE N ----\nF == 1\n====\nF == 2\nINSTANCE N\nU == F",
        )],
        1,
        "A refused\n  6:10-6:11 E404\nmodules=1 refused=1\n",
    ),
    // Instances inside of a nested module.
    (
        &[
            (
                "A",
                "---- MODULE N ----\nI == INSTANCE B\n====\nJ == INSTANCE N\nU == <<J!I!F, I!F>>\n---- MODULE P ----\nEXTENDS N\nU1 == I!F\n====",
            ),
            ("B", "F == 1"),
        ],
        1,
        "A refused\n  6:15-6:16 E401\nB accepted\nmodules=2 refused=1\n",
    ),
    // Those round it are there.
    (
        &[
            (
                "A",
                "I == INSTANCE B\n---- MODULE N ----\nV == I!F\n---- MODULE P ----\nW == <<I!F, I!G>>\n====\n====",
            ),
            ("B", "F == 1"),
        ],
        1,
        "A refused\n  6:15-6:16 E401\nB accepted\nmodules=2 refused=1\n",
    ),
    // Instances of modules inside of nested ones.
    (
        &[(
            "A",
            "---- MODULE N ----\n---- MODULE P ----\nF == 1\n====\nI == INSTANCE P\n====\n---- MODULE Q ----\nEXTENDS N\nU == I!F\n====\nJ == INSTANCE Q\nV == <<J!I!F, J!U>>",
        )],
        0,
        "A accepted\nmodules=1 refused=0\n",
    ),
    // What is nested deeper can't be named.
    (
        &[(
            "A",
            "---- MODULE N ----\n---- MODULE P ----\n====\n====\nI == INSTANCE P\nU == Z",
        )],
        1,
        "A refused\n  6:15-6:16 E301\nmodules=1 refused=1\n",
    ),
    // Nor can what stands round the place, nor what comes further down.
    (
        &[(
            "A",
            "---- MODULE N ----\nI == INSTANCE A\nINSTANCE N\nU == LET J == INSTANCE A IN 1\nK == INSTANCE P\n====\n---- MODULE P ----\n====",
        )],
        1,
        "A refused\n  3:15-3:16 E302\n  4:10-4:11 E302\n  5:24-5:25 E302\n  6:15-6:16 E301\nmodules=1 refused=1\n",
    ),
    // The first of two of one name is meant.
    (
        &[(
            "A",
            "---- MODULE N ----\nF == 1\n====\n---- MODULE N ----\nG == 1\n====\nI == INSTANCE N\nU == <<I!F, I!G>>",
        )],
        1,
        "A refused\n  5:13-5:14 E402\n  9:15-9:16 E401\nmodules=1 refused=1\n",
    ),
];
