// What instances replace beside the whole reports on it.
use crate::tests::Case;

/// Parameters that are replaced, by what is written and by what is not.
pub static REPLACED: [Case; 20] = [
    // A constant and a variable are replaced.
    (
        &[
            (
                "A",
                "VARIABLE y\nI == INSTANCE B WITH c <- 1, x <- y\nU == I!F",
            ),
            ("B", "CONSTANT c\nVARIABLE x\nF == x = c"),
        ],
        0,
        "A accepted\nB accepted\nmodules=2 refused=0\n",
    ),
    // Left sides that are no parameters; all right sides are looked at.
    (
        &[
            ("A", "I == INSTANCE B WITH F <- 1, d <- Z, c <- 1, d <- 2"),
            ("B", "CONSTANT c\nF == c\nLOCAL d == c"),
        ],
        1,
        "A refused\n  2:22-2:23 E405\n  2:30-2:31 E405\n  2:35-2:36 E401\n  2:46-2:47 E405\nB accepted\nmodules=2 refused=1\n",
    ),
    // One that is replaced again, each time.
    (
        &[
            ("A", "I == INSTANCE B WITH c <- 1, c <- Z, c <- 2\nU == I!F"),
            ("B", "CONSTANT c\nF == c"),
        ],
        1,
        "A refused\n  2:30-2:31 E406\n  2:35-2:36 E401\n  2:38-2:39 E406\nB accepted\nmodules=2 refused=1\n",
    ),
    // Nothing is due for what is no parameter; for one that is replaced again, what it says.
    (
        &[
            (
                "A",
                "G(a) == a\nI == INSTANCE B WITH c <- 1, d <- G, c <- G, d <- {G}",
            ),
            ("B", "CONSTANT c\nF == c"),
        ],
        1,
        "A refused\n  3:30-3:31 E405\n  3:38-3:39 E406\n  3:43-3:44 E502\n  3:46-3:47 E405\n  3:52-3:53 E502\nB accepted\nmodules=2 refused=1\n",
    ),
    // Operators and symbols of as many places.
    (
        &[
            (
                "A",
                r"f(a) == a
g(a, b) == a
I == INSTANCE B WITH G <- f, ++ <- g
J == INSTANCE B WITH G <- g, ++ <- f
K == INSTANCE B WITH G <- 1, ++ <- \cup",
            ),
            ("B", "CONSTANT G(_), _ ++ _\nF == G(1) ++ 2"),
        ],
        1,
        "A refused\n  5:27-5:28 E502\n  5:36-5:37 E502\n  6:27-6:28 E502\nB accepted\nmodules=2 refused=1\n",
    ),
    // A symbol replaced by a name, and by one that takes other operands.
    (
        &[
            (
                "A",
                "EXTENDS Naturals\nf(a, b) == a\nI == INSTANCE B WITH + <- f, -. <- ..\nJ == INSTANCE B WITH + <- .., -. <- 1\nU == I!F",
            ),
            ("B", "CONSTANT _ + _, -. _\nF == 1 + (-2)"),
        ],
        1,
        "A refused\n  4:36-4:38 E502\n  5:37-5:38 E502\nB accepted\nmodules=2 refused=1\n",
    ),
    // A symbol that means nothing, and the minus.
    (
        &[
            (
                "A",
                r"f(a) == a
I == INSTANCE B WITH + <- .., -. <- f
J == INSTANCE B WITH + <- \cup, -. <- -.
K == INSTANCE B WITH + <- \cup, -. <- '",
            ),
            ("B", "CONSTANT _ + _, -. _\nF == 1 + (-2)"),
        ],
        1,
        "A refused\n  3:27-3:29 E401\n  4:39-4:41 E401\nB accepted\nmodules=2 refused=1\n",
    ),
    // Symbols that are no parameters, and synonyms.
    (
        &[
            (
                "A",
                r"f(a, b) == a
I == INSTANCE B WITH \circ <- f, \o <- f, + <- f, -. <- f, ^+ <- Z",
            ),
            (
                "B",
                r"CONSTANT _ \o _
F == 1 \o 2",
            ),
        ],
        1,
        "A refused\n  3:34-3:36 E406\n  3:43-3:44 E405\n  3:51-3:53 E405\n  3:60-3:62 E405\n  3:66-3:67 E401\nB accepted\nmodules=2 refused=1\n",
    ),
    // What can't be declared can't be replaced, and infix minus is no right side.
    (
        &[
            ("A", "INSTANCE C WITH => <- f"),
            ("B", "INSTANCE C WITH + <- -"),
            ("C", "CONSTANT _ + _"),
        ],
        1,
        "A refused\n  2:17-2:19 E202\nB refused\n  3:1-3:5 E202\nC accepted\nmodules=3 refused=2\n",
    ),
    // Parameters that are not named mean what their names mean there: symbols, definitions, parameters.
    (
        &[
            (
                "A",
                "EXTENDS Naturals\nCONSTANT G(_)\nc == 1\nVARIABLE x\nI == INSTANCE B\nU == I!F",
            ),
            ("B", "CONSTANTS c, G(_), _ + _\nVARIABLE x\nF == G(c + x)"),
            (
                "C",
                r"I(c, G(_), a, x) == INSTANCE B
J(c, G(_), x) == INSTANCE B WITH + <- \cup
U == I(1, SUBSET, 2, 3)!F",
            ),
        ],
        1,
        "A accepted\nB accepted\nC refused\n  2:30-2:31 E407\nmodules=3 refused=1\n",
    ),
    // Those that mean nothing are one fault, at the name of the module.
    (
        &[
            (
                "A",
                "I == INSTANCE B\nJ == INSTANCE B WITH d <- 1\nK == INSTANCE B WITH x <- 1, d <- 2, c <- 3",
            ),
            ("B", "CONSTANTS c, d\nVARIABLE x\nF == c"),
        ],
        1,
        "A refused\n  2:15-2:16 E407\n  3:15-3:16 E407\nB accepted\nmodules=2 refused=1\n",
    ),
    // Also beside a left side that is no parameter.
    (
        &[
            ("A", "I == INSTANCE B WITH d <- 1\nU == I!F"),
            ("B", "CONSTANT c\nF == c"),
        ],
        1,
        "A refused\n  2:15-2:16 E407\n  2:22-2:23 E405\nB accepted\nmodules=2 refused=1\n",
    ),
    // Nor does the name that is being defined mean anything.
    (
        &[
            (
                "A",
                "c == INSTANCE B\nU == c!F\nI == INSTANCE C WITH d <- 1",
            ),
            ("B", "CONSTANT c\nF == c"),
            ("C", "CONSTANT d\nF == d"),
        ],
        1,
        "A refused\n  2:15-2:16 E407\nB accepted\nC accepted\nmodules=3 refused=1\n",
    ),
    // Nor one that is declared further down.
    (
        &[
            ("A", "I == INSTANCE B\nCONSTANT c\nJ == INSTANCE B"),
            ("B", "CONSTANT c\nF == c"),
        ],
        1,
        "A refused\n  2:15-2:16 E407\nB accepted\nmodules=2 refused=1\n",
    ),
    // What is not named is of another arity, or an instance.
    (
        &[
            ("A", "c(a) == a\nI == INSTANCE B WITH G <- c"),
            ("B", "CONSTANTS c, G(_)\nF == G(c)"),
            ("C", "c == INSTANCE D\nG(a, b) == a\nI == INSTANCE B"),
            ("D", "F == 1"),
        ],
        1,
        "A refused\n  3:15-3:16 E502\nB accepted\nC refused\n  4:15-4:16 E502\nD accepted\nmodules=4 refused=2\n",
    ),
    // So it is with operators that take operators.
    (
        &[
            (
                "A",
                "G(H(_)) == H(1)\nI == INSTANCE B\nJ == INSTANCE B WITH G <- G",
            ),
            ("B", "CONSTANT G(_)\nF == G(1)"),
        ],
        1,
        "A refused\n  3:15-3:16 E502\n  4:27-4:28 E502\nB accepted\nmodules=2 refused=1\n",
    ),
    // A right side where an expression is due, and one in parentheses.
    (
        &[
            (
                "A",
                "f(a) == a\nI == INSTANCE B WITH c <- f, G <- (f)\nJ == INSTANCE B WITH c <- f(1), G <- f(1)",
            ),
            ("B", "CONSTANTS c, G(_)\nF == G(c)"),
        ],
        1,
        "A refused\n  3:27-3:28 E502\n  3:35-3:38 E502\n  3:36-3:37 E502\n  4:38-4:42 E502\nB accepted\nmodules=2 refused=1\n",
    ),
    // Right sides are looked at in the context of the place, with the parameters of the instance.
    (
        &[
            (
                "A",
                "I(x) == INSTANCE B WITH c <- x\nJ == INSTANCE B WITH c <- c\nK(c) == INSTANCE B WITH c <- c\nL == INSTANCE B WITH c <- @",
            ),
            ("B", "CONSTANT c\nF == c"),
        ],
        1,
        "A refused\n  3:27-3:28 E401\n  5:27-5:28 E503\nB accepted\nmodules=2 refused=1\n",
    ),
    // Parameters are extended; those of an instance are its own.
    (
        &[
            (
                "A",
                "I == INSTANCE B WITH c <- 1\nJ == INSTANCE B\nK == INSTANCE D WITH c <- 1\nU == K!I!F",
            ),
            ("B", "EXTENDS C"),
            ("C", "CONSTANT c\nF == c"),
            ("D", "I == INSTANCE B WITH c <- 1"),
        ],
        1,
        "A refused\n  3:15-3:16 E407\n  4:22-4:23 E405\nB accepted\nC accepted\nD accepted\nmodules=4 refused=1\n",
    ),
    // The built-in module that has a variable.
    (
        &[
            (
                "A",
                "VARIABLES now, t\nI == INSTANCE RealTime\nJ == INSTANCE RealTime WITH now <- t\nU == I!RTnow(t)",
            ),
            ("B", "I == INSTANCE RealTime"),
        ],
        1,
        "A accepted\nB refused\n  2:15-2:23 E407\nmodules=2 refused=1\n",
    ),
];
