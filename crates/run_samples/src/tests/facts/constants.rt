// Instances of constant modules, whose constants take actions.
use crate::tests::Case;

/// Families in which states and actions replace constants.
pub static CONSTANTS: [Case; 4] = [
    // States and actions for constants.
    (
        &[
            (
                "A",
                "VARIABLE y
I == INSTANCE M WITH c <- y
J == INSTANCE M WITH c <- y'
INSTANCE M WITH c <- y
U == <<I!F, J!F, F>>",
            ),
            ("M", "CONSTANT c\nF == {c}"),
        ],
        0,
        "A accepted
  3:22 c -> M 2:10 constant
  3:27 y -> A 2:10 state
  4:22 c -> M 2:10 constant
  4:27 y -> A 2:10 state
  5:17 c -> M 2:10 constant
  5:22 y -> A 2:10 state
  6:8 I -> A 3:1 instance
  6:10 F -> M 3:1 state
  6:13 J -> A 4:1 instance
  6:15 F -> M 3:1 action
  6:18 F -> M 3:1 state
M accepted
  3:7 c -> M 2:10 constant
modules=2 refused=0
",
    ),
    // No temporal formulas for constants.
    (
        &[
            (
                "A",
                "VARIABLE y
I == INSTANCE M WITH c <- []y
J(p) == INSTANCE M WITH c <- p
U == J(y')!F
V == J([]y)!F
INSTANCE M WITH c <- WF_y(y')",
            ),
            ("M", "CONSTANT c\nF == 1"),
        ],
        1,
        "A refused
  3:27-3:30 E603
  6:6-6:14 E601
  7:22-7:30 E603
M accepted
modules=2 refused=1
",
    ),
    // An action for a constant is not primed.
    (
        &[
            (
                "A",
                "VARIABLE y
I == INSTANCE M WITH c <- y
J == INSTANCE M WITH c <- y'
U == I!F'
V == J!F'
W == I!G(y')
X == I!G(1)'
Y == J!G(1)'",
            ),
            ("M", "CONSTANT c\nF == {c}\nG(a) == <<a, c>>"),
        ],
        1,
        "A refused
  6:6-6:10 E601
  9:6-9:13 E601
M accepted
  3:7 c -> M 2:10 constant
  4:11 a -> M 4:3 constant
  4:14 c -> M 2:10 constant
modules=2 refused=1
",
    ),
    // A step that may stutter for a constant stays one.
    (
        &[
            (
                "A",
                "VARIABLE y
I == INSTANCE M WITH c <- [y']_y
J == INSTANCE M WITH c <- <<y'>>_y
U == []I!F
V == <>J!F",
            ),
            (
                "B",
                "VARIABLE y
I == INSTANCE M WITH c <- [y']_y
J == INSTANCE M WITH c <- <<y'>>_y
U == []J!F
V == <>I!F
W == []I!G",
            ),
            ("M", "CONSTANT c\nF == c\nG == ~c"),
        ],
        1,
        "A accepted
  3:22 c -> M 2:10 constant
  3:28 y -> A 2:10 state
  3:32 y -> A 2:10 state
  4:22 c -> M 2:10 constant
  4:29 y -> A 2:10 state
  4:34 y -> A 2:10 state
  5:8 I -> A 3:1 instance
  5:10 F -> M 3:1 action
  6:8 J -> A 4:1 instance
  6:10 F -> M 3:1 action
B refused
  5:6-5:11 E601
  6:6-6:11 E601
  7:6-7:11 E601
M accepted
  3:6 c -> M 2:10 constant
  4:7 c -> M 2:10 constant
modules=3 refused=1
",
    ),
];

/// Families in which operators replace those of constant modules.
pub static OPERATORS: [Case; 3] = [
    // What stands for a declared operator may take less at a use.
    (
        &[
            (
                "A",
                "VARIABLE x
I == INSTANCE M WITH C <- '
J(G(_)) == INSTANCE M WITH C <- G
K(a) == <<a, x>>
U == I!F(x)
V == I!F(x')
W == J(K)!F(x')
X == J(')!F(x)
Y == J(UNCHANGED)!F(x')
Z == J([])!F(1)",
            ),
            ("M", "CONSTANT C(_)\nF(a) == C(a)"),
        ],
        1,
        "A refused
  7:6-7:13 E601
  10:6-10:24 E601
  11:6-11:16 E601
M accepted
  3:9 C -> M 2:10 constant
  3:11 a -> M 3:3 constant
modules=2 refused=1
",
    ),
    // Parameters that are operators, and what they are handed.
    (
        &[
            (
                "A",
                "VARIABLE x
I(G(_)) == INSTANCE M WITH C <- G
K(a) == <<a, x>>
U == I(K)!F(1)
V == I(')!F(x)
W == I(DOMAIN)!F(2)",
            ),
            ("M", "CONSTANT C(_)\nF(a) == C(a)"),
        ],
        0,
        "A accepted
  3:28 C -> M 2:10 constant
  3:33 G -> A 3:3 constant
  4:11 a -> A 4:3 constant
  4:14 x -> A 2:10 state
  5:6 I -> A 3:1 instance
  5:8 K -> A 4:1 state
  5:11 F -> M 3:1 state
  6:6 I -> A 3:1 instance
  6:11 F -> M 3:1 action
  6:13 x -> A 2:10 state
  7:6 I -> A 3:1 instance
  7:16 F -> M 3:1 constant
M accepted
  3:9 C -> M 2:10 constant
  3:11 a -> M 3:3 constant
modules=2 refused=0
",
    ),
    // An operator is an action at most, on constants.
    (
        &[
            (
                "A",
                r"VARIABLE y
D(a) == <<a, y'>>
E(a) == []a
I == INSTANCE M WITH C <- D, ++ <- \cdot
J == INSTANCE M WITH C <- E, ++ <- ~>",
            ),
            ("M", "CONSTANT C(_), _ ++ _"),
        ],
        1,
        "A refused\n  6:27-6:28 E603\n  6:36-6:38 E603\nM accepted\nmodules=2 refused=1\n",
    ),
];

/// Families with modules that are constant, or are not.
pub static MODULES: [Case; 6] = [
    // A module is not constant by what it extends, instantiates, hands on, or has in LET.
    (
        &[
            (
                "A",
                "VARIABLE y
I == INSTANCE B WITH c <- y
J == INSTANCE D WITH c <- y
K == INSTANCE E WITH c <- y
L == INSTANCE P WITH c <- y",
            ),
            ("B", "EXTENDS N\nCONSTANT c"),
            ("D", "CONSTANT c\nI == INSTANCE N"),
            ("E", "CONSTANT c\nG(H(_)) == H(c)\nK == G(')"),
            ("N", "F == ENABLED TRUE"),
            ("P", "CONSTANT c\nU == LET V == c' IN 1"),
        ],
        1,
        "A refused
  3:27-3:28 E603
  4:27-4:28 E603
  5:27-5:28 E603
  6:27-6:28 E603
B accepted
D accepted
E accepted
  3:12 H -> E 3:3 constant
  3:14 c -> E 2:10 constant
  4:6 G -> E 3:1 action
N accepted
P accepted
  3:15 c -> P 2:10 constant
modules=6 refused=1
",
    ),
    // A nested module is not constant.
    (
        &[(
            "A",
            "VARIABLE y
---- MODULE N ----
CONSTANT c
F == c
====
I == INSTANCE N WITH c <- y
J == INSTANCE N WITH c <- 1",
        )],
        1,
        "A refused\n  7:27-7:28 E603\nmodules=1 refused=1\n",
    ),
    // A module round one is constant all the same.
    (
        &[
            ("A", "VARIABLE y\nI == INSTANCE M WITH c <- y\nU == I!F"),
            (
                "M",
                "CONSTANT c\n---- MODULE N ----\nVARIABLE z\nG == z'\n====\nF == c",
            ),
        ],
        0,
        "A accepted
  3:22 c -> M 2:10 constant
  3:27 y -> A 2:10 state
  4:6 I -> A 3:1 instance
  4:8 F -> M 7:1 state
M accepted
  5:6 z -> M 4:10 state
  7:6 c -> M 2:10 constant
modules=2 refused=0
",
    ),
    // It is not, where it has an instance of the nested one.
    (
        &[
            ("A", "VARIABLE y\nI == INSTANCE M WITH c <- y\nU == I!F"),
            (
                "M",
                "CONSTANT c
---- MODULE N ----
VARIABLE z
G == z
====
F == LET J == INSTANCE N WITH z <- c IN J!G",
            ),
        ],
        1,
        "A refused
  3:27-3:28 E603
  4:6-4:9 E601
M accepted
  5:6 z -> M 4:10 state
  7:31 z -> M 4:10 state
  7:36 c -> M 2:10 constant
  7:41 J -> M 7:10 instance
  7:43 G -> M 5:1 constant
modules=2 refused=1
",
    ),
    // Operators of constant modules, brought with states for their constants.
    (
        &[
            (
                "A",
                "VARIABLE y
INSTANCE M WITH c <- y'
I(p) == INSTANCE M WITH c <- p
U == F(1)
V == I(y')!F(y)
W == I(y)!F(2)'",
            ),
            ("M", "CONSTANT c\nF(a) == <<a, c>>"),
        ],
        0,
        "A accepted
  3:17 c -> M 2:10 constant
  3:22 y -> A 2:10 state
  4:25 c -> M 2:10 constant
  4:30 p -> A 4:3 constant
  5:6 F -> M 3:1 action
  6:6 I -> A 4:1 instance
  6:8 y -> A 2:10 state
  6:12 F -> M 3:1 action
  6:14 y -> A 2:10 state
  7:6 I -> A 4:1 instance
  7:8 y -> A 2:10 state
  7:11 F -> M 3:1 state
M accepted
  3:11 a -> M 3:3 constant
  3:14 c -> M 2:10 constant
modules=2 refused=0
",
    ),
    // What a module assumes is not judged with what replaces its constants.
    (
        &[
            ("A", "VARIABLE y\nI == INSTANCE M WITH c <- y"),
            ("M", "CONSTANT c\nASSUME c = 1"),
        ],
        0,
        "A accepted
  3:22 c -> M 2:10 constant
  3:27 y -> A 2:10 state
M accepted
  3:8 c -> M 2:10 constant
modules=2 refused=0
",
    ),
];
