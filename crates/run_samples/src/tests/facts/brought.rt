// Instances without a name, in LET, and of nested and built-in modules.
use crate::tests::Case;

/// Families with instances without a name, and in LET.
pub static BROUGHT: [Case; 6] = [
    // An instance without a name.
    (
        &[
            (
                "A",
                "VARIABLE y
INSTANCE M WITH x <- y
LOCAL INSTANCE K WITH z <- 1
U == <<F, G>>",
            ),
            ("K", "VARIABLE z\nG == {z}"),
            ("M", "VARIABLE x\nF == <<x>>"),
        ],
        0,
        "A accepted
  3:17 x -> M 2:10 state
  3:22 y -> A 2:10 state
  4:23 z -> K 2:10 state
  5:8 F -> M 3:1 state
  5:11 G -> K 3:1 constant
K accepted
  3:7 z -> K 2:10 state
M accepted
  3:8 x -> M 2:10 state
modules=3 refused=0
",
    ),
    // Its replacements are judged once, where they stand.
    (
        &[
            (
                "A",
                "VARIABLE y\nINSTANCE M WITH x <- y'\nU == F\nV == G\nW == H",
            ),
            ("M", "VARIABLE x\nF == x\nG == x'\nH == 1"),
        ],
        1,
        "A refused
  3:22-3:24 E603
  5:6-5:7 E601
M accepted
  3:6 x -> M 2:10 state
  4:6 x -> M 2:10 state
modules=2 refused=1
",
    ),
    // What it brings goes along with EXTENDS and behind a name.
    (
        &[
            (
                "A",
                "EXTENDS B\nI == INSTANCE B WITH y <- 1\nU == <<F, I!F>>",
            ),
            ("B", "VARIABLE y\nINSTANCE M WITH x <- y"),
            ("M", "VARIABLE x\nF == <<x>>"),
        ],
        0,
        "A accepted
  3:22 y -> B 2:10 state
  4:8 F -> M 3:1 state
  4:11 I -> A 3:1 instance
  4:13 F -> M 3:1 constant
B accepted
  3:17 x -> M 2:10 state
  3:22 y -> B 2:10 state
M accepted
  3:8 x -> M 2:10 state
modules=3 refused=0
",
    ),
    // An instance that EXTENDS brings.
    (
        &[
            ("A", "EXTENDS B\nU == I(2)!F\nV == I(z)!F"),
            ("B", "VARIABLE z\nI(p) == INSTANCE M WITH x <- p"),
            ("M", "VARIABLE x\nF == <<x>>"),
        ],
        0,
        "A accepted
  3:6 I -> B 3:1 instance
  3:11 F -> M 3:1 constant
  4:6 I -> B 3:1 instance
  4:8 z -> B 2:10 state
  4:11 F -> M 3:1 state
B accepted
  3:25 x -> M 2:10 state
  3:30 p -> B 3:3 constant
M accepted
  3:8 x -> M 2:10 state
modules=3 refused=0
",
    ),
    // Instances in LET replace by what stands round them.
    (
        &[
            (
                "A",
                "VARIABLE y
H(a) == LET I == INSTANCE M WITH x <- a IN I!F
U == H(y)
V == LET J(b) == INSTANCE M WITH x <- b IN <<J(1)!F, J(y)!F>>",
            ),
            ("M", "VARIABLE x\nF == <<x>>"),
        ],
        0,
        "A accepted
  3:34 x -> M 2:10 state
  3:39 a -> A 3:3 constant
  3:44 I -> A 3:13 instance
  3:46 F -> M 3:1 constant
  4:6 H -> A 3:1 state
  4:8 y -> A 2:10 state
  5:34 x -> M 2:10 state
  5:39 b -> A 5:12 constant
  5:46 J -> A 5:10 instance
  5:51 F -> M 3:1 constant
  5:54 J -> A 5:10 instance
  5:56 y -> A 2:10 state
  5:59 F -> M 3:1 state
M accepted
  3:8 x -> M 2:10 state
modules=2 refused=0
",
    ),
    // They are judged where they are used.
    (
        &[
            (
                "A",
                "VARIABLE y
H(a) == LET I == INSTANCE M WITH x <- a IN I!F
U == H(y')
V(a) == LET I == INSTANCE M WITH x <- a IN 1
W == V(y')",
            ),
            ("M", "VARIABLE x\nF == 1"),
        ],
        1,
        "A refused\n  4:6-4:11 E601\nM accepted\nmodules=2 refused=1\n",
    ),
];

/// Families with instances of nested and of built-in modules.
pub static BUILT_IN: [Case; 4] = [
    // A nested module behind an instance.
    (
        &[
            (
                "A",
                "VARIABLE y
I == INSTANCE B WITH z <- 1
J == INSTANCE B WITH z <- y
U == <<I!K!G, J!K!G>>",
            ),
            (
                "B",
                "VARIABLE z
---- MODULE N ----
VARIABLE w
G == <<w, z>>
====
K == INSTANCE N WITH w <- 1",
            ),
        ],
        0,
        "A accepted
  3:22 z -> B 2:10 state
  4:22 z -> B 2:10 state
  4:27 y -> A 2:10 state
  5:8 I -> A 3:1 instance
  5:10 K -> B 7:1 instance
  5:12 G -> B 5:1 constant
  5:15 J -> A 4:1 instance
  5:17 K -> B 7:1 instance
  5:19 G -> B 5:1 state
B accepted
  5:8 w -> B 4:10 state
  5:11 z -> B 2:10 state
  7:22 w -> B 4:10 state
modules=2 refused=0
",
    ),
    // Instances of built-in modules.
    (
        &[(
            "A",
            "VARIABLE x
N == INSTANCE Naturals
I == INSTANCE RealTime WITH now <- x
U == N!Nat
V == I!RTnow(U)",
        )],
        0,
        "A accepted
  4:29 now -> RealTime 3:10 state
  4:36 x -> A 2:10 state
  5:6 N -> A 3:1 instance
  5:8 Nat -> Naturals 2:1 constant
  6:6 I -> A 4:1 instance
  6:8 RTnow -> RealTime 11:1 temporal
  6:14 U -> A 5:1 constant
modules=1 refused=0
",
    ),
    // Operators of built-in modules, brought without a name.
    (
        &[
            ("A", "LOCAL INSTANCE Integers\nU == -1 + 2"),
            ("B", "EXTENDS A, Naturals\nV == U + 1"),
        ],
        0,
        "A accepted
  3:6 - -> Integers 4:1 constant
  3:9 + -> Naturals 3:3 constant
B accepted
  3:6 U -> A 3:1 constant
  3:8 + -> Naturals 3:3 constant
modules=2 refused=0
",
    ),
    // Steps that may stutter, behind an instance.
    (
        &[
            (
                "A",
                r"VARIABLE y
I == INSTANCE M WITH x <- y
U == []I!N
V == U /\ <>I!D",
            ),
            ("M", "VARIABLE x\nN == [x']_x\nD == <<N>>_x"),
        ],
        0,
        "A accepted
  3:22 x -> M 2:10 state
  3:27 y -> A 2:10 state
  4:8 I -> A 3:1 instance
  4:10 N -> M 3:1 action
  5:6 U -> A 4:1 temporal
  5:13 I -> A 3:1 instance
  5:15 D -> M 4:1 action
M accepted
  3:7 x -> M 2:10 state
  3:11 x -> M 2:10 state
  4:8 N -> M 3:1 action
  4:12 x -> M 2:10 state
modules=2 refused=0
",
    ),
];

/// Families in which what is brought is brought again.
pub static AGAIN: [Case; 4] = [
    // An instance that one without a name brings is judged where it is used.
    (
        &[
            ("A", "VARIABLE z\nINSTANCE B WITH y <- z\nU == J!F\nV == H"),
            ("B", "VARIABLE y\nJ == INSTANCE M WITH x <- y\nH == J!F"),
            ("C", "VARIABLE z\nINSTANCE B WITH y <- z'\nU == J!F\nV == H"),
            ("M", "VARIABLE x\nF == <<x>>"),
        ],
        1,
        "A accepted
  3:17 y -> B 2:10 state
  3:22 z -> A 2:10 state
  4:6 J -> B 3:1 instance
  4:8 F -> M 3:1 state
  5:6 H -> B 4:1 state
B accepted
  3:22 x -> M 2:10 state
  3:27 y -> B 2:10 state
  4:6 J -> B 3:1 instance
  4:8 F -> M 3:1 state
C refused
  3:22-3:24 E603
  4:6-4:9 E601
  5:6-5:7 E601
M accepted
  3:8 x -> M 2:10 state
modules=4 refused=1
",
    ),
    // What is handed on may stand behind an instance of LET.
    (
        &[
            (
                "A",
                "VARIABLE y
E(G(_)) == G(1)
H(x) == LET I(p) == INSTANCE M WITH v <- <<x, p>> IN E(I(1)!F)
U == H(y)
V == H(2)",
            ),
            (
                "C",
                "VARIABLE y
E(G(_)) == G(1)
H(x) == LET I(p) == INSTANCE M WITH v <- <<x, p>> IN E(I(1)!F)
U == H(y')",
            ),
            ("M", "VARIABLE v\nF(a) == <<a, v>>"),
        ],
        1,
        "A accepted
  3:12 G -> A 3:3 constant
  4:37 v -> M 2:10 state
  4:44 x -> A 4:3 constant
  4:47 p -> A 4:15 constant
  4:54 E -> A 3:1 constant
  4:56 I -> A 4:13 instance
  4:61 F -> M 3:1 constant
  5:6 H -> A 4:1 state
  5:8 y -> A 2:10 state
  6:6 H -> A 4:1 constant
C refused
  5:6-5:11 E601
M accepted
  3:11 a -> M 3:3 constant
  3:14 v -> M 2:10 state
modules=3 refused=1
",
    ),
    // An instance without a name in a nested module.
    (
        &[
            (
                "A",
                "VARIABLE y
---- MODULE N ----
INSTANCE M WITH x <- y
G == F
====
I == INSTANCE N
U == I!G
V == I!F",
            ),
            ("M", "VARIABLE x\nF == <<x>>"),
        ],
        0,
        "A accepted
  4:17 x -> M 2:10 state
  4:22 y -> A 2:10 state
  5:6 F -> M 3:1 state
  8:6 I -> A 7:1 instance
  8:8 G -> A 5:1 state
  9:6 I -> A 7:1 instance
  9:8 F -> M 3:1 state
M accepted
  3:8 x -> M 2:10 state
modules=2 refused=0
",
    ),
    // LET in a definition that is brought.
    (
        &[
            (
                "A",
                "VARIABLE y\nINSTANCE M WITH x <- y\nU == F(1)\nV == F(y')",
            ),
            ("M", "VARIABLE x\nF(a) == LET b == <<a, x>> IN {b}"),
        ],
        0,
        "A accepted
  3:17 x -> M 2:10 state
  3:22 y -> A 2:10 state
  4:6 F -> M 3:1 state
  5:6 F -> M 3:1 action
  5:8 y -> A 2:10 state
M accepted
  3:20 a -> M 3:3 constant
  3:23 x -> M 2:10 state
  3:31 b -> M 3:13 state
modules=2 refused=0
",
    ),
];
