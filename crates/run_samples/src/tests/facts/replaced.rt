// What stands for the parameters of an instance.
use crate::tests::Case;

/// Families in which parameters are replaced.
pub static REPLACED: [Case; 6] = [
    // A variable that a constant stands for is constant behind the instance.
    (
        &[
            ("A", "I == INSTANCE M WITH x <- 1\nU == I!G"),
            ("M", "VARIABLE x\nF == x\nG == F"),
        ],
        0,
        "A accepted
  2:22 x -> M 2:10 state
  3:6 I -> A 2:1 instance
  3:8 G -> M 4:1 constant
M accepted
  3:6 x -> M 2:10 state
  4:6 F -> M 3:1 state
modules=2 refused=0
",
    ),
    // One definition has a level for each instance.
    (
        &[
            (
                "A",
                "VARIABLE y
I == INSTANCE M WITH x <- 1
J == INSTANCE M WITH x <- y
U == <<I!F, J!F, J!G, I!H, J!H>>",
            ),
            ("M", "VARIABLE x\nF == <<x>>\nG == F\nH == x'"),
        ],
        0,
        "A accepted
  3:22 x -> M 2:10 state
  4:22 x -> M 2:10 state
  4:27 y -> A 2:10 state
  5:8 I -> A 3:1 instance
  5:10 F -> M 3:1 constant
  5:13 J -> A 4:1 instance
  5:15 F -> M 3:1 state
  5:18 J -> A 4:1 instance
  5:20 G -> M 4:1 state
  5:23 I -> A 3:1 instance
  5:25 H -> M 5:1 action
  5:28 J -> A 4:1 instance
  5:30 H -> M 5:1 action
M accepted
  3:8 x -> M 2:10 state
  4:6 F -> M 3:1 state
  5:6 x -> M 2:10 state
modules=2 refused=0
",
    ),
    // Constants, operators and variables are replaced.
    (
        &[
            (
                "A",
                "VARIABLE y
D(a) == {a}
I == INSTANCE M WITH c <- 1, C <- D, x <- y
U == I!F
V == I!G",
            ),
            (
                "M",
                "CONSTANT c, C(_)\nVARIABLE x\nF == <<c, C(x), x>>\nG == C(x')",
            ),
        ],
        0,
        "A accepted
  3:10 a -> A 3:3 constant
  4:22 c -> M 2:10 constant
  4:30 C -> M 2:13 constant
  4:35 D -> A 3:1 constant
  4:38 x -> M 3:10 state
  4:43 y -> A 2:10 state
  5:6 I -> A 4:1 instance
  5:8 F -> M 4:1 state
  6:6 I -> A 4:1 instance
  6:8 G -> M 5:1 action
M accepted
  4:8 c -> M 2:10 constant
  4:11 C -> M 2:13 state
  4:13 x -> M 3:10 state
  4:17 x -> M 3:10 state
  5:6 C -> M 2:13 action
  5:8 x -> M 3:10 state
modules=2 refused=0
",
    ),
    // A constant takes constants, a variable states; an operator is taken on constants.
    (
        &[
            (
                "A",
                "VARIABLE y
D(a) == <<a, y>>
I == INSTANCE M WITH c <- y, C <- D, x <- y'
J == INSTANCE M WITH c <- 1, C <- ', x <- []y",
            ),
            ("M", "CONSTANT c, C(_)\nVARIABLE x"),
        ],
        1,
        "A refused
  4:27-4:28 E603
  4:35-4:36 E603
  4:43-4:45 E603
  5:35-5:36 E603
  5:43-5:46 E603
M accepted
modules=2 refused=1
",
    ),
    // Where nothing is written, the fault stands at the name of the module, once.
    (
        &[
            (
                "A",
                "VARIABLES c, d
x == c'
I == INSTANCE M
J == INSTANCE M WITH c <- 1, d <- 1
K == INSTANCE M WITH d <- 1, x <- 1
L == INSTANCE M WITH c <- 1, d <- 1, x <- d",
            ),
            ("M", "CONSTANT c, d\nVARIABLE x"),
        ],
        1,
        "A refused
  4:15-4:16 E603
  5:15-5:16 E603
  6:15-6:16 E603
M accepted
modules=2 refused=1
",
    ),
    // What has no level is no fault of a replacement.
    (
        &[
            (
                "A",
                "VARIABLE y
I == INSTANCE M WITH c <- y'', x <- []y
J == INSTANCE M WITH c <- 1, x <- [](y')",
            ),
            ("M", "CONSTANT c\nVARIABLE x"),
        ],
        1,
        "A refused
  3:27-3:30 E601
  3:37-3:40 E603
  4:35-4:41 E601
M accepted
modules=2 refused=1
",
    ),
];

/// Families with replacements that are not written, and with what is assumed of replaced names.
pub static UNWRITTEN: [Case; 3] = [
    // Replacements that are not written, also by parameters of the instance, are no uses.
    (
        &[
            (
                "A",
                "CONSTANT x\nI(c) == INSTANCE M\nU == I(1)!F\nV == I(x)!F",
            ),
            ("M", "CONSTANT c\nVARIABLE x\nF == <<c, x>>"),
        ],
        0,
        "A accepted
  4:6 I -> A 3:1 instance
  4:11 F -> M 4:1 constant
  5:6 I -> A 3:1 instance
  5:8 x -> A 2:10 constant
  5:11 F -> M 4:1 constant
M accepted
  4:8 c -> M 2:10 constant
  4:11 x -> M 3:10 state
modules=2 refused=0
",
    ),
    // They are judged at each use, too.
    (
        &[
            (
                "A",
                "VARIABLES x, y
I(c) == INSTANCE M
U == I(1)!F
V == I(y)!F
W == I(x')!G",
            ),
            ("M", "CONSTANT c\nVARIABLE x\nF == <<c, x>>\nG == 1"),
        ],
        1,
        "A refused
  5:6-5:12 E601
  6:6-6:13 E601
M accepted
  4:8 c -> M 2:10 constant
  4:11 x -> M 3:10 state
modules=2 refused=1
",
    ),
    // Assumptions behind instances.
    (
        &[
            (
                "A",
                "I == INSTANCE M WITH x <- 1\nASSUME I!F = 1\nASSUME I!G",
            ),
            (
                "B",
                "VARIABLE y\nI(p) == INSTANCE M WITH x <- p\nASSUME I(1)!F\nASSUME I(y)!F",
            ),
            ("M", "VARIABLE x\nF == <<x>>\nG == x'"),
        ],
        1,
        "A refused
  4:8-4:11 E602
B refused
  5:8-5:14 E602
M accepted
  3:8 x -> M 2:10 state
  4:6 x -> M 2:10 state
modules=3 refused=2
",
    ),
];

/// Families in which symbols and operators replace.
pub static SYMBOLS: [Case; 5] = [
    // Symbols for declared operators.
    (
        &[
            (
                "A",
                r"EXTENDS Integers
I == INSTANCE M WITH ++ <- +, C <- -.
J == INSTANCE M WITH ++ <- \cup, C <- '
U == I!F
V == J!F",
            ),
            ("M", "CONSTANT _ ++ _, C(_)\nF == 1 ++ C(2)"),
        ],
        0,
        "A accepted
  3:22 ++ -> M 2:12 constant
  3:28 + -> Naturals 3:3 constant
  3:31 C -> M 2:18 constant
  3:36 -. -> Integers 4:1 constant
  4:22 ++ -> M 2:12 constant
  4:34 C -> M 2:18 constant
  5:6 I -> A 3:1 instance
  5:8 F -> M 3:1 constant
  6:6 J -> A 4:1 instance
  6:8 F -> M 3:1 action
M accepted
  3:8 ++ -> M 2:12 constant
  3:11 C -> M 2:18 constant
modules=2 refused=0
",
    ),
    // Operators for declared symbols.
    (
        &[
            (
                "A",
                "VARIABLE x
H(a) == <<a, x'>>
K(a, b) == IF a THEN b ELSE x
I == INSTANCE M WITH -. <- H, -- <- K
U == I!F
V == I!G(2)",
            ),
            ("M", "CONSTANT -. _, _ -- _\nF == -1\nG(a) == a -- 1"),
        ],
        0,
        "A accepted
  3:11 a -> A 3:3 constant
  3:14 x -> A 2:10 state
  4:15 a -> A 4:3 constant
  4:22 b -> A 4:6 constant
  4:29 x -> A 2:10 state
  5:22 -. -> M 2:10 constant
  5:28 H -> A 3:1 action
  5:31 -- -> M 2:18 constant
  5:37 K -> A 4:1 state
  6:6 I -> A 5:1 instance
  6:8 F -> M 3:1 action
  7:6 I -> A 5:1 instance
  7:8 G -> M 4:1 state
M accepted
  3:6 - -> M 2:10 constant
  4:9 a -> M 4:3 constant
  4:11 -- -> M 2:18 constant
modules=2 refused=0
",
    ),
    // A path for a declared operator.
    (
        &[
            (
                "A",
                "VARIABLE y
J == INSTANCE K WITH z <- y
I == INSTANCE M WITH C <- J!F
U == I!G",
            ),
            ("K", "VARIABLE z\nF(a) == <<a, z>>"),
            ("M", "CONSTANT C(_)\nG == C(1)"),
        ],
        0,
        "A accepted
  3:22 z -> K 2:10 state
  3:27 y -> A 2:10 state
  4:22 C -> M 2:10 constant
  4:27 J -> A 3:1 instance
  4:29 F -> K 3:1 state
  5:6 I -> A 4:1 instance
  5:8 G -> M 3:1 state
K accepted
  3:11 a -> K 3:3 constant
  3:14 z -> K 2:10 state
M accepted
  3:6 C -> M 2:10 constant
modules=3 refused=0
",
    ),
    // Definitions that replace are those of the module in which they replace.
    (
        &[
            (
                "A",
                "VARIABLE y
I == INSTANCE B WITH z <- 1
O == INSTANCE B WITH z <- y
U == <<I!J!F, I!L!G, O!J!F, O!L!G>>",
            ),
            (
                "B",
                "VARIABLE z
g == <<z>>
D(a) == {a, z}
J == INSTANCE M WITH x <- g
L == INSTANCE K WITH C <- D",
            ),
            ("K", "CONSTANT C(_)\nG == C(1)"),
            ("M", "VARIABLE x\nF == {x}"),
        ],
        0,
        "A accepted
  3:22 z -> B 2:10 state
  4:22 z -> B 2:10 state
  4:27 y -> A 2:10 state
  5:8 I -> A 3:1 instance
  5:10 J -> B 5:1 instance
  5:12 F -> M 3:1 constant
  5:15 I -> A 3:1 instance
  5:17 L -> B 6:1 instance
  5:19 G -> K 3:1 constant
  5:22 O -> A 4:1 instance
  5:24 J -> B 5:1 instance
  5:26 F -> M 3:1 state
  5:29 O -> A 4:1 instance
  5:31 L -> B 6:1 instance
  5:33 G -> K 3:1 state
B accepted
  3:8 z -> B 2:10 state
  4:10 a -> B 4:3 constant
  4:13 z -> B 2:10 state
  5:22 x -> M 2:10 state
  5:27 g -> B 3:1 state
  6:22 C -> K 2:10 constant
  6:27 D -> B 4:1 state
K accepted
  3:6 C -> K 2:10 constant
M accepted
  3:7 x -> M 2:10 state
modules=4 refused=0
",
    ),
    // Replacements that are not written, by operators and symbols.
    (
        &[
            (
                "A",
                "EXTENDS Naturals
VARIABLE x
I(G(_)) == INSTANCE M
K(a) == <<a, x>>
U == I(K)!F
V == I(')!F
W == I(K)!H(x')",
            ),
            ("M", "CONSTANT G(_), _ + _\nF == G(1)\nH(a) == a + 1"),
        ],
        0,
        "A accepted
  5:11 a -> A 5:3 constant
  5:14 x -> A 3:10 state
  6:6 I -> A 4:1 instance
  6:8 K -> A 5:1 state
  6:11 F -> M 3:1 state
  7:6 I -> A 4:1 instance
  7:11 F -> M 3:1 action
  8:6 I -> A 4:1 instance
  8:8 K -> A 5:1 state
  8:11 H -> M 4:1 action
  8:13 x -> A 3:10 state
M accepted
  3:6 G -> M 2:10 constant
  4:9 a -> M 4:3 constant
  4:11 + -> M 2:18 constant
modules=2 refused=0
",
    ),
];
