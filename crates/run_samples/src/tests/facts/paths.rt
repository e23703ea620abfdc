// What stands behind several instances, and behind those with parameters.
use crate::tests::Case;

/// Families with paths, and with what is handed to their instances.
pub static PATHS: [Case; 5] = [
    // What stands below a box may be a path.
    (
        &[
            (
                "A",
                "VARIABLE x
I == INSTANCE M
U == [x']_I!v
V == WF_I!v(I!N)
W == []U => V",
            ),
            ("M", "VARIABLE x\nv == <<x>>\nN == v'"),
        ],
        0,
        "A accepted
  4:7 x -> A 2:10 state
  4:11 I -> A 3:1 instance
  4:13 v -> M 3:1 state
  5:9 I -> A 3:1 instance
  5:11 v -> M 3:1 state
  5:13 I -> A 3:1 instance
  5:15 N -> M 4:1 action
  6:8 U -> A 4:1 action
  6:13 V -> A 5:1 temporal
M accepted
  3:8 x -> M 2:10 state
  4:6 v -> M 3:1 state
modules=2 refused=0
",
    ),
    // Levels go through two instances.
    (
        &[
            (
                "A",
                "VARIABLE z
I == INSTANCE B WITH y <- z
K == INSTANCE B WITH y <- 1
U == I!J!F
V == K!J!F",
            ),
            ("B", "VARIABLE y\nJ == INSTANCE M WITH x <- <<y>>"),
            ("M", "VARIABLE x\nF == {x}"),
        ],
        0,
        "A accepted
  3:22 y -> B 2:10 state
  3:27 z -> A 2:10 state
  4:22 y -> B 2:10 state
  5:6 I -> A 3:1 instance
  5:8 J -> B 3:1 instance
  5:10 F -> M 3:1 state
  6:6 K -> A 4:1 instance
  6:8 J -> B 3:1 instance
  6:10 F -> M 3:1 constant
B accepted
  3:22 x -> M 2:10 state
  3:29 y -> B 2:10 state
M accepted
  3:7 x -> M 2:10 state
modules=3 refused=0
",
    ),
    // What is handed to an inner instance has to be what it replaces there.
    (
        &[
            (
                "A",
                "VARIABLE y
I == INSTANCE B
U == I!J(y)!F
V == I!J(y')!F
W == I!J(y)!F'
X == I!J([]y)!F",
            ),
            ("B", "J(p) == INSTANCE M WITH x <- p"),
            ("M", "VARIABLE x\nF == x'"),
        ],
        1,
        "A refused
  5:6-5:15 E601
  6:6-6:15 E601
  7:6-7:16 E601
B accepted
  2:25 x -> M 2:10 state
  2:30 p -> B 2:3 constant
M accepted
  3:6 x -> M 2:10 state
modules=3 refused=1
",
    ),
    // Instances with parameters; what is handed to one that nothing takes is free.
    (
        &[
            (
                "A",
                "VARIABLE y
I(p, q) == INSTANCE M WITH x <- p
U == I(y, []y)!F(y')
V == I(1, 2)!F(3)
W == I(y, 1)!G",
            ),
            ("M", "VARIABLE x\nF(a) == <<a, x>>\nG == 1"),
        ],
        0,
        "A accepted
  3:28 x -> M 2:10 state
  3:33 p -> A 3:3 constant
  4:6 I -> A 3:1 instance
  4:8 y -> A 2:10 state
  4:13 y -> A 2:10 state
  4:16 F -> M 3:1 action
  4:18 y -> A 2:10 state
  5:6 I -> A 3:1 instance
  5:14 F -> M 3:1 constant
  6:6 I -> A 3:1 instance
  6:8 y -> A 2:10 state
  6:14 G -> M 4:1 constant
M accepted
  3:11 a -> M 3:3 constant
  3:14 x -> M 2:10 state
modules=2 refused=0
",
    ),
    // Replacements are judged also where the parameter is not used behind the instance.
    (
        &[
            (
                "A",
                "VARIABLE y
I(p) == INSTANCE M WITH x <- p
U == I(y')!G
V == I([]y)!G
W == I(y)!G",
            ),
            ("M", "VARIABLE x\nG == 1"),
        ],
        1,
        "A refused\n  4:6-4:13 E601\n  5:6-5:14 E601\nM accepted\nmodules=2 refused=1\n",
    ),
];

/// Families in which operators are handed to instances, or stand behind them.
pub static HANDED: [Case; 5] = [
    // An action does not stand for a variable.
    (
        &[
            (
                "A",
                "VARIABLE y\nI(p) == INSTANCE M WITH x <- p\nU == I(y')!Op",
            ),
            ("M", "VARIABLE x\nOp == x' = 1"),
        ],
        1,
        "A refused
  4:6-4:14 E601
M accepted
  3:7 x -> M 2:10 state
modules=2 refused=1
",
    ),
    // A parameter that is an operator is taken on constants.
    (
        &[
            (
                "A",
                "VARIABLE x
I(G(_)) == INSTANCE M WITH C <- G
H(a) == {a}
K(a) == <<a, x>>
U == I(H)!F
V == I(K)!F
W == I(')!F",
            ),
            ("M", "CONSTANT C(_)\nVARIABLE x\nF == C(x)"),
        ],
        1,
        "A refused
  7:6-7:12 E601
  8:6-8:12 E601
M accepted
  4:6 C -> M 2:10 state
  4:8 x -> M 3:10 state
modules=2 refused=1
",
    ),
    // What stands behind an instance is handed on with what stands before it.
    (
        &[
            (
                "A",
                "VARIABLE y
I(p) == INSTANCE M WITH x <- p
E(G(_)) == G(1)
U == E(I(y)!F)
V == E(I(1)!F)
W(q) == E(I(q)!F)
X == W(y)",
            ),
            ("M", "VARIABLE x\nF(a) == <<a, x>>"),
        ],
        0,
        "A accepted
  3:25 x -> M 2:10 state
  3:30 p -> A 3:3 constant
  4:12 G -> A 4:3 constant
  5:6 E -> A 4:1 state
  5:8 I -> A 3:1 instance
  5:10 y -> A 2:10 state
  5:13 F -> M 3:1 state
  6:6 E -> A 4:1 constant
  6:8 I -> A 3:1 instance
  6:13 F -> M 3:1 constant
  7:9 E -> A 4:1 constant
  7:11 I -> A 3:1 instance
  7:13 q -> A 7:3 constant
  7:16 F -> M 3:1 constant
  8:6 W -> A 7:1 state
  8:8 y -> A 2:10 state
M accepted
  3:11 a -> M 3:3 constant
  3:14 x -> M 2:10 state
modules=2 refused=0
",
    ),
    // It is judged where it is applied, and where it is written.
    (
        &[
            (
                "A",
                "VARIABLE y
I(p) == INSTANCE M WITH x <- p
E(G(_)) == G(1)
O(G(_)) == 1
U == E(I(y')!F)
W(q) == E(I(q)!F)
X == W(y')
Y(q) == O(I(q)!F)
Z == Y(y')",
            ),
            ("M", "VARIABLE x\nF(a) == <<a, x>>"),
        ],
        1,
        "A refused
  6:8-6:15 E601
  8:6-8:11 E601
M accepted
  3:11 a -> M 3:3 constant
  3:14 x -> M 2:10 state
modules=2 refused=1
",
    ),
    // Operators behind an instance, and operators that they are handed.
    (
        &[
            (
                "A",
                "VARIABLE y
I == INSTANCE M WITH x <- 1
K(a) == ENABLED a
U == I!F(y)
V == I!G(K)
W == I!G(I!F)
X == V'",
            ),
            ("M", "VARIABLE x\nF(a) == <<a, x>>\nG(H(_)) == H(x')"),
        ],
        0,
        "A accepted
  3:22 x -> M 2:10 state
  4:17 a -> A 4:3 constant
  5:6 I -> A 3:1 instance
  5:8 F -> M 3:1 state
  5:10 y -> A 2:10 state
  6:6 I -> A 3:1 instance
  6:8 G -> M 4:1 state
  6:10 K -> A 4:1 state
  7:6 I -> A 3:1 instance
  7:8 G -> M 4:1 action
  7:10 I -> A 3:1 instance
  7:12 F -> M 3:1 constant
  8:6 V -> A 6:1 state
M accepted
  3:11 a -> M 3:3 constant
  3:14 x -> M 2:10 state
  4:12 H -> M 4:3 action
  4:14 x -> M 2:10 state
modules=2 refused=0
",
    ),
];

/// Families with instances behind instances.
pub static INNER: [Case; 3] = [
    // Operators of LET behind an instance have what stands round them.
    (
        &[
            (
                "A",
                "VARIABLE y
I == INSTANCE M WITH x <- 1
U == I!H(y)
V == I!H(2)
W == U'",
            ),
            (
                "M",
                "VARIABLE x\nF(G(_)) == G(1)\nH(a) == LET K(n) == <<a, n, x>> IN F(K)",
            ),
        ],
        0,
        "A accepted
  3:22 x -> M 2:10 state
  4:6 I -> A 3:1 instance
  4:8 H -> M 4:1 state
  4:10 y -> A 2:10 state
  5:6 I -> A 3:1 instance
  5:8 H -> M 4:1 constant
  6:6 U -> A 4:1 state
M accepted
  3:12 G -> M 3:3 constant
  4:23 a -> M 4:3 constant
  4:26 n -> M 4:15 constant
  4:29 x -> M 2:10 state
  4:36 F -> M 3:1 state
  4:38 K -> M 4:13 state
modules=2 refused=0
",
    ),
    // What is handed to an outer instance stands in the replacements of an inner one.
    (
        &[
            (
                "A",
                "VARIABLE y
I(p) == INSTANCE B WITH z <- p
U == I(1)!J(2)!F
V == I(y)!J(2)!F
W == I(1)!J(y)!F",
            ),
            ("B", "VARIABLE z\nJ(q) == INSTANCE M WITH x <- <<q, z>>"),
            (
                "C",
                "VARIABLE y
I(p) == INSTANCE B WITH z <- p
U == I(y')!J(1)!F
V == I(1)!J(y')!F
W == I(y)!J(y)!F''",
            ),
            ("M", "VARIABLE x\nF == {x}"),
        ],
        1,
        "A accepted
  3:25 z -> B 2:10 state
  3:30 p -> A 3:3 constant
  4:6 I -> A 3:1 instance
  4:11 J -> B 3:1 instance
  4:16 F -> M 3:1 constant
  5:6 I -> A 3:1 instance
  5:8 y -> A 2:10 state
  5:11 J -> B 3:1 instance
  5:16 F -> M 3:1 state
  6:6 I -> A 3:1 instance
  6:11 J -> B 3:1 instance
  6:13 y -> A 2:10 state
  6:16 F -> M 3:1 state
B accepted
  3:25 x -> M 2:10 state
  3:32 q -> B 3:3 constant
  3:35 z -> B 2:10 state
C refused
  4:6-4:18 E601
  5:6-5:18 E601
  6:6-6:19 E601
M accepted
  3:7 x -> M 2:10 state
modules=4 refused=1
",
    ),
    // A replacement that is not written is replaced with the rest.
    (
        &[
            (
                "A",
                "VARIABLE y
K == INSTANCE B WITH x <- 1
L == INSTANCE B WITH x <- y
U == <<K!J!F, L!J!F>>",
            ),
            ("B", "VARIABLE x\nJ == INSTANCE M"),
            ("M", "VARIABLE x\nF == <<x>>"),
        ],
        0,
        "A accepted
  3:22 x -> B 2:10 state
  4:22 x -> B 2:10 state
  4:27 y -> A 2:10 state
  5:8 K -> A 3:1 instance
  5:10 J -> B 3:1 instance
  5:12 F -> M 3:1 constant
  5:15 L -> A 4:1 instance
  5:17 J -> B 3:1 instance
  5:19 F -> M 3:1 state
B accepted
M accepted
  3:8 x -> M 2:10 state
modules=3 refused=0
",
    ),
];
