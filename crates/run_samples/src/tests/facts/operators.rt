// Operators that are handed to operators.
use crate::tests::Single;

/// Modules in which operators are handed on.
pub static OPERATORS: [Single; 6] = [
    // Operators that are handed on, also through two definitions.
    (
        "VARIABLE x
F(G(_)) == G(x)
E(K(_)) == F(K)
H(a) == a'
U == E(H)
V == E(ENABLED)
W == F(H)",
        0,
        "A accepted
  3:12 G -> A 3:3 state
  3:14 x -> A 2:10 state
  4:12 F -> A 3:1 state
  4:14 K -> A 4:3 constant
  5:9 a -> A 5:3 constant
  6:6 E -> A 4:1 action
  6:8 H -> A 5:1 action
  7:6 E -> A 4:1 state
  8:6 F -> A 3:1 action
  8:8 H -> A 5:1 action
modules=1 refused=0
",
    ),
    // What they are applied to inside counts.
    (
        "VARIABLE x
F(G(_)) == G(x')
E(K(_)) == F(K)
H(a) == a'
U == E(H)
V == E(ENABLED)
W == E(UNCHANGED)
X == F(H)",
        1,
        "A refused\n  6:6-6:10 E601\n  8:6-8:18 E601\n  9:6-9:10 E601\nmodules=1 refused=1\n",
    ),
    // A parameter that is an operator takes all levels in its definition.
    (
        "VARIABLE x
F(G(_)) == G([]x)
U == F(~)
V == F([])
H(a) == TRUE
W == F(H)
X == U => V",
        0,
        "A accepted
  3:12 G -> A 3:3 temporal
  3:16 x -> A 2:10 state
  4:6 F -> A 3:1 temporal
  5:6 F -> A 3:1 temporal
  7:6 F -> A 3:1 constant
  7:8 H -> A 6:1 constant
  8:6 U -> A 4:1 temporal
  8:11 V -> A 5:1 temporal
modules=1 refused=0
",
    ),
    // What stands for a parameter may take less.
    (
        "VARIABLE x
F(G(_)) == G([]x)
U == F(')
V == F(DOMAIN)
K(a) == {a}
W == F(K)
X == F(ENABLED)",
        1,
        "A refused
  4:6-4:10 E601
  5:6-5:15 E601
  7:6-7:10 E601
  8:6-8:16 E601
modules=1 refused=1
",
    ),
    // Operators with two places.
    (
        r"VARIABLE x
F(G(_, _)) == G(x, x')
H(a, b) == <<b, a>>
U == F(H)
V == F(/\)
W == F(\cup)
X == F(\cdot)
Y == <<U, V, W, X>>",
        0,
        "A accepted
  3:15 G -> A 3:3 action
  3:17 x -> A 2:10 state
  3:20 x -> A 2:10 state
  4:14 b -> A 4:6 constant
  4:17 a -> A 4:3 constant
  5:6 F -> A 3:1 action
  5:8 H -> A 4:1 constant
  6:6 F -> A 3:1 action
  7:6 F -> A 3:1 action
  8:6 F -> A 3:1 action
  9:8 U -> A 5:1 action
  9:11 V -> A 6:1 action
  9:14 W -> A 7:1 action
  9:17 X -> A 8:1 action
modules=1 refused=0
",
    ),
    // An operator with two places may take less.
    (
        "VARIABLE x
F(G(_, _)) == G(x, x')
H(a, b) == a ~> b
K(a, b) == b'
U == F(H)
V == F(~>)
W == F(-+->)
X == F(K)",
        1,
        "A refused
  6:6-6:10 E601
  7:6-7:11 E601
  8:6-8:13 E601
  9:6-9:10 E601
modules=1 refused=1
",
    ),
];

/// Modules in which what is handed on is judged by itself, or with what stands round it.
pub static ALONE: [Single; 8] = [
    // An operator by itself has its level on constants.
    (
        "VARIABLE x
F(G(_)) == 1
H(a) == <<a, x>>
K(a) == a'
L(a) == []a
U == F(H)
V == F(K)
W == F(L)",
        0,
        "A accepted
  4:11 a -> A 4:3 constant
  4:14 x -> A 2:10 state
  5:9 a -> A 5:3 constant
  6:11 a -> A 6:3 constant
  7:6 F -> A 3:1 constant
  7:8 H -> A 4:1 state
  8:6 F -> A 3:1 constant
  8:8 K -> A 5:1 action
  9:6 F -> A 3:1 constant
  9:8 L -> A 6:1 temporal
modules=1 refused=0
",
    ),
    // An operator without a level is a fault by itself, also where it is not applied.
    (
        "F(G(_)) == 1\nH(a) == a''\nU == F(H)\nV == F(')",
        1,
        "A refused\n  3:9-3:12 E601\n  4:8-4:9 E601\nmodules=1 refused=1\n",
    ),
    // A declared operator that is handed on takes actions.
    (
        "CONSTANT C(_)\nVARIABLE x\nF(G(_)) == G(x')\nU == F(C)\nV == U",
        0,
        "A accepted
  4:12 G -> A 4:3 action
  4:14 x -> A 3:10 state
  5:6 F -> A 4:1 action
  5:8 C -> A 2:10 constant
  6:6 U -> A 5:1 action
modules=1 refused=0
",
    ),
    // A declared operator that is handed on takes no temporal formulas.
    (
        "CONSTANT C(_)\nVARIABLE x\nF(G(_)) == G([]x)\nU == F(C)",
        1,
        "A refused\n  5:6-5:10 E601\nmodules=1 refused=1\n",
    ),
    // An operator of LET that is handed on has what stands round it.
    (
        "VARIABLE v
F(G(_)) == G(1)
H(x) == LET K(n) == <<x, n>> IN F(K)
U == H(v)
V == H(v)'
W == H(v')",
        0,
        "A accepted
  3:12 G -> A 3:3 constant
  4:23 x -> A 4:3 constant
  4:26 n -> A 4:15 constant
  4:33 F -> A 3:1 constant
  4:35 K -> A 4:13 constant
  5:6 H -> A 4:1 state
  5:8 v -> A 2:10 state
  6:6 H -> A 4:1 state
  6:8 v -> A 2:10 state
  7:6 H -> A 4:1 action
  7:8 v -> A 2:10 state
modules=1 refused=0
",
    ),
    // An operator of LET may be too high where it is primed.
    (
        "VARIABLE v
F(G(_)) == G(1)'
H(x) == LET K(n) == <<x, n>> IN F(K)
U == H(v)
V == H(v')",
        1,
        "A refused\n  6:6-6:11 E601\nmodules=1 refused=1\n",
    ),
    // An operator of LET may hand on what was handed to the definition round it.
    (
        "VARIABLE v
F(G(_)) == G(1)
H(x, K(_)) == LET L(n) == <<x, K(n)>> IN F(L)
M(a) == a'
U == H(v, M)
V == H(1, DOMAIN)
W == V'
X == H(v', M)",
        0,
        "A accepted
  3:12 G -> A 3:3 constant
  4:29 x -> A 4:3 constant
  4:32 K -> A 4:6 constant
  4:34 n -> A 4:21 constant
  4:42 F -> A 3:1 constant
  4:44 L -> A 4:19 constant
  5:9 a -> A 5:3 constant
  6:6 H -> A 4:1 action
  6:8 v -> A 2:10 state
  6:11 M -> A 5:1 action
  7:6 H -> A 4:1 constant
  8:6 V -> A 7:1 constant
  9:6 H -> A 4:1 action
  9:8 v -> A 2:10 state
  9:12 M -> A 5:1 action
modules=1 refused=0
",
    ),
    // An operator that is handed on, or declared, makes an action of a step that may stutter.
    (
        "VARIABLE x
CONSTANT C(_)
N == [x']_x
E(K(_)) == []K(1)
D(a) == N
B(a) == x'
U == E(D)
V == E(B)
W(K(_)) == []K(N)
X == []C(N)",
        1,
        "A refused
  9:6-9:10 E601
  10:12-10:18 E601
  11:6-11:12 E601
modules=1 refused=1
",
    ),
];
