// What is handed to operators.
use crate::tests::Single;

/// Modules whose definitions are used at several levels.
pub static ARGUMENTS: [Single; 9] = [
    // The level of a use goes by what is handed on.
    (
        "VARIABLE x\nF(a) == {a}\nU == F(1)\nV == F(x)\nW == F(x')\nX == F(F(x'))",
        0,
        "A accepted
  3:10 a -> A 3:3 constant
  4:6 F -> A 3:1 constant
  5:6 F -> A 3:1 state
  5:8 x -> A 2:10 state
  6:6 F -> A 3:1 action
  6:8 x -> A 2:10 state
  7:6 F -> A 3:1 action
  7:8 F -> A 3:1 action
  7:10 x -> A 2:10 state
modules=1 refused=0
",
    ),
    // What is primed inside may be a state.
    (
        "VARIABLE x\nF(a) == a'\nG(a) == F(a)\nU == F(1)\nV == G(x)\nW == <<U, V>>",
        0,
        "A accepted
  3:9 a -> A 3:3 constant
  4:9 F -> A 3:1 action
  4:11 a -> A 4:3 constant
  5:6 F -> A 3:1 action
  6:6 G -> A 4:1 action
  6:8 x -> A 2:10 state
  7:8 U -> A 5:1 action
  7:11 V -> A 6:1 action
modules=1 refused=0
",
    ),
    // What is primed inside is no action, also where it is handed on once more.
    (
        "VARIABLE x
F(a) == a'
G(a) == F(a)
U == F(x')
V == G(x')
W == F(F(x))
X == G([]x)",
        1,
        "A refused
  5:6-5:11 E601
  6:6-6:11 E601
  7:6-7:13 E601
  8:6-8:12 E601
modules=1 refused=1
",
    ),
    // What is not used is free.
    (
        "VARIABLE x\nF(a, b) == b\nU == F([]x, 1)\nV == F(1, []x)\nW == U => V",
        0,
        "A accepted
  3:12 b -> A 3:6 constant
  4:6 F -> A 3:1 constant
  4:10 x -> A 2:10 state
  5:6 F -> A 3:1 temporal
  5:13 x -> A 2:10 state
  6:6 U -> A 4:1 constant
  6:11 V -> A 5:1 temporal
modules=1 refused=0
",
    ),
    // A step that does change something stands under a diamond, also where it is handed on.
    (
        "VARIABLE v\nF(P) == <>P\nG == F(<<v'>>_v)\nH == F([v']_v)",
        1,
        "A refused\n  5:6-5:15 E601\nmodules=1 refused=1\n",
    ),
    // What is defined in LET is judged at its uses.
    (
        "VARIABLE x
F(a) == LET b == a' IN 1
G(a) == LET b == a' IN b
U == F(x')
V == G(x)
W == U = V",
        0,
        "A accepted
  3:18 a -> A 3:3 constant
  4:18 a -> A 4:3 constant
  4:24 b -> A 4:13 action
  5:6 F -> A 3:1 constant
  5:8 x -> A 2:10 state
  6:6 G -> A 4:1 action
  6:8 x -> A 2:10 state
  7:6 U -> A 5:1 constant
  7:10 V -> A 6:1 action
modules=1 refused=0
",
    ),
    // What is written in LET is judged also where it is not used.
    (
        "VARIABLE x\nG(a) == LET b == a' IN b\nU == G(x')\nV == LET b == x'' IN 1\nW == V'",
        1,
        "A refused\n  4:6-4:11 E601\n  5:15-5:18 E601\nmodules=1 refused=1\n",
    ),
    // What a box is of, and what it is over, as parameters.
    (
        r"VARIABLE x
Fair(N, v) == WF_v(N) /\ [][N]_v
U == Fair(x', x)
V == Fair([x']_x, <<x>>)
W == U /\ V",
        0,
        "A accepted
  3:18 v -> A 3:9 constant
  3:20 N -> A 3:6 constant
  3:29 N -> A 3:6 constant
  3:32 v -> A 3:9 constant
  4:6 Fair -> A 3:1 temporal
  4:11 x -> A 2:10 state
  4:15 x -> A 2:10 state
  5:6 Fair -> A 3:1 temporal
  5:12 x -> A 2:10 state
  5:16 x -> A 2:10 state
  5:21 x -> A 2:10 state
  6:6 U -> A 4:1 temporal
  6:11 V -> A 5:1 temporal
modules=1 refused=0
",
    ),
    // Both may be too high at a use.
    (
        "VARIABLE x
Fair(N, v) == WF_v(N)
U == Fair(x, x')
V == Fair([]x, x)
W == Fair(x', [x]_x)",
        1,
        "A refused\n  4:6-4:17 E601\n  5:6-5:18 E601\n  6:6-6:21 E601\nmodules=1 refused=1\n",
    ),
];
