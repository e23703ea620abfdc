// Temporal formulas, and what is assumed.
use crate::tests::Single;

/// Modules with boxes and diamonds.
pub static FORMULAS: [Single; 6] = [
    // A box takes states, formulas, and steps that may stutter.
    (
        r"CONSTANT c
VARIABLE x
U == []c
V == [](x = c)
W == []U
X == [][x']_x
Y == V /\ W /\ X",
        0,
        "A accepted
  4:8 c -> A 2:10 constant
  5:9 x -> A 3:10 state
  5:13 c -> A 2:10 constant
  6:8 U -> A 4:1 temporal
  7:9 x -> A 3:10 state
  7:13 x -> A 3:10 state
  8:6 V -> A 5:1 temporal
  8:11 W -> A 6:1 temporal
  8:16 X -> A 7:1 temporal
modules=1 refused=0
",
    ),
    // A box takes no other action.
    (
        r"VARIABLE x
U == [](x')
V == []<<x'>>_x
W == [](x \cdot x)
X == []UNCHANGED x",
        1,
        "A refused
  3:6-3:12 E601
  4:6-4:16 E601
  5:6-5:19 E601
  6:6-6:19 E601
modules=1 refused=1
",
    ),
    // A diamond takes states, formulas, and steps that do change something.
    (
        r"CONSTANT c
VARIABLE x
U == <>c
V == <>x
W == <>U
X == <><<x'>>_x
Y == V /\ W /\ X",
        0,
        "A accepted
  4:8 c -> A 2:10 constant
  5:8 x -> A 3:10 state
  6:8 U -> A 4:1 temporal
  7:10 x -> A 3:10 state
  7:15 x -> A 3:10 state
  8:6 V -> A 5:1 temporal
  8:11 W -> A 6:1 temporal
  8:16 X -> A 7:1 temporal
modules=1 refused=0
",
    ),
    // A diamond takes no other action.
    (
        "VARIABLE x\nU == <>(x')\nV == <>[x']_x\nW == <>UNCHANGED x",
        1,
        "A refused\n  3:6-3:12 E601\n  4:6-4:14 E601\n  5:6-5:19 E601\nmodules=1 refused=1\n",
    ),
    // A step that may stutter stays one in parentheses, in LET, in a definition, and where it is
    // handed on.
    (
        "VARIABLE v
N == [v']_v
F(P) == []P
U == [](N)
V == [](LET M == N IN M)
W == F((N))
X == F(LET M == v' IN [M]_v)
Y == LET D == <<v'>>_v IN <>D",
        0,
        "A accepted
  3:7 v -> A 2:10 state
  3:11 v -> A 2:10 state
  4:11 P -> A 4:3 constant
  5:9 N -> A 3:1 action
  6:18 N -> A 3:1 action
  6:23 M -> A 6:13 action
  7:6 F -> A 4:1 temporal
  7:9 N -> A 3:1 action
  8:6 F -> A 4:1 temporal
  8:17 v -> A 2:10 state
  8:24 M -> A 8:12 action
  8:27 v -> A 2:10 state
  9:17 v -> A 2:10 state
  9:22 v -> A 2:10 state
  9:29 D -> A 9:10 action
modules=1 refused=0
",
    ),
    // Any other form makes an action of it, also one of which it is the only part.
    (
        r"VARIABLE v
N == [v']_v
U == []~N
V == [](N /\ N)
W == [](IF TRUE THEN N ELSE N)
X == [](\E y \in {} : N)
Y == [](/\ N)
Z == [](CASE TRUE -> N)",
        1,
        "A refused
  4:6-4:10 E601
  5:6-5:16 E601
  6:6-6:31 E601
  7:6-7:25 E601
  8:6-8:14 E601
  9:6-9:24 E601
modules=1 refused=1
",
    ),
];

/// Modules with what leads to what, with hidden variables, and with what is assumed.
pub static CLAIMS: [Single; 7] = [
    // What leads to what is no action.
    (
        "CONSTANT c\nVARIABLE x\nU == c ~> x\nV == []x -+-> U\nW == U ~> V",
        0,
        "A accepted
  4:6 c -> A 2:10 constant
  4:11 x -> A 3:10 state
  5:8 x -> A 3:10 state
  5:15 U -> A 4:1 temporal
  6:6 U -> A 4:1 temporal
  6:11 V -> A 5:1 temporal
modules=1 refused=0
",
    ),
    // An action leads to nothing, not even a step that may stutter.
    (
        "VARIABLE x\nN == [x']_x\nU == x ~> x'\nV == N ~> x\nW == x' -+-> x\nX == x -+-> N",
        1,
        "A refused
  4:6-4:13 E601
  5:6-5:12 E601
  6:6-6:15 E601
  7:6-7:14 E601
modules=1 refused=1
",
    ),
    // What `\EE` and `\AA` speak of is no action.
    (
        r"VARIABLE x
U == \EE y : []y
V == \AA y : 1
W == \EE y : V ~> x
X == U /\ W",
        0,
        "A accepted
  3:16 y -> A 3:10 state
  5:14 V -> A 4:1 temporal
  5:19 x -> A 2:10 state
  6:6 U -> A 3:1 temporal
  6:11 W -> A 5:1 temporal
modules=1 refused=0
",
    ),
    // Where it is one, the whole is at fault.
    (
        r"VARIABLE x
U == \EE y : y'
V == \AA y : [y']_y
W == \EE y : x = y'",
        1,
        "A refused\n  3:6-3:16 E601\n  4:6-4:20 E601\n  5:6-5:20 E601\nmodules=1 refused=1\n",
    ),
    // What is assumed is constant.
    (
        "CONSTANT c
VARIABLE x
F(a) == a'
ASSUME x
ASSUME c'
AXIOM []c
ASSUMPTION F(c)
ASSUME ENABLED c
ASSUME x''
ASSUME [c]_c",
        1,
        "A refused
  5:8-5:9 E602
  6:8-6:10 E602
  7:7-7:10 E602
  8:12-8:16 E602
  9:8-9:17 E602
  10:8-10:11 E601
  11:8-11:13 E602
modules=1 refused=1
",
    ),
    // What is claimed may have any level, but must have one.
    (
        "VARIABLE x\nTHEOREM []x\nTHEOREM x''",
        1,
        "A refused\n  4:9-4:12 E601\nmodules=1 refused=1\n",
    ),
    // Nested modules are judged with the module round them.
    (
        "CONSTANT c
---- MODULE N ----
VARIABLE y
G == y''
ASSUME y
====
I == INSTANCE N WITH y <- c'",
        1,
        "A refused\n  5:6-5:9 E601\n  6:8-6:9 E602\n  8:27-8:29 E603\nmodules=1 refused=1\n",
    ),
];
