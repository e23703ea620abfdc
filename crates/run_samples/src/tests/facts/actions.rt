// Primes, steps and fairness: operands of the highest level that a form takes, and of one above it.
use crate::tests::Single;

/// Modules in which names are primed, enabled and unchanged.
pub static ACTIONS: [Single; 8] = [
    // What is primed has a value in each state.
    (
        "CONSTANT c\nVARIABLE x\nP == c\nQ == x\nU == P'\nV == Q'\nW == <<U, V>>",
        0,
        "A accepted
  4:6 c -> A 2:10 constant
  5:6 x -> A 3:10 state
  6:6 P -> A 4:1 constant
  7:6 Q -> A 5:1 state
  8:8 U -> A 6:1 action
  8:11 V -> A 7:1 action
modules=1 refused=0
",
    ),
    // An action, a box and a temporal formula are not primed.
    (
        "VARIABLE x\nP == x'\nU == P'\nV == x''\nW == ([]x)'\nX == ([P]_x)'\nY == (x = P)'",
        1,
        "A refused
  4:6-4:8 E601
  5:6-5:9 E601
  6:6-6:12 E601
  7:6-7:14 E601
  8:6-8:14 E601
modules=1 refused=1
",
    ),
    // A sum is primed as a whole.
    (
        "EXTENDS Naturals\nVARIABLE x\nU == (x + 1)'\nV == x' + 1\nW == U + V",
        0,
        "A accepted
  4:7 x -> A 3:10 state
  4:9 + -> Naturals 3:3 state
  5:6 x -> A 3:10 state
  5:9 + -> Naturals 3:3 action
  6:6 U -> A 4:1 action
  6:8 + -> Naturals 3:3 action
  6:10 V -> A 5:1 action
modules=1 refused=0
",
    ),
    // A sum of primed names is not primed, and there is no sum of temporal formulas.
    (
        "EXTENDS Naturals\nVARIABLE x\nU == (x' + 1)'\nV == ([]x) + 1",
        1,
        "A refused\n  4:6-4:15 E601\n  5:6-5:15 E601\nmodules=1 refused=1\n",
    ),
    // UNCHANGED takes what has a value in each state.
    (
        r"CONSTANT c
VARIABLES x, y
U == UNCHANGED <<x, y>>
V == UNCHANGED c
W == UNCHANGED ENABLED (y')
X == U /\ V /\ W",
        0,
        "A accepted
  4:18 x -> A 3:11 state
  4:21 y -> A 3:14 state
  5:16 c -> A 2:10 constant
  6:25 y -> A 3:14 state
  7:6 U -> A 4:1 action
  7:11 V -> A 5:1 action
  7:16 W -> A 6:1 action
modules=1 refused=0
",
    ),
    // UNCHANGED takes neither an action nor a temporal formula.
    (
        "VARIABLE x\nU == UNCHANGED (x')\nV == UNCHANGED <<x, x'>>\nW == UNCHANGED []x",
        1,
        "A refused\n  3:6-3:20 E601\n  4:6-4:25 E601\n  5:6-5:19 E601\nmodules=1 refused=1\n",
    ),
    // ENABLED takes actions, and has a value in each state.
    (
        "VARIABLE x
U == ENABLED (x')
V == ENABLED x
W == ENABLED [x']_x
X == ENABLED <<U'>>_x
Y == <<U, V, W, X>>
Z == Y'",
        0,
        "A accepted
  3:15 x -> A 2:10 state
  4:14 x -> A 2:10 state
  5:15 x -> A 2:10 state
  5:19 x -> A 2:10 state
  6:16 U -> A 3:1 state
  6:21 x -> A 2:10 state
  7:8 U -> A 3:1 state
  7:11 V -> A 4:1 state
  7:14 W -> A 5:1 state
  7:17 X -> A 6:1 state
  8:6 Y -> A 7:1 state
modules=1 refused=0
",
    ),
    // ENABLED takes no temporal formula.
    (
        "VARIABLE x\nU == ENABLED []x\nV == ENABLED WF_x(x')\nW == ENABLED (x ~> x)",
        1,
        "A refused\n  3:6-3:17 E601\n  4:6-4:22 E601\n  5:6-5:22 E601\nmodules=1 refused=1\n",
    ),
];

/// Modules with steps, and with what is fair.
pub static STEPS: [Single; 6] = [
    // Two steps in one are an action.
    (
        r"VARIABLE x
U == x \cdot x
V == x' \cdot [x']_x
W == U = V",
        0,
        "A accepted
  3:6 x -> A 2:10 state
  3:14 x -> A 2:10 state
  4:6 x -> A 2:10 state
  4:16 x -> A 2:10 state
  4:20 x -> A 2:10 state
  5:6 U -> A 3:1 action
  5:10 V -> A 4:1 action
modules=1 refused=0
",
    ),
    // Neither step of the two is temporal, and the two are not primed.
    (
        r"VARIABLE x
U == ([]x) \cdot x
V == x \cdot (x ~> x)
W == (x \cdot x)'",
        1,
        "A refused\n  3:6-3:19 E601\n  4:6-4:22 E601\n  5:6-5:18 E601\nmodules=1 refused=1\n",
    ),
    // Boxes and diamonds of actions.
    (
        r"CONSTANT c
VARIABLE x
M == [x']_x
N == <<x>>_c
U == [M]_<<x, c>>
V == <<N>>_(x)
W == []U /\ <>V",
        0,
        "A accepted
  4:7 x -> A 3:10 state
  4:11 x -> A 3:10 state
  5:8 x -> A 3:10 state
  5:12 c -> A 2:10 constant
  6:7 M -> A 4:1 action
  6:12 x -> A 3:10 state
  6:15 c -> A 2:10 constant
  7:8 N -> A 5:1 action
  7:13 x -> A 3:10 state
  8:8 U -> A 6:1 action
  8:15 V -> A 7:1 action
modules=1 refused=0
",
    ),
    // Boxes and diamonds of temporal formulas, or over actions, are faults.
    (
        "VARIABLE x
U == [[]x]_x
V == [x]_(x')
W == <<x ~> x>>_x
X == <<x>>_<<x'>>
Y == [x]_([x]_x)",
        1,
        "A refused
  3:6-3:13 E601
  4:6-4:14 E601
  5:6-5:18 E601
  6:6-6:18 E601
  7:6-7:17 E601
modules=1 refused=1
",
    ),
    // Fairness of actions.
    (
        r"VARIABLE x
N == x'
U == WF_x(N)
V == SF_<<x>>([N]_x)
W == WF_(x)(x)
X == SF_{x}(N) => U
Y == V /\ W",
        0,
        "A accepted
  3:6 x -> A 2:10 state
  4:9 x -> A 2:10 state
  4:11 N -> A 3:1 action
  5:11 x -> A 2:10 state
  5:16 N -> A 3:1 action
  5:19 x -> A 2:10 state
  6:10 x -> A 2:10 state
  6:13 x -> A 2:10 state
  7:10 x -> A 2:10 state
  7:13 N -> A 3:1 action
  7:19 U -> A 4:1 temporal
  8:6 V -> A 5:1 temporal
  8:11 W -> A 6:1 temporal
modules=1 refused=0
",
    ),
    // There is no fairness of temporal formulas, nor over actions.
    (
        "VARIABLE x\nU == WF_x([]x)\nV == SF_(x')(x)\nW == WF_<<x, x'>>(x')",
        1,
        "A refused\n  3:6-3:15 E601\n  4:6-4:16 E601\n  5:6-5:22 E601\nmodules=1 refused=1\n",
    ),
];
