// Logic, sets, functions and declared operators.
use crate::tests::Single;

/// Modules in which values are made of what they take.
pub static VALUES: [Single; 5] = [
    // Forms of logic take all levels, and have the greatest.
    (
        r"VARIABLE x
T == []x
U == ~T
V == x' /\ T
W == x' => x
X == IF T THEN x' ELSE x
Y == CASE x -> x' [] OTHER -> T
Z == \A y \in {x} : T
R == /\ x
     /\ x'
S == R <=> (V \/ W)
Q == U /\ X /\ Y /\ Z",
        0,
        "A accepted
  3:8 x -> A 2:10 state
  4:7 T -> A 3:1 temporal
  5:6 x -> A 2:10 state
  5:12 T -> A 3:1 temporal
  6:6 x -> A 2:10 state
  6:12 x -> A 2:10 state
  7:9 T -> A 3:1 temporal
  7:16 x -> A 2:10 state
  7:24 x -> A 2:10 state
  8:11 x -> A 2:10 state
  8:16 x -> A 2:10 state
  8:31 T -> A 3:1 temporal
  9:16 x -> A 2:10 state
  9:21 T -> A 3:1 temporal
  10:9 x -> A 2:10 state
  11:9 x -> A 2:10 state
  12:6 R -> A 10:1 action
  12:13 V -> A 5:1 temporal
  12:18 W -> A 6:1 action
  13:6 U -> A 4:1 temporal
  13:11 X -> A 7:1 temporal
  13:16 Y -> A 8:1 temporal
  13:21 Z -> A 9:1 temporal
modules=1 refused=0
",
    ),
    // Declared operators take actions.
    (
        "CONSTANT C(_), _ ++ _, -. _
VARIABLE x
U == C(x')
V == x ++ x'
W == -x
X == C(1) ++ C(x)",
        0,
        "A accepted
  4:6 C -> A 2:10 action
  4:8 x -> A 3:10 state
  5:6 x -> A 3:10 state
  5:8 ++ -> A 2:18 action
  5:11 x -> A 3:10 state
  6:6 - -> A 2:24 state
  6:7 x -> A 3:10 state
  7:6 C -> A 2:10 constant
  7:11 ++ -> A 2:18 state
  7:14 C -> A 2:10 state
  7:16 x -> A 3:10 state
modules=1 refused=0
",
    ),
    // Declared operators take no temporal formulas.
    (
        "CONSTANT C(_), _ ++ _\nVARIABLE x\nU == C([]x)\nV == x ++ (x ~> x)",
        1,
        "A refused\n  4:6-4:12 E601\n  5:6-5:19 E601\nmodules=1 refused=1\n",
    ),
    // All else takes actions, and has the greatest level.
    (
        r"CONSTANT c
VARIABLE x
N == x'
U == {N, c}
V == <<N>>
W == N = c
X == [a |-> N]
Y == c[N]
Z == N.a
R == SUBSET N
S == c \X N
T == CHOOSE y : N
Q == <<U, V, W, X, Y, Z, R, S, T>>",
        0,
        "A accepted
  4:6 x -> A 3:10 state
  5:7 N -> A 4:1 action
  5:10 c -> A 2:10 constant
  6:8 N -> A 4:1 action
  7:6 N -> A 4:1 action
  7:10 c -> A 2:10 constant
  8:13 N -> A 4:1 action
  9:6 c -> A 2:10 constant
  9:8 N -> A 4:1 action
  10:6 N -> A 4:1 action
  11:13 N -> A 4:1 action
  12:6 c -> A 2:10 constant
  12:11 N -> A 4:1 action
  13:17 N -> A 4:1 action
  14:8 U -> A 5:1 action
  14:11 V -> A 6:1 action
  14:14 W -> A 7:1 action
  14:17 X -> A 8:1 action
  14:20 Y -> A 9:1 action
  14:23 Z -> A 10:1 action
  14:26 R -> A 11:1 action
  14:29 S -> A 12:1 action
  14:32 T -> A 13:1 action
modules=1 refused=0
",
    ),
    // So do functions, sets of them, and what is put into them.
    (
        r"CONSTANT c
VARIABLE x
N == x'
U == {y \in N : y}
V == {N : y \in c}
W == [y \in c |-> N]
X == [c -> N]
Y == [a : N]
Z == [c EXCEPT ![1] = N]
R == [c EXCEPT ![N] = 1, !.a = 2]
S == [N EXCEPT !.a = 1]
Q == <<U, V, W, X, Y, Z, R, S>>",
        0,
        "A accepted
  4:6 x -> A 3:10 state
  5:13 N -> A 4:1 action
  5:17 y -> A 5:7 constant
  6:7 N -> A 4:1 action
  6:17 c -> A 2:10 constant
  7:13 c -> A 2:10 constant
  7:19 N -> A 4:1 action
  8:7 c -> A 2:10 constant
  8:12 N -> A 4:1 action
  9:11 N -> A 4:1 action
  10:7 c -> A 2:10 constant
  10:23 N -> A 4:1 action
  11:7 c -> A 2:10 constant
  11:18 N -> A 4:1 action
  12:7 N -> A 4:1 action
  13:8 U -> A 5:1 action
  13:11 V -> A 6:1 action
  13:14 W -> A 7:1 action
  13:17 X -> A 8:1 action
  13:20 Y -> A 9:1 action
  13:23 Z -> A 10:1 action
  13:26 R -> A 11:1 action
  13:29 S -> A 12:1 action
modules=1 refused=0
",
    ),
];

/// Modules in which some are not.
pub static FAULTS: [Single; 7] = [
    // Values are made of no temporal formulas.
    (
        r"VARIABLE x
T == []x
U == {T}
V == <<1, T>>
W == T = 1
X == [a |-> T]
Y == T[1]
Z == {}[T]
R == T.a
S == SUBSET T
Q == {} \X T
P == CHOOSE y : T",
        1,
        "A refused
  4:6-4:9 E601
  5:6-5:14 E601
  6:6-6:11 E601
  7:6-7:15 E601
  8:6-8:10 E601
  9:6-9:11 E601
  10:6-10:9 E601
  11:6-11:14 E601
  12:6-12:13 E601
  13:6-13:18 E601
modules=1 refused=1
",
    ),
    // Functions are made of none.
    (
        r"VARIABLE x
T == []x
U == {y \in {} : T}
V == {T : y \in {}}
W == [y \in {} |-> T]
X == [{} -> T]
Y == [a : T]
Z == [{} EXCEPT ![1] = T]
R == [{} EXCEPT ![T] = 1]
S == [T EXCEPT !.a = 1]",
        1,
        "A refused
  4:6-4:20 E601
  5:6-5:20 E601
  6:6-6:22 E601
  7:6-7:15 E601
  8:6-8:13 E601
  9:6-9:26 E601
  10:6-10:26 E601
  11:6-11:24 E601
modules=1 refused=1
",
    ),
    // Built-in symbols take none.
    (
        r"VARIABLE x
T == []x
U == UNION T
V == DOMAIN T
W == T \notin {}
X == T # T
Y == T \ {}
Z == {} \subseteq T
R == T \cap T \cap T",
        1,
        "A refused
  4:6-4:13 E601
  5:6-5:14 E601
  6:6-6:17 E601
  7:6-7:11 E601
  8:6-8:12 E601
  9:6-9:20 E601
  10:6-10:14 E601
modules=1 refused=1
",
    ),
    // Sets of bounds may be actions.
    (
        r"VARIABLE x
U == \A y \in x' : y
V == \E y \in x', z \in {1} : []y
W == CHOOSE y \in x' : y
X == <<U, W>>
Y == V",
        0,
        "A accepted
  3:15 x -> A 2:10 state
  3:20 y -> A 3:9 constant
  4:15 x -> A 2:10 state
  4:33 y -> A 4:9 constant
  5:19 x -> A 2:10 state
  5:24 y -> A 5:13 constant
  6:8 U -> A 3:1 action
  6:11 W -> A 5:1 action
  7:6 V -> A 4:1 temporal
modules=1 refused=0
",
    ),
    // Sets of bounds are no temporal formulas, whatever is said of their elements.
    (
        r"VARIABLE x
T == []x
U == \A y \in T : TRUE
V == \E y \in {1}, z \in T : TRUE
W == CHOOSE y \in T : TRUE
X == {y \in T : TRUE}
Y == {1 : y \in T}
Z == [y \in T |-> 1]",
        1,
        "A refused
  4:6-4:23 E601
  5:6-5:34 E601
  6:6-6:27 E601
  7:6-7:22 E601
  8:6-8:19 E601
  9:6-9:21 E601
modules=1 refused=1
",
    ),
    // A fault stands at the innermost form, and at each use of what has no level.
    (
        "VARIABLE x\nU == <<[](x'), {x''}>>\nV == U\nF(a) == U\nW == {F(U)}",
        1,
        "A refused
  3:8-3:14 E601
  3:17-3:20 E601
  4:6-4:7 E601
  5:9-5:10 E601
  6:9-6:10 E601
modules=1 refused=1
",
    ),
    // Each operand of a product counts.
    (
        r"VARIABLE x
T == []x
U == {} \X T \X {}
V == {} \X x' \X {x}
W == V'",
        1,
        "A refused\n  4:6-4:19 E601\n  6:6-6:8 E601\nmodules=1 refused=1\n",
    ),
];
