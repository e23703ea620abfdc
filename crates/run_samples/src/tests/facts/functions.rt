// Functions, and what is put into them.
use crate::tests::Single;

/// Modules that define functions.
pub static FUNCTIONS: [Single; 4] = [
    // In its own body the name of a function is constant.
    (
        r"VARIABLE x
f[y \in {x}] == <<y, f[y]>>
g[y \in {1}] == x'
LOCAL h[y, z \in {}, <<v, w>> \in {}] == <<y, z, v, w>>
U == f[1]
V == <<f, g, h>>",
        0,
        "A accepted
  3:10 x -> A 2:10 state
  3:19 y -> A 3:3 constant
  3:22 f -> A 3:1 constant
  3:24 y -> A 3:3 constant
  4:17 x -> A 2:10 state
  5:44 y -> A 5:9 constant
  5:47 z -> A 5:12 constant
  5:50 v -> A 5:24 constant
  5:53 w -> A 5:27 constant
  6:6 f -> A 3:1 state
  7:8 f -> A 3:1 state
  7:11 g -> A 4:1 action
  7:14 h -> A 5:7 constant
modules=1 refused=0
",
    ),
    // The definition of a function is a form: neither its body nor its sets are temporal.
    (
        r"VARIABLE x
f[y \in {}] == []x
LOCAL g[y \in ([]x)] == 1
U == f
V == g[1]
h[y \in {}] == [x']_x
W == []h",
        1,
        "A refused
  3:1-3:19 E601
  4:7-4:26 E601
  5:6-5:7 E601
  6:6-6:7 E601
  8:6-8:9 E601
modules=1 refused=1
",
    ),
    // A function of LET has the level of what stands round it.
    (
        r"VARIABLE x
F(a) == LET f[y \in a] == y IN f
U == F(x)
V == F(x')",
        0,
        "A accepted
  3:21 a -> A 3:3 constant
  3:27 y -> A 3:15 constant
  3:32 f -> A 3:13 constant
  4:6 F -> A 3:1 state
  4:8 x -> A 2:10 state
  5:6 F -> A 3:1 action
  5:8 x -> A 2:10 state
modules=1 refused=0
",
    ),
    // The sets of a function of LET may be too high at a use.
    (
        r"VARIABLE x
F(a) == LET f[y \in a] == y IN f
U == F([]x)",
        1,
        "A refused\n  4:6-4:12 E601\nmodules=1 refused=1\n",
    ),
];

/// Modules that use the old value of a function.
pub static OLD_VALUES: [Single; 8] = [
    // The old value has the level of the function and of the indices before the sign.
    (
        "VARIABLE f
U == [f EXCEPT ![1] = @, ![2] = [@ EXCEPT ![f] = @]]
V == [f EXCEPT ![1] = @', ![f'] = {@}]
W == <<U, V>>",
        0,
        "A accepted
  3:7 f -> A 2:10 state
  3:45 f -> A 2:10 state
  4:7 f -> A 2:10 state
  4:29 f -> A 2:10 state
  5:8 U -> A 3:1 state
  5:11 V -> A 4:1 action
modules=1 refused=0
",
    ),
    // The old value can't be primed where the function or an index is an action.
    (
        "VARIABLE f
U == [f EXCEPT ![f'] = @']
V == [f' EXCEPT !.a = @']
W == [f EXCEPT ![f'] = [@ EXCEPT ![1] = @']]
X == [f EXCEPT ![1] = [@ EXCEPT ![f'] = @']]
Y == [f EXCEPT ![1][f'].a = @']
Z == [f EXCEPT ![f'] = [f EXCEPT ![1] = @']]",
        1,
        "A refused
  3:24-3:26 E601
  4:23-4:25 E601
  5:41-5:43 E601
  6:41-6:43 E601
  7:29-7:31 E601
modules=1 refused=1
",
    ),
    // The old value may be a temporal formula; what it is put into may not.
    (
        r"VARIABLE x
T == []x
U == [T EXCEPT !.a = ~@]
V == [x EXCEPT ![T] = @]
W == [x EXCEPT !.a = []@]
X == [x EXCEPT !.a = @ /\ T]",
        1,
        "A refused
  4:6-4:25 E601
  5:6-5:25 E601
  6:6-6:26 E601
  7:6-7:29 E601
modules=1 refused=1
",
    ),
    // Functions and indices that are handed on.
    (
        "VARIABLE f
F(a) == a'
G(g, i) == [g EXCEPT ![i] = @']
H(g) == [g EXCEPT ![1] = F(@)]
U == G(f, 1)
V == H(f)
W == <<U, V>>",
        0,
        "A accepted
  3:9 a -> A 3:3 constant
  4:13 g -> A 4:3 constant
  4:24 i -> A 4:6 constant
  5:10 g -> A 5:3 constant
  5:26 F -> A 3:1 action
  6:6 G -> A 4:1 action
  6:8 f -> A 2:10 state
  7:6 H -> A 5:1 action
  7:8 f -> A 2:10 state
  8:8 U -> A 6:1 action
  8:11 V -> A 7:1 action
modules=1 refused=0
",
    ),
    // Functions and indices may be too high at a use.
    (
        "VARIABLE f
G(g, i) == [g EXCEPT ![i] = @']
U == G(f, f')
V == G(f', 1)
W == [f EXCEPT ![f'] = G(@, 1)]
X == [f EXCEPT ![f'] = G(1, @)]
Y == [f EXCEPT ![f] = G(@, @)]",
        1,
        "A refused
  4:6-4:14 E601
  5:6-5:14 E601
  6:24-6:31 E601
  7:24-7:31 E601
modules=1 refused=1
",
    ),
    // The old value in LET.
    (
        "VARIABLE f
U == [f EXCEPT ![f'] = LET y == @ IN y]
V == [f EXCEPT ![1] = LET F(a) == <<a, @>> IN F(2)]
W == [f EXCEPT ![f] = LET F(a) == <<a, @>> IN F(@')]",
        0,
        "A accepted
  3:7 f -> A 2:10 state
  3:18 f -> A 2:10 state
  3:38 y -> A 3:28 action
  4:7 f -> A 2:10 state
  4:37 a -> A 4:29 constant
  4:47 F -> A 4:27 state
  5:7 f -> A 2:10 state
  5:18 f -> A 2:10 state
  5:37 a -> A 5:29 constant
  5:47 F -> A 5:27 action
modules=1 refused=0
",
    ),
    // An index of an inner form has the old value of the outer one.
    (
        "VARIABLE f
U == [f EXCEPT ![f'] = LET y == @ IN y']
V == [f EXCEPT ![f'] = [f EXCEPT ![@] = 1]]
W == [f EXCEPT ![f'] = [f EXCEPT ![@] = @']]
X == [f EXCEPT ![1] = [f EXCEPT ![@] = @']]",
        1,
        "A refused\n  3:38-3:40 E601\n  5:41-5:43 E601\nmodules=1 refused=1\n",
    ),
    // The old value of a function is no step that may stutter.
    (
        "VARIABLE x\nN == [x']_x\nU == [N EXCEPT !.a = []@]\nV == [N EXCEPT !.a = @]",
        1,
        "A refused\n  4:22-4:25 E601\nmodules=1 refused=1\n",
    ),
];
