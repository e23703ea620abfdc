// What a use of a name is, and where it stands.
use crate::tests::Single;

/// Modules with uses of names and of symbols.
pub static USES: [Single; 9] = [
    // Bound names are declared where they are bound.
    (
        r"CONSTANT S, T, y
U == {x \in S : y \in T}",
        0,
        "A accepted
  3:13 S -> A 2:10 constant
  3:17 y -> A 2:16 constant
  3:23 T -> A 2:13 constant
modules=1 refused=0
",
    ),
    // No name is used.
    (
        r#"CONSTANT c
F(a) == TRUE
G == "c""#,
        0,
        "A accepted\nmodules=1 refused=0\n",
    ),
    // Names by themselves, applied and handed on.
    (
        "CONSTANT c, C(_)\nVARIABLE x\nF(a, G(_)) == <<a, G(c), C(x), x>>\nU == F(x, C)",
        0,
        "A accepted
  4:17 a -> A 4:3 constant
  4:20 G -> A 4:6 constant
  4:22 c -> A 2:10 constant
  4:26 C -> A 2:13 state
  4:28 x -> A 3:10 state
  4:32 x -> A 3:10 state
  5:6 F -> A 4:1 state
  5:8 x -> A 3:10 state
  5:11 C -> A 2:13 constant
modules=1 refused=0
",
    ),
    // Fields, what is built in, `@` and names of modules are no uses.
    (
        r"EXTENDS Naturals
VARIABLE r
U == [r EXCEPT !.a = @, !.b[TRUE] = r.a]
V == [a |-> {r}, b |-> STRING]
W == [a : BOOLEAN] \cup {FALSE, r}",
        0,
        "A accepted
  4:7 r -> A 3:10 state
  4:37 r -> A 3:10 state
  5:14 r -> A 3:10 state
  6:33 r -> A 3:10 state
modules=1 refused=0
",
    ),
    // Symbols are shown as they are written.
    (
        r"EXTENDS Integers
CONSTANT a, b
U == a \leq b
V == a <= b /\ -a =< b
W == -a - b",
        0,
        r"A accepted
  4:6 a -> A 3:10 constant
  4:8 \leq -> Naturals 9:3 constant
  4:13 b -> A 3:13 constant
  5:6 a -> A 3:10 constant
  5:8 <= -> Naturals 9:3 constant
  5:11 b -> A 3:13 constant
  5:16 - -> Integers 4:1 constant
  5:17 a -> A 3:10 constant
  5:19 =< -> Naturals 9:3 constant
  5:22 b -> A 3:13 constant
  6:6 - -> Integers 4:1 constant
  6:7 a -> A 3:10 constant
  6:9 - -> Naturals 4:3 constant
  6:11 b -> A 3:13 constant
modules=1 refused=0
",
    ),
    // Symbols that the module defines.
    (
        "a ++ b == <<a, b>>
a^+ == a'
-. a == {a}
VARIABLE x
U == x ++ x^+
V == -x
W == -(x^+)",
        0,
        "A accepted
  2:13 a -> A 2:1 constant
  2:16 b -> A 2:6 constant
  3:8 a -> A 3:1 constant
  4:10 a -> A 4:4 constant
  6:6 x -> A 5:10 state
  6:8 ++ -> A 2:3 action
  6:11 x -> A 5:10 state
  6:12 ^+ -> A 3:2 action
  7:6 - -> A 4:1 state
  7:7 x -> A 5:10 state
  8:6 - -> A 4:1 action
  8:8 x -> A 5:10 state
  8:9 ^+ -> A 3:2 action
modules=1 refused=0
",
    ),
    // Symbols that are handed on: those that are built in are no uses.
    (
        r"EXTENDS Naturals
VARIABLE x
F(G(_, _)) == G(1, x)
U == F( + )
V == F(=)
W == F(<)
X == F(\leq)",
        0,
        r"A accepted
  4:15 G -> A 4:3 state
  4:20 x -> A 3:10 state
  5:6 F -> A 4:1 state
  5:9 + -> Naturals 3:3 constant
  6:6 F -> A 4:1 state
  7:6 F -> A 4:1 state
  7:8 < -> Naturals 7:3 constant
  8:6 F -> A 4:1 state
  8:8 \leq -> Naturals 9:3 constant
modules=1 refused=0
",
    ),
    // Columns are numbers of characters.
    (
        r#"VARIABLE x
U == <<"é😀", x, "ß", x'>>
V == [a |-> "日本", b |-> x]"#,
        0,
        "A accepted
  3:14 x -> A 2:10 state
  3:22 x -> A 2:10 state
  4:25 x -> A 2:10 state
modules=1 refused=0
",
    ),
    // So are those of declaring names; a tab is one character.
    (
        "CONSTANT (* é *) c,\t(* 😀 *) d\r\nU == <<c,\td>>",
        0,
        "A accepted
  3:8 c -> A 2:18 constant
  3:11 d -> A 2:29 constant
modules=1 refused=0
",
    ),
];

/// Modules with names of LET, of bounds and of nested modules.
pub static SCOPES: [Single; 8] = [
    // Names of LET.
    (
        "VARIABLE x\nU == LET y == x' IN <<y, x>>\nV == LET G(a) == <<a, x>> IN G(x')",
        0,
        "A accepted
  3:15 x -> A 2:10 state
  3:23 y -> A 3:10 action
  3:26 x -> A 2:10 state
  4:20 a -> A 4:12 constant
  4:23 x -> A 2:10 state
  4:30 G -> A 4:10 action
  4:32 x -> A 2:10 state
modules=1 refused=0
",
    ),
    // One name in several scopes.
    (
        r"U == LET v == 1 IN v
V == LET v == {} IN \E w \in v : w
W == \A w \in {} : w",
        0,
        "A accepted
  2:20 v -> A 2:10 constant
  3:30 v -> A 3:10 constant
  3:34 w -> A 3:24 constant
  4:20 w -> A 4:9 constant
modules=1 refused=0
",
    ),
    // Bound names are constant, whatever they are taken from.
    (
        r"CONSTANT S
VARIABLE x
U == \A y, z \in S : y = z
V == \E <<y, z>> \in S, w \in x : {y, z, w}
W == {y \in S : y = x}
X == {<<y, z>> : y \in S, z \in x}
Y == [y \in S |-> <<x, y>>]
Z == CHOOSE <<y, z>> \in S : y = z",
        0,
        "A accepted
  4:18 S -> A 2:10 constant
  4:22 y -> A 4:9 constant
  4:26 z -> A 4:12 constant
  5:22 S -> A 2:10 constant
  5:31 x -> A 3:10 state
  5:36 y -> A 5:11 constant
  5:39 z -> A 5:14 constant
  5:42 w -> A 5:25 constant
  6:13 S -> A 2:10 constant
  6:17 y -> A 6:7 constant
  6:21 x -> A 3:10 state
  7:9 y -> A 7:18 constant
  7:12 z -> A 7:27 constant
  7:24 S -> A 2:10 constant
  7:33 x -> A 3:10 state
  8:13 S -> A 2:10 constant
  8:21 x -> A 3:10 state
  8:24 y -> A 8:7 constant
  9:26 S -> A 2:10 constant
  9:30 y -> A 9:15 constant
  9:34 z -> A 9:18 constant
modules=1 refused=0
",
    ),
    // Those that `\EE` and `\AA` bind are states.
    (
        r"VARIABLE x
U == \EE y : y = x
V == \AA y, z : [][y' = z]_<<y, z>>
W == U => V",
        0,
        "A accepted
  3:14 y -> A 3:10 state
  3:18 x -> A 2:10 state
  4:20 y -> A 4:10 state
  4:25 z -> A 4:13 state
  4:30 y -> A 4:10 state
  4:33 z -> A 4:13 state
  5:6 U -> A 3:1 temporal
  5:11 V -> A 4:1 temporal
modules=1 refused=0
",
    ),
    // Assumptions and theorems use names.
    (
        r"CONSTANT c
VARIABLE x
ASSUME c = 1
AXIOM \A y \in c : y = y
ASSUMPTION LET d == c IN d
THEOREM x'
THEOREM [](x = c) => x",
        0,
        "A accepted
  4:8 c -> A 2:10 constant
  5:16 c -> A 2:10 constant
  5:20 y -> A 5:10 constant
  5:24 y -> A 5:10 constant
  6:21 c -> A 2:10 constant
  6:26 d -> A 6:16 constant
  7:9 x -> A 3:10 state
  8:12 x -> A 3:10 state
  8:16 c -> A 2:10 constant
  8:22 x -> A 3:10 state
modules=1 refused=0
",
    ),
    // A nested module stands in the same file.
    (
        "CONSTANT c
---- MODULE N ----
VARIABLE y
G == <<c, y>>
====
I == INSTANCE N WITH y <- c
U == I!G",
        0,
        "A accepted
  5:8 c -> A 2:10 constant
  5:11 y -> A 4:10 state
  7:22 y -> A 4:10 state
  7:27 c -> A 2:10 constant
  8:6 I -> A 7:1 instance
  8:8 G -> A 5:1 constant
modules=1 refused=0
",
    ),
    // What stands round a nested module is no parameter of it.
    (
        "VARIABLE x
---- MODULE N ----
F == x'
====
---- MODULE O ----
EXTENDS N
G == F
====
I == INSTANCE O
U == I!G",
        0,
        "A accepted
  4:6 x -> A 2:10 state
  8:6 F -> A 4:1 action
  11:6 I -> A 10:1 instance
  11:8 G -> A 8:1 action
modules=1 refused=0
",
    ),
    // Symbols of LET.
    (
        "VARIABLE x\nU == LET a ++ b == <<a, b>> IN x ++ x'\nV == LET -. a == a' IN -x",
        0,
        "A accepted
  3:22 a -> A 3:10 constant
  3:25 b -> A 3:15 constant
  3:32 x -> A 2:10 state
  3:34 ++ -> A 3:12 action
  3:37 x -> A 2:10 state
  4:18 a -> A 4:13 constant
  4:24 - -> A 4:10 action
  4:25 x -> A 2:10 state
modules=1 refused=0
",
    ),
];
