// Several files, and the built-in modules.
use crate::tests::Case;

/// Families whose modules use names of each other.
pub static FILES: [Case; 4] = [
    // A module with a specification.
    (
        &[(
            "Clock",
            r"EXTENDS Naturals
VARIABLE hr
Init == hr \in (1 .. 12)
Next == hr' = IF hr # 12 THEN hr + 1 ELSE 1
Spec == Init /\ [][Next]_hr /\ WF_hr(Next)
----
THEOREM Spec => []Init",
        )],
        0,
        "Clock accepted
  4:9 hr -> Clock 3:10 state
  4:19 .. -> Naturals 11:3 constant
  5:9 hr -> Clock 3:10 state
  5:18 hr -> Clock 3:10 state
  5:31 hr -> Clock 3:10 state
  5:34 + -> Naturals 3:3 state
  6:9 Init -> Clock 4:1 state
  6:20 Next -> Clock 5:1 action
  6:26 hr -> Clock 3:10 state
  6:35 hr -> Clock 3:10 state
  6:38 Next -> Clock 5:1 action
  8:9 Spec -> Clock 6:1 temporal
  8:19 Init -> Clock 4:1 state
modules=1 refused=0
",
    ),
    // There are no modules.
    (&[], 0, "modules=0 refused=0\n"),
    // Names of other files, also over two of them.
    (
        &[
            ("A", "EXTENDS B, C\nU == <<f, g, x>>"),
            ("B", "VARIABLE x\nf == x'"),
            ("C", "EXTENDS B\nLOCAL h == f\ng == h"),
        ],
        0,
        "A accepted
  3:8 f -> B 3:1 action
  3:11 g -> C 4:1 action
  3:14 x -> B 2:10 state
B accepted
  3:6 x -> B 2:10 state
C accepted
  3:12 f -> B 3:1 action
  4:6 h -> C 3:7 action
modules=3 refused=0
",
    ),
    // A refused module shows none, nor do those that need it.
    (
        &[
            ("A", "EXTENDS B\nU == F"),
            ("B", "VARIABLE x\nG == x\nF == x''"),
            ("C", "VARIABLE y\nV == y"),
            ("D", "I == INSTANCE B WITH x <- 1\nU == I!G"),
        ],
        1,
        "A refused
  2:9-2:10 E303
B refused
  4:6-4:9 E601
C accepted
  3:6 y -> C 2:10 state
D refused
  2:15-2:16 E303
modules=4 refused=3
",
    ),
];

/// Families that use names of built-in modules.
pub static BUILT_IN: [Case; 5] = [
    // Built-in modules are shown as those that declare, and have no lines.
    (
        &[(
            "A",
            r"EXTENDS Sequences, FiniteSets, Bags, TLC
VARIABLE x
U == x \circ <<>>
V == Cardinality({x'})
W == EmptyBag \oplus x
X == 1 :> x @@ x
Y == SelectSeq(x, Len)",
        )],
        0,
        r"A accepted
  4:6 x -> A 3:10 state
  4:8 \circ -> Sequences 4:3 state
  5:6 Cardinality -> FiniteSets 3:1 action
  5:19 x -> A 3:10 state
  6:6 EmptyBag -> Bags 6:1 constant
  6:15 \oplus -> Bags 7:3 state
  6:22 x -> A 3:10 state
  7:8 :> -> TLC 5:3 state
  7:11 x -> A 3:10 state
  7:13 @@ -> TLC 6:3 state
  7:16 x -> A 3:10 state
  8:6 SelectSeq -> Sequences 9:1 state
  8:16 x -> A 3:10 state
  8:19 Len -> Sequences 3:1 constant
modules=1 refused=0
",
    ),
    // Naturals through another file.
    (
        &[
            ("A", "EXTENDS B\nU == 1 + V"),
            ("B", "EXTENDS Naturals\nV == Nat"),
        ],
        0,
        "A accepted
  3:8 + -> Naturals 3:3 constant
  3:10 V -> B 3:1 constant
B accepted
  3:6 Nat -> Naturals 2:1 constant
modules=2 refused=0
",
    ),
    // A file hides the built-in module of its name.
    (
        &[
            ("A", "EXTENDS Naturals\nU == F"),
            ("Naturals", "F == ENABLED TRUE"),
        ],
        0,
        "A accepted\n  3:6 F -> Naturals 2:1 state\nNaturals accepted\nmodules=2 refused=0\n",
    ),
    // Definitions of a built-in module are judged at their uses.
    (
        &[(
            "A",
            r"EXTENDS RealTime
VARIABLE x
U == RTBound(x' = 1, x, 1, 2)
V == RTnow(x)
W == <<now>>
X == RTBound(x', x, x, {1})
Y == U /\ V",
        )],
        0,
        "A accepted
  4:6 RTBound -> RealTime 4:1 temporal
  4:14 x -> A 3:10 state
  4:22 x -> A 3:10 state
  5:6 RTnow -> RealTime 11:1 temporal
  5:12 x -> A 3:10 state
  6:8 now -> RealTime 3:10 state
  7:6 RTBound -> RealTime 4:1 temporal
  7:14 x -> A 3:10 state
  7:18 x -> A 3:10 state
  7:21 x -> A 3:10 state
  8:6 U -> A 4:1 temporal
  8:11 V -> A 5:1 temporal
modules=1 refused=0
",
    ),
    // What they prime or box may be too high at a use.
    (
        &[(
            "A",
            "EXTENDS RealTime, Sequences
VARIABLE x
F(a) == a'
U == RTBound([]x, x, 1, 2)
V == RTBound(x, x', 1, 2)
W == RTBound(x, x, 1, x')
X == RTnow(x')
Y == SelectSeq(x', F)
Z == 1 + []x",
        )],
        1,
        "A refused
  5:6-5:27 E601
  6:6-6:26 E601
  7:6-7:26 E601
  8:6-8:15 E601
  9:6-9:22 E601
  10:6-10:13 E601
modules=1 refused=1
",
    ),
];
