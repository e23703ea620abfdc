// Single modules beside the whole reports on them.
use crate::tests::Single;

/// Units of each form, and what names in them mean.
pub static MODULES: [Single; 35] = [
    (
        "CONSTANT N\nVARIABLES x, y",
        0,
        "A accepted\nmodules=1 refused=0\n",
    ),
    (
        "CONSTANT N, N",
        1,
        "A refused\n  2:13-2:14 E402\nmodules=1 refused=1\n",
    ),
    (
        "CONSTANT TRUE",
        1,
        "A refused\n  2:10-2:14 E402\nmodules=1 refused=1\n",
    ),
    (
        "VARIABLES FALSE, A, BOOLEAN",
        1,
        "A refused\n  2:11-2:16 E402\n  2:21-2:28 E402\nmodules=1 refused=1\n",
    ),
    (
        "CONSTANT 1x, _y, x_1, true",
        0,
        "A accepted\nmodules=1 refused=0\n",
    ),
    (
        "CONSTANTS N,\r\n\tM\r\nVARIABLE n, \tM",
        1,
        "A refused\n  4:14-4:15 E402\nmodules=1 refused=1\n",
    ),
    (
        r"CONSTANT N (* a, (* N *) b *), M \* N
VARIABLE N, N",
        1,
        "A refused\n  3:10-3:11 E402\n  3:13-3:14 E402\nmodules=1 refused=1\n",
    ),
    (
        "CONSTANTS STRING, c\n VARIABLE c,\n  c",
        1,
        "A refused\n  2:11-2:17 E402\n  3:11-3:12 E402\n  4:3-4:4 E402\nmodules=1 refused=1\n",
    ),
    (
        "(* é *)\tVARIABLE ab \\* a, b\n , ab",
        1,
        "A refused\n  3:4-3:6 E402\nmodules=1 refused=1\n",
    ),
    ("", 0, "A accepted\nmodules=1 refused=0\n"),
    (
        "----\nCONSTANT N\n-----",
        0,
        "A accepted\nmodules=1 refused=0\n",
    ),
    (
        "VARIABLE x\n----\nCONSTANT x",
        1,
        "A refused\n  4:10-4:11 E402\nmodules=1 refused=1\n",
    ),
    (
        "CONSTANT\n;",
        1,
        "A refused\n  3:1-3:2 E201\nmodules=1 refused=1\n",
    ),
    (
        "CONSTANT c, (* *\n",
        1,
        "A refused\n  2:13-2:15 E201\nmodules=1 refused=1\n",
    ),
    (
        "CONSTANT c, c\n?",
        1,
        "A refused\n  3:1-3:2 E201\nmodules=1 refused=1\n",
    ),
    (
        "CONSTANT WF_x",
        1,
        "A refused\n  2:10-2:13 E202\nmodules=1 refused=1\n",
    ),
    (
        "CONSTANT c,",
        1,
        "A refused\n  3:1-3:5 E202\nmodules=1 refused=1\n",
    ),
    (
        "CONSTANT 12",
        1,
        "A refused\n  2:10-2:12 E202\nmodules=1 refused=1\n",
    ),
    (
        "A == 1\nB == LET C == 2",
        1,
        "A refused\n  4:1-4:5 E202\nmodules=1 refused=1\n",
    ),
    (
        r"f[x \in S => T] == 1",
        1,
        "A refused\n  2:11-2:13 E202\nmodules=1 refused=1\n",
    ),
    // A definition may begin so, as `f(_ + _) == 1` does.
    (
        "VARIABLE x f(_)",
        1,
        "A refused\n  2:15-2:16 E202\nmodules=1 refused=1\n",
    ),
    ("CONSTANT N\nF == N", 0, "A accepted\nmodules=1 refused=0\n"),
    (
        r"CONSTANT a, b, c
U == /\ a
     /\ b
     \/ c",
        0,
        "A accepted\nmodules=1 refused=0\n",
    ),
    (
        r"F[a \in {1}] == F[a]",
        0,
        "A accepted\nmodules=1 refused=0\n",
    ),
    (
        "U == LET v == 1 IN v\nV == LET v == 2 IN v",
        0,
        "A accepted\nmodules=1 refused=0\n",
    ),
    (
        "EXTENDS Naturals, Integers",
        0,
        "A accepted\nmodules=1 refused=0\n",
    ),
    (
        r"CONSTANT N
U == \A N \in {1} : N = N",
        1,
        "A refused\n  3:9-3:10 E402\nmodules=1 refused=1\n",
    ),
    (
        "U == U",
        1,
        "A refused\n  2:6-2:7 E401\nmodules=1 refused=1\n",
    ),
    (
        "EXTENDS C",
        1,
        "A refused\n  2:9-2:10 E301\nmodules=1 refused=1\n",
    ),
    (
        "EXTENDS A",
        1,
        "A refused\n  2:9-2:10 E302\nmodules=1 refused=1\n",
    ),
    (
        "VARIABLE x, x\nASSUME x",
        1,
        "A refused\n  2:13-2:14 E402\nmodules=1 refused=1\n",
    ),
    (r"f[x \in 1] == x", 0, "A accepted\nmodules=1 refused=0\n"),
    (
        "CONSTANT c, G(_), _ + _",
        0,
        "A accepted\nmodules=1 refused=0\n",
    ),
    ("THEOREM 1", 0, "A accepted\nmodules=1 refused=0\n"),
    (
        "---- MODULE C ----\n====",
        0,
        "A accepted\nmodules=1 refused=0\n",
    ),
];
