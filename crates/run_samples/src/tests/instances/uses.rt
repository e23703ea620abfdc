// Where names behind instances are used beside the whole reports on them.
use crate::tests::Case;

/// Uses in expressions and replacements.
pub static USES: [Case; 8] = [
    // Functions, fields, primes behind an instance.
    (
        &[
            (
                "A",
                "VARIABLE x\nI == INSTANCE B\nU == <<I!f[1], I!F.a, I!f(1)>>\nV == I!F' = [I!F EXCEPT !.a = I!G]",
            ),
            (
                "B",
                r"VARIABLE x
f[y \in {1}] == y
F == x",
            ),
        ],
        1,
        "A refused\n  4:25-4:26 E501\n  5:33-5:34 E401\nB accepted\nmodules=2 refused=1\n",
    ),
    // Paths in bounds, assumptions and theorems.
    (
        &[
            (
                "A",
                r"I == INSTANCE B
U == \A y \in I!S : y = I!F
ASSUME I!F = 1
THEOREM I!F = I!G
f[y \in I!S, z \in I!T] == {I!F}",
            ),
            ("B", "F == 1\nS == {1}"),
        ],
        1,
        "A refused\n  5:17-5:18 E401\n  6:22-6:23 E401\nB accepted\nmodules=2 refused=1\n",
    ),
    // Paths on the right of a replacement.
    (
        &[
            (
                "A",
                "I == INSTANCE B\nJ == INSTANCE C WITH c <- I!F, G <- I!K\nL == INSTANCE C WITH c <- L!F, G <- I!F\nM == INSTANCE C WITH c <- I!K, G <- I!Z",
            ),
            ("B", "F == 1\nK(x) == x"),
            ("C", "CONSTANTS c, G(_)\nH == G(c)"),
        ],
        1,
        "A refused\n  4:27-4:28 E401\n  4:37-4:40 E502\n  5:29-5:30 E502\n  5:39-5:40 E401\nB accepted\nC accepted\nmodules=3 refused=1\n",
    ),
    // An instance with a symbol for its argument.
    (
        &[
            (
                "A",
                r"EXTENDS Naturals
I(G(_, _)) == INSTANCE B WITH ++ <- G
U == <<I(+ )!F, I(\cup)!F, I(')!F>>",
            ),
            ("B", "CONSTANT _ ++ _\nF == 1 ++ 2"),
            ("C", "I(G(_, _)) == INSTANCE B WITH ++ <- G\nU == I(+ )!F"),
        ],
        1,
        "A refused\n  4:30-4:31 E502\nB accepted\nC refused\n  3:8-3:9 E401\nmodules=3 refused=2\n",
    ),
    // Symbols that an INSTANCE without a name brings.
    (
        &[
            ("A", "LOCAL INSTANCE Integers\nU == -1 + 2"),
            ("B", "N == INSTANCE Integers\nU == -1 + N!Int"),
            ("C", "EXTENDS A\nV == -U"),
        ],
        1,
        "A accepted\nB refused\n  3:6-3:7 E401\n  3:9-3:10 E401\nC refused\n  3:6-3:7 E401\nmodules=3 refused=2\n",
    ),
    // What is replaced by a name that came without one.
    (
        &[
            ("A", "INSTANCE D\nI == INSTANCE B\nU == I!F"),
            ("B", "CONSTANT c\nF == c"),
            ("D", "c == 1"),
            (
                "E",
                "J == INSTANCE D\nI == INSTANCE B\nK == INSTANCE B WITH c <- J!c",
            ),
        ],
        1,
        "A accepted\nB accepted\nD accepted\nE refused\n  3:15-3:16 E407\nmodules=4 refused=1\n",
    ),
    // Several faults of one INSTANCE.
    (
        &[
            ("A", "F == 1\nINSTANCE B WITH d <- Z, e <- 1, e <- F!G"),
            ("B", "CONSTANTS c, e\nF == c"),
        ],
        1,
        "A refused\n  3:10-3:11 E404\n  3:10-3:11 E407\n  3:17-3:18 E405\n  3:22-3:23 E401\n  3:33-3:34 E406\n  3:40-3:41 E401\nB accepted\nmodules=2 refused=1\n",
    ),
    // Names of instances in brackets, sets and IF.
    (
        &[
            (
                "A",
                "I == INSTANCE B\nU == {I!F, I}\nV == IF I!F = 1 THEN I ELSE I!I\nW == [I |-> I!F]\nX == W.I",
            ),
            ("B", "F == 1"),
        ],
        1,
        "A refused\n  3:12-3:13 E502\n  4:22-4:23 E502\n  4:31-4:32 E401\nB accepted\nmodules=2 refused=1\n",
    ),
];
