// Instances as names, with arguments, beside the whole reports on them.
use crate::tests::Case;

/// Names of instances, and their arguments.
pub static SEGMENTS: [Case; 16] = [
    // The name of an instance is new.
    (
        &[
            (
                "A",
                r"F == 1
F == INSTANCE B
U == F
I == INSTANCE B
I == 2
V == \A I \in {1} : TRUE",
            ),
            ("B", "G == 1"),
        ],
        1,
        "A refused\n  3:1-3:2 E402\n  6:1-6:2 E402\n  7:9-7:10 E402\nB accepted\nmodules=2 refused=1\n",
    ),
    // So are its parameters.
    (
        &[
            (
                "A",
                "VARIABLE x\nI(x) == INSTANCE B\nJ(J) == INSTANCE B\nK(y, y) == INSTANCE B",
            ),
            ("B", "G == 1"),
        ],
        1,
        "A refused\n  3:3-3:4 E402\n  4:3-4:4 E402\n  5:6-5:7 E402\nB accepted\nmodules=2 refused=1\n",
    ),
    // Names behind an instance are not taken.
    (
        &[
            ("A", "I == INSTANCE B\nF(G) == <<I!F, G>>\nU == F(I!G)"),
            ("B", "F == 1\nG == 2"),
        ],
        0,
        "A accepted\nB accepted\nmodules=2 refused=0\n",
    ),
    // Arguments mean what they mean at their place.
    (
        &[
            ("A", "I == INSTANCE B\nU == <<I!F(G), I!F(I!G)>>"),
            ("B", "F(x) == x\nG == 1"),
        ],
        1,
        "A refused\n  3:12-3:13 E401\nB accepted\nmodules=2 refused=1\n",
    ),
    // A number of arguments behind an instance.
    (
        &[
            (
                "A",
                "I == INSTANCE B\nU == <<I!F(1), I!F(1, 2), I!F, I!G(1)>>",
            ),
            ("B", "F(x) == x\nG == 1"),
        ],
        1,
        "A refused\n  3:18-3:19 E501\n  3:29-3:30 E502\n  3:34-3:35 E501\nB accepted\nmodules=2 refused=1\n",
    ),
    // A built-in module.
    (
        &[(
            "A",
            "S == INSTANCE Sequences\nF(x) == TRUE\nU == <<S!Len(<<>>), S!Len(1, 2), S!Head, S!SelectSeq(<<>>, F)>>",
        )],
        1,
        "A refused\n  4:23-4:26 E501\n  4:36-4:40 E502\nmodules=1 refused=1\n",
    ),
    // An operator as an argument, by a name or a path.
    (
        &[
            (
                "A",
                "I == INSTANCE B\nG(x) == x\nU == <<I!F(G), I!F(I!K), I!F(1), I!F(I!F), I!F(I!K(1))>>",
            ),
            ("B", "F(H(_)) == H(1)\nK(x) == x"),
        ],
        1,
        "A refused\n  4:30-4:31 E502\n  4:38-4:41 E502\n  4:48-4:54 E502\nB accepted\nmodules=2 refused=1\n",
    ),
    // A path that means nothing, where an operator is due.
    (
        &[
            ("A", "I == INSTANCE B\nU == <<I!F(I!Z), I!F(I!Z(1))>>"),
            ("B", "F(H(_)) == H(1)"),
        ],
        1,
        "A refused\n  3:14-3:15 E401\n  3:22-3:28 E502\n  3:24-3:25 E401\nB accepted\nmodules=2 refused=1\n",
    ),
    // An instance without anything behind it is no expression.
    (
        &[
            (
                "A",
                "I == INSTANCE B\nJ(x) == INSTANCE B\nU == <<I, I!F>>\nV == <<J(1), J(1, 2), J>>",
            ),
            ("B", "F == 1"),
        ],
        1,
        "A refused\n  4:8-4:9 E502\n  5:8-5:9 E502\n  5:14-5:15 E501\n  5:14-5:15 E502\n  5:23-5:24 E502\nB accepted\nmodules=2 refused=1\n",
    ),
    // Nor is a path to one, nor is it an operator.
    (
        &[
            (
                "A",
                "I == INSTANCE B\nU == I!J\nG(H(_)) == H(1)\nV == <<G(I), G(I!J), I!J!F>>",
            ),
            ("B", "J == INSTANCE C"),
            ("C", "F == 1"),
        ],
        1,
        "A refused\n  3:8-3:9 E502\n  5:10-5:11 E502\n  5:16-5:19 E502\nB accepted\nC accepted\nmodules=3 refused=1\n",
    ),
    // An instance with a parameter has its argument before each name behind it.
    (
        &[
            (
                "A",
                "I(x) == INSTANCE B\nJ == INSTANCE B\nU == <<I(1)!F, I!F, I(1, 2)!F, I!Z, J(1)!F>>",
            ),
            ("B", "F == 1"),
        ],
        1,
        "A refused\n  4:16-4:17 E501\n  4:21-4:22 E501\n  4:32-4:33 E501\n  4:34-4:35 E401\n  4:37-4:38 E501\nB accepted\nmodules=2 refused=1\n",
    ),
    // So it is where it is extended, and in the midst of a path.
    (
        &[
            (
                "A",
                "EXTENDS B\nI == INSTANCE B\nU == <<J(1)!F, J!F, I!J(1)!F, I!J!F, I(1)!J(1)!F>>",
            ),
            ("B", "J(y) == INSTANCE C WITH c <- y"),
            ("C", "CONSTANT c\nF == c"),
        ],
        1,
        "A refused\n  4:16-4:17 E501\n  4:33-4:34 E501\n  4:38-4:39 E501\nB accepted\nC accepted\nmodules=3 refused=1\n",
    ),
    // Arguments of all segments.
    (
        &[
            (
                "A",
                "I(x) == INSTANCE B WITH c <- x\nF(x) == x\nU == I(1)!J(2)!G(3)\nV == I(F)!J(Z)!G(F)",
            ),
            ("B", "CONSTANT c\nJ(y) == INSTANCE C WITH d <- <<c, y>>"),
            ("C", "CONSTANT d\nG(z) == <<d, z>>"),
        ],
        1,
        "A refused\n  5:8-5:9 E502\n  5:13-5:14 E401\n  5:18-5:19 E502\nB accepted\nC accepted\nmodules=3 refused=1\n",
    ),
    // A parameter that is an operator.
    (
        &[
            (
                "A",
                "I(G(_)) == INSTANCE B WITH H <- G\nK(x) == x\nU == <<I(K)!F, I(1)!F, I((K))!F>>",
            ),
            ("B", "CONSTANT H(_)\nF == H(1)"),
        ],
        1,
        "A refused\n  4:18-4:19 E502\n  4:26-4:29 E502\n  4:27-4:28 E502\nB accepted\nmodules=2 refused=1\n",
    ),
    // What is no instance: arguments in a wrong number, and none.
    (
        &[("A", "G(x) == x\nU == <<G!Z, G(1, 2)!Z, G(1)!Z>>")],
        1,
        "A refused\n  3:10-3:11 E401\n  3:13-3:14 E501\n  3:21-3:22 E401\n  3:29-3:30 E401\nmodules=1 refused=1\n",
    ),
    // An instance in the body of an operator, by its parameter and by a bound name.
    (
        &[
            (
                "A",
                r"F(c) == LET I == INSTANCE B IN I!G
U == \A c \in {1} : LET I == INSTANCE B IN I!G = F(c)
V == LET I == INSTANCE B IN I!G",
            ),
            ("B", "CONSTANT c\nG == c"),
        ],
        1,
        "A refused\n  4:24-4:25 E407\nB accepted\nmodules=2 refused=1\n",
    ),
];
