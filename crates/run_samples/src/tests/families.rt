// Small families of modules beside the whole reports that the sentences of the language ask for.
use crate::tests::Case;

/// Families of a few lines.
pub static FAMILIES: [Case; 5] = [
    // Two imports of one name.
    (
        &[("A", "EXTENDS B, C"), ("B", "F == 1"), ("C", "F == 1")],
        1,
        "A refused\n  2:12-2:13 E403\nB accepted\nC accepted\nmodules=3 refused=1\n",
    ),
    // Modules that extend each other.
    (
        &[("A", "EXTENDS B"), ("B", "EXTENDS A")],
        1,
        "A refused\n  2:9-2:10 E302\nB refused\n  2:9-2:10 E302\nmodules=2 refused=2\n",
    ),
    // One that extends a refused module.
    (
        &[("A", "EXTENDS Q"), ("B", "EXTENDS A")],
        1,
        "A refused\n  2:9-2:10 E301\nB refused\n  2:9-2:10 E303\nmodules=2 refused=2\n",
    ),
    // A LOCAL name.
    (
        &[("A", "EXTENDS B\nU == F"), ("B", "LOCAL F == 1")],
        1,
        "A refused\n  3:6-3:7 E401\nB accepted\nmodules=2 refused=1\n",
    ),
    // A file with the name of a built-in module.
    (
        &[("A", "EXTENDS Naturals\nU == F"), ("Naturals", "F == 1")],
        0,
        "A accepted\nNaturals accepted\nmodules=2 refused=0\n",
    ),
];

/// What modules bring to those that extend them.
pub static EXPORTS: [Case; 13] = [
    // Each by itself: numbers and sequences.
    (
        &[
            ("A", "EXTENDS Naturals\nU == 1 .. 2"),
            ("B", "EXTENDS Integers\nU == -Int"),
            ("C", "EXTENDS Reals\nU == 1 / -Real"),
            (
                "D",
                r"EXTENDS Sequences
U == Tail(<<>>) \o <<1>>",
            ),
        ],
        0,
        "A accepted\nB accepted\nC accepted\nD accepted\nmodules=4 refused=0\n",
    ),
    // Each by itself: the others.
    (
        &[
            ("A", "EXTENDS FiniteSets\nU == IsFiniteSet({})"),
            ("B", "EXTENDS Bags\nU == EmptyBag (+) EmptyBag"),
            ("C", "EXTENDS TLC\nU == Print(1, 2 @@ 3)"),
            ("D", "EXTENDS RealTime\nU == now + 1"),
        ],
        0,
        "A accepted\nB accepted\nC accepted\nD accepted\nmodules=4 refused=0\n",
    ),
    // A file hides the built-in module of its name, for the built-in ones too.
    (
        &[
            ("A", "EXTENDS Integers\nU == <<-1, F, 1 + 2>>"),
            ("Naturals", "F == 1"),
        ],
        1,
        "A refused\n  3:17-3:18 E401\nNaturals accepted\nmodules=2 refused=1\n",
    ),
    // So they are refused where the file is.
    (
        &[("A", "EXTENDS Reals"), ("Naturals", "U == V")],
        1,
        "A refused\n  2:9-2:14 E303\nNaturals refused\n  2:6-2:7 E401\nmodules=2 refused=2\n",
    ),
    // And may stand in a circle.
    (
        &[("A", "EXTENDS Integers"), ("Naturals", "EXTENDS Reals")],
        1,
        "A refused\n  2:9-2:17 E303\nNaturals refused\n  2:9-2:14 E302\nmodules=2 refused=2\n",
    ),
    // What is extended brings what it extends.
    (
        &[
            ("A", "EXTENDS B\nU == F"),
            ("B", "EXTENDS C"),
            ("C", "F == 1"),
        ],
        0,
        "A accepted\nB accepted\nC accepted\nmodules=3 refused=0\n",
    ),
    // A name that is reached again is no clash.
    (
        &[
            ("A", "EXTENDS B, C, B, D\nU == F"),
            ("B", "EXTENDS D"),
            ("C", "EXTENDS D"),
            ("D", "F == 1"),
        ],
        0,
        "A accepted\nB accepted\nC accepted\nD accepted\nmodules=4 refused=0\n",
    ),
    // One that is defined again is, and the rest is brought all the same.
    (
        &[
            ("A", "EXTENDS B, C, D\nU == <<F, G>>"),
            ("B", "EXTENDS D"),
            ("C", "F == 1\nG == 2"),
            ("D", "F == 1"),
        ],
        1,
        "A refused\n  2:12-2:13 E403\nB accepted\nC accepted\nD accepted\nmodules=4 refused=1\n",
    ),
    // Whatever declares it.
    (
        &[
            ("A", "EXTENDS B, C, D"),
            ("B", "VARIABLE x"),
            ("C", "CONSTANT x"),
            ("D", "x == 1"),
        ],
        1,
        "A refused\n  2:12-2:13 E403\n  2:15-2:16 E403\nB accepted\nC accepted\nD accepted\nmodules=4 refused=1\n",
    ),
    // Two clashes with one module are one fault.
    (
        &[
            ("A", "EXTENDS Naturals, B"),
            ("B", "a + b == a\na * b == a"),
        ],
        1,
        "A refused\n  2:19-2:20 E403\nB accepted\nmodules=2 refused=1\n",
    ),
    // What is extended is there already.
    (
        &[
            (
                "A",
                r"EXTENDS B
VARIABLE F
U == \A x \in {1} : x = F",
            ),
            ("B", "F == 1\nCONSTANT x"),
        ],
        1,
        "A refused\n  3:10-3:11 E402\n  4:9-4:10 E402\nB accepted\nmodules=2 refused=1\n",
    ),
    // LOCAL names are not exported, and clash with none.
    (
        &[
            ("A", "EXTENDS B\nU == <<G, F, f>>\nF == 3"),
            (
                "B",
                r"LOCAL F == 1
LOCAL f[x \in {1}] == x
G == f[F]",
            ),
        ],
        1,
        "A refused\n  3:11-3:12 E401\n  3:14-3:15 E401\nB accepted\nmodules=2 refused=1\n",
    ),
    // Nor are LOCAL symbols.
    (
        &[
            ("A", "EXTENDS B\nU == V + 2"),
            ("B", "LOCAL a + b == a\nV == 1 + 2"),
        ],
        1,
        "A refused\n  3:8-3:9 E401\nB accepted\nmodules=2 refused=1\n",
    ),
];

/// Which modules are meant, and which are refused.
pub static IMPORTS: [Case; 13] = [
    // Unknown modules are found before names are looked at.
    (
        &[("A", "EXTENDS Q, B, R\nU == V"), ("B", "F == 1")],
        1,
        "A refused\n  2:9-2:10 E301\n  2:15-2:16 E301\nB accepted\nmodules=2 refused=1\n",
    ),
    // Two modules in a circle, one of which also extends what is fine.
    (
        &[
            ("A", "EXTENDS C, B\nU == F"),
            ("B", "EXTENDS A"),
            ("C", "F == 1"),
        ],
        1,
        "A refused\n  2:12-2:13 E302\nB refused\n  2:9-2:10 E302\nC accepted\nmodules=3 refused=2\n",
    ),
    // Three modules in a circle, and one above it.
    (
        &[
            ("A", "EXTENDS B"),
            ("B", "EXTENDS C"),
            ("C", "EXTENDS A"),
            ("D", "EXTENDS A\nU == V"),
        ],
        1,
        "A refused\n  2:9-2:10 E302\nB refused\n  2:9-2:10 E302\nC refused\n  2:9-2:10 E302\nD refused\n  2:9-2:10 E303\nmodules=4 refused=4\n",
    ),
    // A circle through a nested module.
    (
        &[
            ("A", "---- MODULE P ----\nEXTENDS B\n===="),
            ("B", "EXTENDS A"),
        ],
        1,
        "A refused\n  3:9-3:10 E302\nB refused\n  2:9-2:10 E302\nmodules=2 refused=2\n",
    ),
    // A module with a front fault needs nothing.
    (
        &[("A", "EXTENDS B\nU == V"), ("B", "EXTENDS A\n;")],
        1,
        "A refused\n  2:9-2:10 E303\nB refused\n  3:1-3:2 E201\nmodules=2 refused=2\n",
    ),
    // Refused by its names, and by what it extends.
    (
        &[
            ("A", "EXTENDS B\nU == F"),
            ("B", "F == G"),
            ("C", "EXTENDS A, D"),
            ("D", "EXTENDS Q"),
        ],
        1,
        "A refused\n  2:9-2:10 E303\nB refused\n  2:6-2:7 E401\nC refused\n  2:9-2:10 E303\n  2:12-2:13 E303\nD refused\n  2:9-2:10 E301\nmodules=4 refused=4\n",
    ),
    // Who extends a module gets nothing of the nested ones.
    (
        &[
            ("A", "EXTENDS B\nU == F"),
            ("B", "---- MODULE P ----\nF == 1\n===="),
        ],
        1,
        "A refused\n  3:6-3:7 E401\nB accepted\nmodules=2 refused=1\n",
    ),
    // A nested module hides the file of its name, behind it.
    (
        &[
            (
                "A",
                "---- MODULE P ----\nEXTENDS B\nU == F\n====\n---- MODULE B ----\nG == 1\n====\n---- MODULE Q ----\nEXTENDS B\nU == <<G, F>>\n====",
            ),
            ("B", "F == 1"),
        ],
        1,
        "A refused\n  11:11-11:12 E401\nB accepted\nmodules=2 refused=1\n",
    ),
    // So that no circle is there.
    (
        &[
            (
                "A",
                "---- MODULE B ----\nF == 1\n====\n---- MODULE Q ----\nEXTENDS B\nU == F\n====",
            ),
            ("B", "EXTENDS A"),
        ],
        0,
        "A accepted\nB accepted\nmodules=2 refused=0\n",
    ),
    // A nested module of an extended one can't be named.
    (
        &[
            ("A", "EXTENDS B\n---- MODULE P ----\nEXTENDS N\n===="),
            ("B", "---- MODULE N ----\n===="),
        ],
        1,
        "A refused\n  4:9-4:10 E301\nB accepted\nmodules=2 refused=1\n",
    ),
    // A nested module's context holds the names round it: a clash.
    (
        &[
            (
                "A",
                "---- MODULE P ----\nF == 1\n====\nF == 2\n---- MODULE Q ----\nEXTENDS P, B\n====",
            ),
            ("B", "F == 3"),
        ],
        1,
        "A refused\n  7:9-7:10 E403\n  7:12-7:13 E403\nB accepted\nmodules=2 refused=1\n",
    ),
    // No clash, where they are the same.
    (
        &[
            (
                "A",
                "EXTENDS B\n---- MODULE P ----\nEXTENDS B\nG == F\n====\n---- MODULE Q ----\nEXTENDS P, B, P\nU == G\n====",
            ),
            ("B", "F == 1"),
        ],
        0,
        "A accepted\nB accepted\nmodules=2 refused=0\n",
    ),
    // Faults of imports of all nested modules, in order.
    (
        &[
            (
                "A",
                "EXTENDS Q\n---- MODULE P ----\nEXTENDS A, R, B\n====\nU == V",
            ),
            ("B", "U == V"),
        ],
        1,
        "A refused\n  2:9-2:10 E301\n  4:9-4:10 E302\n  4:12-4:13 E301\n  4:15-4:16 E303\nB refused\n  2:6-2:7 E401\nmodules=2 refused=2\n",
    ),
];

/// Modules that hold the word INSTANCE.
pub static INSTANCES: [Case; 13] = [
    (
        &[("A", "INSTANCE C"), ("B", ";")],
        1,
        "A refused\n  2:10-2:11 E301\nB refused\n  2:1-2:2 E201\nmodules=2 refused=2\n",
    ),
    (
        &[("A", "I == INSTANCE C"), ("B", ";")],
        1,
        "A refused\n  2:15-2:16 E301\nB refused\n  2:1-2:2 E201\nmodules=2 refused=2\n",
    ),
    (
        &[("A", "LOCAL INSTANCE C"), ("B", ";")],
        1,
        "A refused\n  2:16-2:17 E301\nB refused\n  2:1-2:2 E201\nmodules=2 refused=2\n",
    ),
    (
        &[("A", "U == LET I == INSTANCE C IN 1"), ("B", ";")],
        1,
        "A refused\n  2:24-2:25 E301\nB refused\n  2:1-2:2 E201\nmodules=2 refused=2\n",
    ),
    (
        &[("A", "---- MODULE C ----\nINSTANCE D\n===="), ("B", ";")],
        1,
        "A refused\n  3:10-3:11 E301\nB refused\n  2:1-2:2 E201\nmodules=2 refused=2\n",
    ),
    // A module with a front fault is not looked into, nor is a comment.
    (
        &[("A", "INSTANCE C\n;"), ("B", ";")],
        1,
        "A refused\n  3:1-3:2 E201\nB refused\n  2:1-2:2 E201\nmodules=2 refused=2\n",
    ),
    (
        &[("A", r"\* INSTANCE C"), ("B", ";")],
        1,
        "A accepted\nB refused\n  2:1-2:2 E201\nmodules=2 refused=1\n",
    ),
    // What an instance brings, and what can be named through it.
    (
        &[("A", "INSTANCE B\nU == F"), ("B", "F == 1")],
        0,
        "A accepted\nB accepted\nmodules=2 refused=0\n",
    ),
    (
        &[("A", "I == INSTANCE B\nU == I!F"), ("B", "F == 1")],
        0,
        "A accepted\nB accepted\nmodules=2 refused=0\n",
    ),
    (
        &[("A", "I == INSTANCE B\nU == I!G"), ("B", "F == 1")],
        1,
        "A refused\n  3:8-3:9 E401\nB accepted\nmodules=2 refused=1\n",
    ),
    // A clash, a left side that is no parameter, and a parameter that is not replaced.
    (
        &[("A", "F == 2\nINSTANCE B"), ("B", "F == 1")],
        1,
        "A refused\n  3:10-3:11 E404\nB accepted\nmodules=2 refused=1\n",
    ),
    (
        &[("A", "INSTANCE B WITH d <- 1"), ("B", "F == 1")],
        1,
        "A refused\n  2:17-2:18 E405\nB accepted\nmodules=2 refused=1\n",
    ),
    (
        &[("A", "INSTANCE B"), ("B", "CONSTANT c")],
        1,
        "A refused\n  2:10-2:11 E407\nB accepted\nmodules=2 refused=1\n",
    ),
];
