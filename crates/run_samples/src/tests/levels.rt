// Modules beside the whole reports that the sentences of the language ask for, by their levels.
use crate::tests::{Case, Single};

/// Modules in which forms take operands of such levels, or do not.
pub static LEVELS: [Single; 5] = [
    // An action stands under a box as a step that may stutter, also where it is handed on.
    (
        "VARIABLE v\nN == v' = v\nF(P) == []P\nG == F([N]_v)\nH == F(v' = 1)",
        1,
        "A refused\n  6:6-6:15 E601\nmodules=1 refused=1\n",
    ),
    // What is assumed is constant.
    (
        "VARIABLE y\nASSUME y = 1",
        1,
        "A refused\n  3:8-3:13 E602\nmodules=1 refused=1\n",
    ),
    // An operator that is handed on takes what its definition was given.
    (
        "VARIABLE v\nF(G(_)) == G(1)\nH(x) == LET K(n) == <<x, n>> IN F(K)\nU == H(v)\nV == H(v')'",
        1,
        "A refused\n  6:6-6:12 E601\nmodules=1 refused=1\n",
    ),
    // Whether a step can be taken has a value in each state.
    (
        "VARIABLE x\nU == ENABLED (x')\nV == U'",
        0,
        "A accepted\nmodules=1 refused=0\n",
    ),
    // Names come first: with an unknown one levels are not looked at.
    (
        "VARIABLE x\nU == (x')'\nV == W",
        1,
        "A refused\n  4:6-4:7 E401\nmodules=1 refused=1\n",
    ),
];

/// Families whose modules are refused for levels, or not.
pub static LEVELED: [Case; 3] = [
    // What stands for a variable behind an instance has a value in each state.
    (
        &[
            (
                "A",
                "VARIABLE y\nI(p) == INSTANCE M WITH x <- p\nU == I(y')!Op",
            ),
            ("M", "VARIABLE x\nOp == x' = 1"),
        ],
        1,
        "A refused\n  4:6-4:14 E601\nM accepted\nmodules=2 refused=1\n",
    ),
    // A constant is replaced by constants alone.
    (
        &[
            (
                "A",
                "VARIABLE y\nASSUME y = 1\nI == INSTANCE M WITH c <- y, x <- y",
            ),
            ("M", "CONSTANT c\nVARIABLE x"),
        ],
        1,
        "A refused\n  3:8-3:13 E602\n  4:27-4:28 E603\nM accepted\nmodules=2 refused=1\n",
    ),
    // A module that is refused for its levels is refused to those that need it.
    (
        &[("A", "EXTENDS B"), ("B", "VARIABLE x\nASSUME x = 1")],
        1,
        "A refused\n  2:9-2:10 E303\nB refused\n  3:8-3:13 E602\nmodules=2 refused=2\n",
    ),
];
