// Modules that hold modules beside the whole reports that the sentences of the language ask for.
use crate::tests::Single;

/// Modules with nested ones.
pub static NESTED: [Single; 16] = [
    // A nested module begins with the names before it.
    (
        "CONSTANT c\n---- MODULE P ----\nU == <<c, d>>\n====\nCONSTANT d",
        1,
        "A refused\n  4:11-4:12 E401\nmodules=1 refused=1\n",
    ),
    // Which it can't declare again.
    (
        "CONSTANT c\n---- MODULE P ----\nVARIABLE c\nF(c) == c\n====",
        1,
        "A refused\n  4:10-4:11 E402\n  5:3-5:4 E402\nmodules=1 refused=1\n",
    ),
    // Its names stay in it.
    (
        "---- MODULE P ----\nF == 1\n====\nU == F\nF == 2",
        1,
        "A refused\n  5:6-5:7 E401\nmodules=1 refused=1\n",
    ),
    // So do those of what it extends.
    (
        "---- MODULE P ----\nEXTENDS Naturals\nU == 1 + 2\n====\nU == 1 + 2",
        1,
        "A refused\n  6:8-6:9 E401\nmodules=1 refused=1\n",
    ),
    // A nested module exports its own names.
    (
        "---- MODULE P ----\nF == 1\nLOCAL G == 2\n====\n---- MODULE Q ----\nEXTENDS P\nU == <<F, G>>\n====",
        1,
        "A refused\n  8:11-8:12 E401\nmodules=1 refused=1\n",
    ),
    // It can be named behind it alone.
    (
        "---- MODULE P ----\nEXTENDS Q\n====\n---- MODULE Q ----\n====",
        1,
        "A refused\n  3:9-3:10 E301\nmodules=1 refused=1\n",
    ),
    // In inner modules too, but what is in it only there.
    (
        "---- MODULE P ----\nF == 1\n====\n---- MODULE Q ----\n---- MODULE R ----\nEXTENDS P\nU == F\n====\n====\n---- MODULE S ----\nEXTENDS R\n====",
        1,
        "A refused\n  12:9-12:10 E301\nmodules=1 refused=1\n",
    ),
    // There it can be named.
    (
        "---- MODULE P ----\n---- MODULE Q ----\nF == 1\n====\n---- MODULE R ----\nEXTENDS Q\nU == F\n====\n====",
        0,
        "A accepted\nmodules=1 refused=0\n",
    ),
    // It hides a built-in module.
    (
        "---- MODULE Naturals ----\nF == 1\n====\n---- MODULE Q ----\nEXTENDS Naturals\nU == F + 2\n====",
        1,
        "A refused\n  7:8-7:9 E401\nmodules=1 refused=1\n",
    ),
    // A second nested module of a name is never meant.
    (
        "---- MODULE P ----\nF == 1\n====\n---- MODULE P ----\nG == H\n====\n---- MODULE Q ----\nEXTENDS P\nU == <<F, G>>\n====",
        1,
        "A refused\n  5:13-5:14 E402\n  6:6-6:7 E401\n  10:11-10:12 E401\nmodules=1 refused=1\n",
    ),
    // Nor may one inside another have a name that is visible there.
    (
        "---- MODULE P ----\n====\n---- MODULE Q ----\n---- MODULE P ----\n====\n====",
        1,
        "A refused\n  5:13-5:14 E402\nmodules=1 refused=1\n",
    ),
    // Names inside of two nested modules may be the same.
    (
        "---- MODULE P ----\n---- MODULE R ----\n====\n====\n---- MODULE Q ----\n---- MODULE R ----\n====\n====\n---- MODULE R ----\n====",
        0,
        "A accepted\nmodules=1 refused=0\n",
    ),
    // The names of the modules round a nested one are taken.
    (
        "---- MODULE A ----\n====\n---- MODULE P ----\n---- MODULE P ----\n====\n====",
        1,
        "A refused\n  2:13-2:14 E402\n  5:13-5:14 E402\nmodules=1 refused=1\n",
    ),
    // And can't be extended.
    (
        "---- MODULE P ----\nEXTENDS A\n---- MODULE Q ----\nEXTENDS P, A\n====\n====",
        1,
        "A refused\n  3:9-3:10 E302\n  5:9-5:10 E302\n  5:12-5:13 E302\nmodules=1 refused=1\n",
    ),
    // Even where a nested module has such a name.
    (
        "---- MODULE A ----\nF == 1\n====\n---- MODULE P ----\nEXTENDS A\n====",
        1,
        "A refused\n  6:9-6:10 E302\nmodules=1 refused=1\n",
    ),
    // Modules and symbols are named apart.
    (
        "A == 1\nP == 2\n---- MODULE P ----\nU == <<A, P>>\n====\nVARIABLE U",
        0,
        "A accepted\nmodules=1 refused=0\n",
    ),
];
