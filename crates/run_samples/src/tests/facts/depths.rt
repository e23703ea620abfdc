// Definitions at the depth that is allowed, and deeper ones.

/// Lines below those of `TOWER`; the status; and the report. Beside the module there is `M`.
pub type Deep = (&'static str, u8, &'static str);

/// The lines of that module.
pub const M: &str = "VARIABLE x\nF == x";

/// The first lines of a module, from line 2 on. An operator that is handed on counts beside the one
/// that takes it, so that each pair is twice as deep as the one before, and one more: `P9` has a
/// depth of 511. The others have those of their names; `P9(R489)` has 1,000.
pub const TOWER: &str = "P1(G(_)) == G(1)
Q1(a) == a
P2(G(_)) == P1(Q1)
Q2(a) == P1(Q1)
P3(G(_)) == P2(Q2)
Q3(a) == P2(Q2)
P4(G(_)) == P3(Q3)
Q4(a) == P3(Q3)
P5(G(_)) == P4(Q4)
Q5(a) == P4(Q4)
P6(G(_)) == P5(Q5)
Q6(a) == P5(Q5)
P7(G(_)) == P6(Q6)
Q7(a) == P6(Q6)
P8(G(_)) == P7(Q7)
Q8(a) == P7(Q7)
P9(G(_)) == P8(Q8)
R39(a) == P5(Q3)
R103(a) == P6(R39)
R231(a) == P7(R103)
R487(a) == P8(R231)
R488(a) == R487(a)
R489(a) == R488(a)
";

/// Definitions, assumptions and theorems of a depth of 1,000, and deeper ones.
pub static DEPTHS: [Deep; 4] = [
    // A definition is one deeper than what it holds, and a theorem is not. An expression does not
    // count beside the operator that takes it.
    (
        "U == P9(R488)\nTHEOREM P9(R489)\nW == R489(P9(R488))",
        0,
        "A accepted\nM accepted\nmodules=2 refused=0\n",
    ),
    // Uses in LET and in sets count. Levels are not looked at then.
    (
        r"U == P9(R488)
V == P9(R489)
THEOREM P9(R489)
R490(a) == R489(a)
THEOREM P9(R490)
ASSUME P9(R490)
W == R489(P9(R488))
X == LET L == P9(R489) IN 1
f[y \in {P9(R489)}] == y
Y == 1''",
        1,
        "A refused
  26:1-26:2 E106
  29:1-29:8 E106
  30:1-30:7 E106
  32:1-32:2 E106
  32:10-32:11 E106
  33:1-33:2 E106
M accepted
modules=2 refused=1
",
    ),
    // What replaces and what is handed to an instance counts, also where it is not written, and
    // that of an instance without a name.
    (
        "I(p) == INSTANCE M WITH x <- p
J == INSTANCE M WITH x <- P9(R488)
K == INSTANCE M WITH x <- P9(R487)
L == INSTANCE M WITH x <- P9(R489)
INSTANCE M WITH x <- P9(R488)
U == I(P9(R487))!F
V == I(P9(R488))!F
W == K!F
X == J!F
Y == F
x == P9(R487)
O == INSTANCE M
Z == O!F",
        1,
        "A refused
  28:1-28:2 E106
  31:1-31:2 E106
  33:1-33:2 E106
  34:1-34:2 E106
  37:1-37:2 E106
M accepted
modules=2 refused=1
",
    ),
    // Names come before depths.
    (
        "U == P9(R489)\nV == Z",
        1,
        "A refused\n  26:6-26:7 E401\nM accepted\nmodules=2 refused=1\n",
    ),
];
