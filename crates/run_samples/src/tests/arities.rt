// Single modules beside the whole reports that the sentences of the language ask for.
use crate::tests::Single;

/// Modules in which operators and expressions are used as what they are, or are not.
pub static ARITIES: [Single; 20] = [
    // A bare operator where an expression is due.
    (
        "F(x) == x\nU == F",
        1,
        "A refused\n  3:6-3:7 E502\nmodules=1 refused=1\n",
    ),
    // A wrong number of arguments.
    (
        "F(x) == x\nU == F(1, 2)",
        1,
        "A refused\n  3:6-3:7 E501\nmodules=1 refused=1\n",
    ),
    // Constants take no argument, nor does what is built in.
    (
        "CONSTANT c\nU == c(1)\nV == TRUE(1)",
        1,
        "A refused\n  3:6-3:7 E501\n  4:6-4:10 E501\nmodules=1 refused=1\n",
    ),
    // A function is applied in brackets.
    (
        r"f[x \in {1}] == x
U == f[1]
V == f(1)",
        1,
        "A refused\n  4:6-4:7 E501\nmodules=1 refused=1\n",
    ),
    // A bound name takes no argument.
    (
        r"U == \A x \in {1} : x(1) = 1",
        1,
        "A refused\n  2:21-2:22 E501\nmodules=1 refused=1\n",
    ),
    // A parameter that is an operator stands bare in its body.
    (
        "F(G(_)) == G",
        1,
        "A refused\n  2:12-2:13 E502\nmodules=1 refused=1\n",
    ),
    // An operator is given where one is due; in parentheses it is an expression.
    (
        "F(G(_)) == G(1)\nH(x) == x\nU == F(H)\nV == F((H))",
        1,
        "A refused\n  5:8-5:11 E502\n  5:9-5:10 E502\nmodules=1 refused=1\n",
    ),
    // An expression where an operator is due.
    (
        "F(G(_)) == G(1)\nU == F(1)",
        1,
        "A refused\n  3:8-3:9 E502\nmodules=1 refused=1\n",
    ),
    // An operator that takes another number of arguments.
    (
        "F(G(_)) == G(1)\nH(x, y) == x\nU == F(H)",
        1,
        "A refused\n  4:8-4:9 E502\nmodules=1 refused=1\n",
    ),
    // An operator that takes an operator.
    (
        "F(G(_)) == G(1)\nU == F(F)",
        1,
        "A refused\n  3:8-3:9 E502\nmodules=1 refused=1\n",
    ),
    // Symbols are operators, also those that are built in.
    (
        r"a ++ b == a
F(G(_, _)) == G(1, 2)
H(G(_)) == G(1)
U == <<F(++), F(\cup), H(SUBSET), H(')>>",
        0,
        "A accepted\nmodules=1 refused=0\n",
    ),
    // A symbol between two operands where one of one operand is due.
    (
        r"F(G(_)) == G(1)
U == F(\cup)",
        1,
        "A refused\n  3:8-3:12 E502\nmodules=1 refused=1\n",
    ),
    // Nothing is due of a surplus argument.
    (
        "F(x) == x\nG(y) == y\nU == F(1, G)",
        1,
        "A refused\n  4:6-4:7 E501\nmodules=1 refused=1\n",
    ),
    // Nothing is due of an argument of a name that means nothing; inside of it a set has expressions.
    (
        "G(y) == y\nU == Z(G, {G})",
        1,
        "A refused\n  3:6-3:7 E401\n  3:12-3:13 E502\nmodules=1 refused=1\n",
    ),
    // A name that means nothing, bare and with arguments, where an operator is due.
    (
        "F(G(_)) == G(1)\nU == F(Z)\nV == F(Z(1))",
        1,
        "A refused\n  3:8-3:9 E401\n  4:8-4:9 E401\n  4:8-4:12 E502\nmodules=1 refused=1\n",
    ),
    // In a LET as elsewhere.
    (
        "U == LET F(x) == x IN F",
        1,
        "A refused\n  2:23-2:24 E502\nmodules=1 refused=1\n",
    ),
    // Faults of names and of arities in one order.
    (
        "F(x) == x\nU == <<F, V, F(1, 2)>>",
        1,
        "A refused\n  3:8-3:9 E502\n  3:11-3:12 E401\n  3:14-3:15 E501\nmodules=1 refused=1\n",
    ),
    // The at sign outside of EXCEPT, and in an index.
    (
        r"f[x \in {1}] == x
U == @
V == [f EXCEPT ![@] = @]",
        1,
        "A refused\n  3:6-3:7 E503\n  4:18-4:19 E503\nmodules=1 refused=1\n",
    ),
    // The function and the indices of an inner EXCEPT stand in a right side of the outer one.
    (
        r"f[x \in {1}] == x
V == [f EXCEPT ![1] = [@ EXCEPT ![@] = 2]]",
        0,
        "A accepted\nmodules=1 refused=0\n",
    ),
    // A definition in the right side stands in it.
    (
        r"f[x \in {1}] == x
V == [f EXCEPT ![1] = LET u == @ IN u]",
        0,
        "A accepted\nmodules=1 refused=0\n",
    ),
];
