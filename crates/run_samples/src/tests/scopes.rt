// Single modules beside the whole reports that the sentences of the language ask for.
use crate::tests::Single;

/// Modules without nested ones: where names are added, and what uses of them mean.
pub static SCOPES: [Single; 53] = [
    // A name that nothing declares.
    (
        "U == V",
        1,
        "A refused\n  2:6-2:7 E401\nmodules=1 refused=1\n",
    ),
    // Definitions are added in order.
    (
        "U == V\nV == U",
        1,
        "A refused\n  2:6-2:7 E401\nmodules=1 refused=1\n",
    ),
    // An operator can't be used in its own definition.
    (
        "F(x) == F(x)",
        1,
        "A refused\n  2:9-2:10 E401\nmodules=1 refused=1\n",
    ),
    // A symbol means something only where a module defines it.
    (
        "U == 1 + 2 * 3",
        1,
        "A refused\n  2:8-2:9 E401\n  2:12-2:13 E401\nmodules=1 refused=1\n",
    ),
    // Minus before its operand is another entity than minus between two.
    (
        "EXTENDS Naturals\nU == 2 - 1\nV == -1",
        1,
        "A refused\n  4:6-4:7 E401\nmodules=1 refused=1\n",
    ),
    // A postfix symbol.
    (
        "U == {1} ^+",
        1,
        "A refused\n  2:10-2:12 E401\nmodules=1 refused=1\n",
    ),
    // Symbols that are passed; a built-in one needs no module.
    (
        r"F(G(_, _)) == G(1, 2)
H(G(_)) == G(1)
U == <<F(\cup), F(%), H(-.)>>",
        1,
        "A refused\n  4:19-4:20 E401\n  4:25-4:27 E401\nmodules=1 refused=1\n",
    ),
    // No name is an instance; what follows a second segment is not looked at.
    (
        "F == 1\nU == F!G!H(K)",
        1,
        "A refused\n  3:8-3:9 E401\nmodules=1 refused=1\n",
    ),
    // What an unknown name is applied to is looked at.
    (
        "U == G(H)!K(L)",
        1,
        "A refused\n  2:6-2:7 E401\n  2:8-2:9 E401\nmodules=1 refused=1\n",
    ),
    // So are the arguments of the segments up to an unknown one.
    (
        "F(x) == x\nU == F(a)!G(b)!H(c)",
        1,
        "A refused\n  3:8-3:9 E401\n  3:11-3:12 E401\n  3:13-3:14 E401\nmodules=1 refused=1\n",
    ),
    // Assumptions and theorems.
    (
        "ASSUME c = 1\nTHEOREM d = 1",
        1,
        "A refused\n  2:8-2:9 E401\n  3:9-3:10 E401\nmodules=1 refused=1\n",
    ),
    // Names in subscripts and in EXCEPT.
    (
        "U == [P]_v\nV == WF_w(Q)\nW == [f EXCEPT !.a[i] = e]",
        1,
        "A refused\n  2:7-2:8 E401\n  2:10-2:11 E401\n  3:9-3:10 E401\n  3:11-3:12 E401\n  4:7-4:8 E401\n  4:20-4:21 E401\n  4:25-4:26 E401\nmodules=1 refused=1\n",
    ),
    // Fields are no names.
    (
        "U == [a |-> 1].a\nV == [a : {2}, b : {3}]\nW == [U EXCEPT !.a = 4]",
        0,
        "A accepted\nmodules=1 refused=0\n",
    ),
    // Built-in symbols need no module.
    (
        r"VARIABLE x
U == {1} \cup SUBSET DOMAIN x # UNION {x'}",
        0,
        "A accepted\nmodules=1 refused=0\n",
    ),
    // A name that is declared stays what it is.
    (
        r"VARIABLE x
CONSTANT x(_)
x == 1
x[y \in {2}] == y
U == x",
        1,
        "A refused\n  3:10-3:11 E402\n  4:1-4:2 E402\n  5:1-5:2 E402\nmodules=1 refused=1\n",
    ),
    // In the body of a refused definition the name is the old entity.
    (
        "F == 1\nF == F\nU == F",
        1,
        "A refused\n  3:1-3:2 E402\nmodules=1 refused=1\n",
    ),
    // A bound name hides nothing of its module.
    (
        r"CONSTANT c
VARIABLE v
F == 1
U == \A c, v \in {2} : \E F \in {3} : c = v",
        1,
        "A refused\n  5:9-5:10 E402\n  5:12-5:13 E402\n  5:27-5:28 E402\nmodules=1 refused=1\n",
    ),
    // Nor a parameter, which its own set may name.
    (
        r"F(p) == \E p \in {p} : p = 1",
        1,
        "A refused\n  2:12-2:13 E402\nmodules=1 refused=1\n",
    ),
    // Nor another bound name.
    (
        r"U == \A x \in {1} : \E x \in {x} : x = 1",
        1,
        "A refused\n  2:24-2:25 E402\nmodules=1 refused=1\n",
    ),
    // A name twice in a list of bounds, and in a list of names.
    (
        r"U == \A x \in {1}, x \in {2} : x = 1
V == \E y, y : y = 1",
        1,
        "A refused\n  2:20-2:21 E402\n  3:12-3:13 E402\nmodules=1 refused=1\n",
    ),
    // A name twice in tuples of bounds.
    (
        r"U == \A <<x, x>> \in {1}, <<y, x>> \in {2} : y = x",
        1,
        "A refused\n  2:14-2:15 E402\n  2:32-2:33 E402\nmodules=1 refused=1\n",
    ),
    // A definition's name as its own parameter, and a parameter twice.
    (
        "F(F) == 1\nG(x, x(_)) == x",
        1,
        "A refused\n  2:3-2:4 E402\n  3:6-3:7 E402\nmodules=1 refused=1\n",
    ),
    // A definition in a LET hides nothing.
    (
        "F == 1\nU == LET F == 2 v == F IN LET v == 3 IN v",
        1,
        "A refused\n  3:10-3:11 E402\n  3:31-3:32 E402\nmodules=1 refused=1\n",
    ),
    // Nor the name that is being defined, which can't be used in it.
    (
        "U == LET U == 1 IN U",
        1,
        "A refused\n  2:10-2:11 E402\n  2:20-2:21 E401\nmodules=1 refused=1\n",
    ),
    // Definitions in a LET are added in order, for it alone.
    (
        "U == LET a == b b == 1 IN a\nV == b",
        1,
        "A refused\n  2:15-2:16 E401\n  3:6-3:7 E401\nmodules=1 refused=1\n",
    ),
    // What a LET held can be defined behind it.
    (
        r"U == LET G(x) == x f[y \in {1}] == G(y) IN f[1]
x == U
y == x
f == y",
        0,
        "A accepted\nmodules=1 refused=0\n",
    ),
    // The built-in names are there already.
    (
        r"TRUE == 1
U == \A STRING \in {1} : TRUE
F(BOOLEAN) == FALSE",
        1,
        "A refused\n  2:1-2:5 E402\n  3:9-3:15 E402\n  4:3-4:10 E402\nmodules=1 refused=1\n",
    ),
    // A built-in name is no instance.
    (
        "U == TRUE!x",
        1,
        "A refused\n  2:11-2:12 E401\nmodules=1 refused=1\n",
    ),
    // A function's name as its own bound name.
    (
        r"f[f \in {1}] == 2",
        1,
        "A refused\n  2:3-2:4 E402\nmodules=1 refused=1\n",
    ),
    // A function can be used in its body.
    (
        r"f[x, y \in {1}, <<z>> \in {2}] == f[x, y, z]",
        0,
        "A accepted\nmodules=1 refused=0\n",
    ),
    // But not in the sets of its bounds.
    (
        r"f[x \in {f}] == f[x]",
        1,
        "A refused\n  2:10-2:11 E401\nmodules=1 refused=1\n",
    ),
    // Nor can its other bound names.
    (
        r"f[x \in {1}, y \in {x}] == <<x, y>>",
        1,
        "A refused\n  2:21-2:22 E401\nmodules=1 refused=1\n",
    ),
    // Sets of bounds stand outside the scope of the whole list.
    (
        r"U == \A x \in {x}, y \in {x} : x = y",
        1,
        "A refused\n  2:16-2:17 E401\n  2:27-2:28 E401\nmodules=1 refused=1\n",
    ),
    // What stands before bounds is in their scope.
    (
        r"U == {x : x \in {1}}
V == {y : x \in {x}}",
        1,
        "A refused\n  3:7-3:8 E401\n  3:18-3:19 E401\nmodules=1 refused=1\n",
    ),
    // A bound name there hides nothing either.
    (
        r"CONSTANT c
U == {<<c, x>> : x \in {c}, c \in {1}}",
        1,
        "A refused\n  3:29-3:30 E402\nmodules=1 refused=1\n",
    ),
    // The sets of other forms that bind names.
    (
        r"U == {x \in {x} : x = 1}
V == CHOOSE y \in {y} : y = 1
W == [z \in {z} |-> z]",
        1,
        "A refused\n  2:14-2:15 E401\n  3:20-3:21 E401\n  4:14-4:15 E401\nmodules=1 refused=1\n",
    ),
    // What CHOOSE binds, and where that ends.
    (
        r"U == CHOOSE x : x = 1
V == CHOOSE <<y, z>> \in {<<1, 2>>} : y = z
W == <<x, y>>",
        1,
        "A refused\n  4:8-4:9 E401\n  4:11-4:12 E401\nmodules=1 refused=1\n",
    ),
    // Temporal quantifiers bind names.
    (
        r"VARIABLE v
U == \AA x : x = v
V == \EE y, y : y = v
W == \EE v : v = 1",
        1,
        "A refused\n  4:13-4:14 E402\n  5:10-5:11 E402\nmodules=1 refused=1\n",
    ),
    // Scopes that do not overlap may use one name.
    (
        r"F(x) == x
G(x) == \E y \in {x} : y = x
U == (\A y \in {1} : y = 1) /\ (\E y \in {2} : y = 2)
y == 3",
        0,
        "A accepted\nmodules=1 refused=0\n",
    ),
    // Symbols that are defined.
    (
        "a + b == <<a, b>>\n-. a == a\na ^+ == a\nU == -(1 + 2)^+",
        0,
        "A accepted\nmodules=1 refused=0\n",
    ),
    // Symbols can't be used in their own definitions.
    (
        "a + b == a + b\n-. a == -a\na ^+ == a^+",
        1,
        "A refused\n  2:12-2:13 E401\n  3:9-3:10 E401\n  4:10-4:12 E401\nmodules=1 refused=1\n",
    ),
    // Operands are parameters.
    (
        "CONSTANT c\na + a == a\n-. c == c\nc ^+ == c",
        1,
        "A refused\n  3:5-3:6 E402\n  4:4-4:5 E402\n  5:1-5:2 E402\nmodules=1 refused=1\n",
    ),
    // A synonym is the same symbol.
    (
        r"CONSTANTS _ \o _, -. _
a \circ b == a
-. a == a",
        1,
        "A refused\n  3:3-3:8 E402\n  4:1-4:3 E402\nmodules=1 refused=1\n",
    ),
    // The two minus signs are two names.
    (
        "-. a == a\na - b == -a\nU == 1 - -2",
        0,
        "A accepted\nmodules=1 refused=0\n",
    ),
    // Parameters that are symbols.
    (
        "F(_ + _, -. _, _ ^+) == -(1 + 2)^+\nU == 3 + 4",
        1,
        "A refused\n  3:8-3:9 E401\nmodules=1 refused=1\n",
    ),
    // A symbol that is there can't be a parameter.
    (
        "EXTENDS Naturals\nF(_ + _, G(_)) == G(1 + 2)",
        1,
        "A refused\n  3:5-3:6 E402\nmodules=1 refused=1\n",
    ),
    // Constants with places and symbols.
    (
        "CONSTANTS G(_), _ + _, -. _\nU == G(1 + -2)",
        0,
        "A accepted\nmodules=1 refused=0\n",
    ),
    // A LOCAL name is there in its own module.
    (
        "LOCAL F == 1\nF(x) == F\nU == F",
        1,
        "A refused\n  3:1-3:2 E402\nmodules=1 refused=1\n",
    ),
    // All built-in modules together.
    (
        "EXTENDS Naturals, Integers, Reals, Sequences, FiniteSets, Bags, TLC, RealTime\nU == <<-1 + 2, Infinity / 3, Len(<<>>), Cardinality({})>>\nV == <<BagToSet(EmptyBag), 4 :> 5, JavaTime, now>>",
        0,
        "A accepted\nmodules=1 refused=0\n",
    ),
    // A built-in module brings what it defines, and nothing else.
    (
        "EXTENDS Sequences\nU == <<Nat, s>>",
        1,
        "A refused\n  3:8-3:11 E401\n  3:13-3:14 E401\nmodules=1 refused=1\n",
    ),
    // What a built-in module defines is there already.
    (
        "EXTENDS Naturals\nNat == 1\na + b == a + b",
        1,
        "A refused\n  3:1-3:4 E402\n  4:3-4:4 E402\nmodules=1 refused=1\n",
    ),
    // A module that extends itself.
    (
        "EXTENDS A, Q\nU == V",
        1,
        "A refused\n  2:9-2:10 E302\n  2:12-2:13 E301\nmodules=1 refused=1\n",
    ),
    // A front fault comes before all else.
    (
        "EXTENDS Q\nU == V\nCONSTANT 1",
        1,
        "A refused\n  4:10-4:11 E202\nmodules=1 refused=1\n",
    ),
];
