// The texts of the built-in modules.

/// The natural numbers.
pub const NATURALS: &str = r#"---- MODULE Naturals ----
Nat == CHOOSE n : n = <<"Nat">>
a + b == CHOOSE n : n = <<"+", a, b>>
a - b == CHOOSE n : n = <<"-", a, b>>
a * b == CHOOSE n : n = <<"*", a, b>>
a ^ b == CHOOSE n : n = <<"^", a, b>>
a < b == CHOOSE n : n = <<"<", a, b>>
a > b == CHOOSE n : n = <<">", a, b>>
a =< b == CHOOSE n : n = <<"=<", a, b>>
a >= b == CHOOSE n : n = <<">=", a, b>>
a .. b == CHOOSE n : n = <<"..", a, b>>
a \div b == CHOOSE n : n = <<"div", a, b>>
a % b == CHOOSE n : n = <<"%", a, b>>
====
"#;

/// The integers.
pub const INTEGERS: &str = r#"---- MODULE Integers ----
EXTENDS Naturals
Int == CHOOSE n : n = <<"Int">>
-. a == CHOOSE n : n = <<"neg", a>>
====
"#;

/// The real numbers.
pub const REALS: &str = r#"---- MODULE Reals ----
EXTENDS Integers
Real == CHOOSE n : n = <<"Real">>
Infinity == CHOOSE n : n = <<"Infinity">>
a / b == CHOOSE n : n = <<"/", a, b>>
====
"#;

/// Finite sequences.
pub const SEQUENCES: &str = r#"---- MODULE Sequences ----
Seq(S) == CHOOSE n : n = <<"Seq", S>>
Len(s) == CHOOSE n : n = <<"Len", s>>
s \o t == CHOOSE n : n = <<"o", s, t>>
Append(s, e) == CHOOSE n : n = <<"Append", s, e>>
Head(s) == CHOOSE n : n = <<"Head", s>>
Tail(s) == CHOOSE n : n = <<"Tail", s>>
SubSeq(s, m, k) == CHOOSE n : n = <<"SubSeq", s, m, k>>
SelectSeq(s, Test(_)) == CHOOSE n : n = <<"SelectSeq", s, Test(s)>>
====
"#;

/// Finite sets.
pub const FINITE_SETS: &str = r#"---- MODULE FiniteSets ----
IsFiniteSet(S) == CHOOSE n : n = <<"IsFiniteSet", S>>
Cardinality(S) == CHOOSE n : n = <<"Cardinality", S>>
====
"#;

/// Bags, or multisets.
pub const BAGS: &str = r#"---- MODULE Bags ----
IsABag(B) == CHOOSE n : n = <<"IsABag", B>>
BagToSet(B) == CHOOSE n : n = <<"BagToSet", B>>
SetToBag(S) == CHOOSE n : n = <<"SetToBag", S>>
BagIn(e, B) == CHOOSE n : n = <<"BagIn", e, B>>
EmptyBag == CHOOSE n : n = <<"EmptyBag">>
a (+) b == CHOOSE n : n = <<"plus", a, b>>
a (-) b == CHOOSE n : n = <<"minus", a, b>>
BagUnion(S) == CHOOSE n : n = <<"BagUnion", S>>
a \sqsubseteq b == CHOOSE n : n = <<"sub", a, b>>
SubBag(B) == CHOOSE n : n = <<"SubBag", B>>
BagOfAll(F(_), B) == CHOOSE n : n = <<"BagOfAll", F(B), B>>
BagCardinality(B) == CHOOSE n : n = <<"BagCardinality", B>>
CopiesIn(e, B) == CHOOSE n : n = <<"CopiesIn", e, B>>
====
"#;

/// Bounds on the real time of actions.
pub const REAL_TIME: &str = r#"---- MODULE RealTime ----
EXTENDS Reals
VARIABLE now
RTBound(A, v, D, E) ==
  LET TNext(t) == t' = IF <<A>>_v \/ ~(ENABLED <<A>>_v)'
                         THEN 0 ELSE t + (now' - now)
      Timer(t) == (t = 0) /\ [][TNext(t)]_<<t, v, now>>
      MaxTime(t) == [](t =< E)
      MinTime(t) == [][A => t >= D]_v
  IN \EE t : Timer(t) /\ MaxTime(t) /\ MinTime(t)
RTnow(v) ==
  LET NowNext == /\ now' \in {r \in Real : r > now}
                 /\ UNCHANGED v
  IN /\ now \in Real
     /\ [][NowNext]_now
     /\ \A r \in Real : WF_now(NowNext /\ (now' > r))
====
"#;

/// Operators for the model checker.
pub const TLC: &str = r#"---- MODULE TLC ----
Print(out, val) == CHOOSE n : n = <<"Print", out, val>>
Assert(val, out) == CHOOSE n : n = <<"Assert", val, out>>
JavaTime == CHOOSE n : n = <<"JavaTime">>
d :> e == CHOOSE n : n = <<":>", d, e>>
f @@ g == CHOOSE n : n = <<"@@", f, g>>
Permutations(S) == CHOOSE n : n = <<"Permutations", S>>
SortSeq(s, Op(_, _)) == CHOOSE n : n = <<"SortSeq", s, Op(s, s)>>
PrintT(out) == CHOOSE n : n = <<"PrintT", out>>
TLCGet(i) == CHOOSE n : n = <<"TLCGet", i>>
TLCSet(i, v) == CHOOSE n : n = <<"TLCSet", i, v>>
ToString(v) == CHOOSE n : n = <<"ToString", v>>
RandomElement(s) == CHOOSE n : n = <<"RandomElement", s>>
====
"#;
