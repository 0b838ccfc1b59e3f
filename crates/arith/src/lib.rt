// Lemmas on integers that the domains share: how results lie between those of the ends, quotients toward zero,
// remainders and common divisors. There is no code here: the definitions are in specs/, the lemmas in proofs/.
#![tactic(auto)]
