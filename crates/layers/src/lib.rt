// Two layers over any domains: the pair of two, and the mark that a value is not 0 over one.
// Each is a domain by the laws of those below and nothing else of them.
#![tactic(auto)]

pub mod nonzero;
pub mod pair;
pub mod pile;
