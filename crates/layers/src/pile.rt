// Piles: what is built of lawful domains by pairs and marks, to any height.
ghost use Rattle.std.specs.Prelude.{ℕ};
ghost use Rattle.domain.specs.Carrier.{Dom, Lawful};
ghost use Rattle.layers.specs.Piles.{Pile, dom_of};

/// Domains by number, each of which keeps the laws. It speaks of all of them at once: a contract cannot.
pub trait Domains {
    ghost doms: { ℕ → Dom };

    ghost lawful: { (i : ℕ) → Lawful (doms i) };
}

/// Every pile of lawful domains keeps the laws.
pub fn piles_lawful<F: Domains>()
    ensures { (p : Pile) → Lawful (dom_of F.Domains.doms p) }
{}
