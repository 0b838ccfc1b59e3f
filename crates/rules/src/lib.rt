// What the check of a sheet means over any domain, and the theorems about it.
// specs/ has the rules; each theorem is the contract of a small function, and rests on the laws of a domain alone.
// There is no other code here: the check itself is in the crate `checker`.
#![tactic(auto)]

ghost use Rattle.domain.specs.Carrier.{as_dom};
ghost use Rattle.rules.specs.Safety.{TakenIsSafe};

use domain::Domain;

/// What the check takes is safe, whatever the domain: the table of a sheet that is taken describes every state that a
/// run of its routine comes to, and no step from such a state traps.
pub fn taken_is_safe<D: Domain>()
    ensures { TakenIsSafe (as_dom D D.Domain.describes D.Domain.ops) }
{}
