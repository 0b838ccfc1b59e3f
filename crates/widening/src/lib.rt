// A sheet of one domain made into a sheet of its pair with a second, which takes whatever the first takes.
#![tactic(auto)]

ghost use Rattle.std.specs.Prelude.{◌≡◌, length};
ghost use Rattle.layers.specs.Piles.{Pile, dom_of};
ghost use Rattle.widening.specs.Answers.{widen_answer, afterwards};
ghost use Rattle.widening.specs.declared.WidenError.TheVariants.{Refused};
ghost use Rattle.widening.specs.Pairing.{Pairing, PairingOf, StaysBytes};
ghost use Rattle.widening.specs.Widened.{widened};

use crate::grids::Grid;
use domain::Domain;
use layers::pile::Domains;
use sheet::Refusal;

mod grids;
mod heads;
mod writes;

pub use heads::Head;

/// Why a sheet was not widened.
#[derive(Clone, Copy)]
pub enum WidenError {
    /// It is no sheet, its table is not of the first domain's width, or that domain or the pair has no cells.
    Refused(Refusal),
    /// The buffer is too short for the widened sheet, which has this many bytes.
    Short(usize),
}

impl From<Refusal> for WidenError {
    ghost from_gives = { λ refusal e. e ≡ Refused refusal };

    fn from(refusal: Refusal) -> WidenError {
        WidenError::Refused(refusal)
    }
}

/// Writes the sheet `bytes` of the domain `A`, widened to the pair of `A` and `B`, to the front of `out`,
/// and answers how many bytes it wrote. What is refused leaves `out` as it was.
pub fn widen<A: Domain, B: Domain>(bytes: &[u8], out: &mut [u8]) -> Result<usize, WidenError>
    ensures answer { result ≡ widen_answer A.Domain.ops B.Domain.ops bytes.now (length out.old) }
    ensures written { out.new ≡ afterwards result (widened A.Domain.ops B.Domain.ops bytes.now) out.old }
{
    let grid = Grid::read::<A, B>(bytes)?;
    let size = grid.widened_len::<B>();
    if out.len() < size {
        return Err(WidenError::Short(size));
    }
    let (front, _) = out.split_at_mut(size);
    grid.fill::<B>(front);
    Ok(size)
}

/// Whatever is taken in a domain is taken, widened, in its pair with any other, and the widened sheet is made of bytes.
pub fn pairing_keeps<A: Domain, B: Domain>()
    ensures taken { Pairing A.Domain.ops B.Domain.ops }
    ensures bytes { StaysBytes A.Domain.ops B.Domain.ops }
{}

/// The same of any two piles of lawful domains.
pub fn piles_pair<F: Domains>()
    ensures { (a b : Pile) → PairingOf (dom_of F.Domains.doms a) (dom_of F.Domains.doms b) }
{}
