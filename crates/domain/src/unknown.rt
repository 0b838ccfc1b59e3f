// The least that a domain can be: one value, "anything", held by a cell of the one byte 0.
// It shows that the laws of a domain ask for no knowledge.
ghost use Rattle.domain.specs.Nothing as Nothing;
ghost use Rattle.std.proofs.Common.{rules};

use super::{Domain, Worked};
use number::{Op, Relation};

/// The one value of the domain that knows nothing.
#[derive(Clone, Copy)]
pub struct Unknown;

impl Domain for Unknown {
    ghost describes = { Nothing.describes };

    ghost ops = { Nothing.ops };

    ghost order = { Prim.search rules };

    ghost reading = { Prim.search rules };

    ghost working = { Prim.search rules };

    ghost narrowing = { Prim.search rules };

    fn width() -> usize {
        1
    }

    fn blank(_index: usize) -> u8 {
        0
    }

    fn read(cell: &[u8]) -> Option<Unknown> {
        match cell {
            [0] => Some(Unknown),
            _ => None,
        }
    }

    fn anything() -> Unknown {
        Unknown
    }

    fn value(_lo: i32, _hi: i32) -> Unknown {
        Unknown
    }

    fn covers(_a: Unknown, _b: Unknown) -> bool {
        true
    }

    fn work(_op: Op, _a: Unknown, _b: Unknown) -> Worked<Unknown> {
        (Unknown, true, true)
    }

    fn narrow(a: Unknown, _rel: Relation, _b: Unknown) -> Option<Unknown> {
        Some(a)
    }
}
