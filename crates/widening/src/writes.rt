// A cell of a widened table, written over the whole of a slice.
ghost use Rattle.std.specs.Prelude.{◌≡◌, ◌+◌, ◌++◌, length};
ghost use Rattle.domain.specs.Laws.{blanks};

use domain::Domain;

// The blank cell of a domain.
fn fill_blanks<B: Domain>(out: &mut [u8])
    requires { length out.old ≡ B.Domain.ops.width }
    ensures { out.new ≡ blanks B.Domain.ops }
{
    for (i, byte) in out.iter_mut().enumerate() {
        *byte = B::blank(i);
    }
}

// A cell, and the blank cell of a second domain after it.
pub(crate) fn fill_cell<B: Domain>(out: &mut [u8], cell: &[u8])
    requires { length out.old ≡ length cell.now + B.Domain.ops.width }
    ensures { out.new ≡ cell.now ++ blanks B.Domain.ops }
{
    let (front, back) = out.split_at_mut(cell.len());
    front.copy_from_slice(cell);
    fill_blanks::<B>(back);
}
