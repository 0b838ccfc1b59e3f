// How the values of each domain are written, in text and in the bytes of a cell.
ghost use Rattle.std.specs.Prelude.{◌≡◌, ℕ, List, ◌++◌, if◌then◌else◌, OnOk};
ghost use Rattle.notation.specs.Cells.{Holds, span_cell, stride_cell, marked_cell, pair_cell};

use domain::Domain;
use layers::nonzero::Nonzero;
use layers::pair::Pair;
use span::Span;
use std::alloc::AllocError;
use std::fmt;
use stride::Stride;

/// A domain whose values can be written.
pub trait Notation: Domain {
    // The bytes of the cell that holds a value.
    ghost cell: { Self → List ℕ };

    /// The value that the text begins with.
    fn first_of(text: &str) -> Option<Self>;

    /// What comes after that value and a `&`, if there is a `&`.
    fn behind(text: &str) -> Option<&str>;

    fn write<W: fmt::Write>(&self, f: &mut fmt::Formatter<W>) -> fmt::Result;

    /// Adds the bytes of the cell that holds the value: read as a cell, they are the value.
    fn push_cell(&self, out: &mut Vec<u8>) -> Result<(), AllocError>
        ensures added { OnOk result (out.new.items ≡ out.old.items ++ cell self.now) }
        ensures held { OnOk result (Holds Self.Domain.ops (cell self.now) self.now) };
}

/// The value that the whole text is.
pub fn parsed<D: Notation>(text: &str) -> Option<D> {
    match D::behind(text) {
        None => D::first_of(text),
        Some(_) => None,
    }
}

/// A value that prints as text.
#[derive(Clone, Copy)]
pub struct Written<D>(pub D);

impl<D: Notation> fmt::Display for Written<D> {
    fn fmt<W: fmt::Write>(&self, f: &mut fmt::Formatter<W>) -> fmt::Result {
        self.0.write(f)
    }
}

// The text before the first `&`.
fn head(text: &str) -> &str {
    text.split_once('&').map_or(text, |(head, _)| head)
}

// The text behind the first `&`.
fn tail(text: &str) -> Option<&str> {
    text.split_once('&').map(|(_, tail)| tail)
}

fn span_of(word: &str) -> Option<Span> {
    let (lo, hi) = word.split_once("..")?;
    Span::between(lo.parse::<i64>().ok()?, hi.parse::<i64>().ok()?)
}

fn stride_of(word: &str) -> Option<Stride> {
    let (modulus, remainder) = word.split_once(':')?;
    Stride::new(modulus.parse::<u16>().ok()?, remainder.parse::<i32>().ok()?)
}

// The bytes of a span: its ends.
fn span_cell(span: Span) -> [u8; 8]
    ensures { result ≡ span_cell span }
{
    let (lo, hi) = span.ends();
    let [l0, l1, l2, l3] = lo.to_le_bytes();
    let [h0, h1, h2, h3] = hi.to_le_bytes();
    [l0, l1, l2, l3, h0, h1, h2, h3]
}

// The bytes of a stride: its modulus and its remainder.
fn stride_cell(stride: Stride) -> [u8; 6]
    ensures { result ≡ stride_cell stride }
{
    let [m0, m1] = stride.modulus().to_le_bytes();
    let [r0, r1, r2, r3] = stride.remainder().to_le_bytes();
    [m0, m1, r0, r1, r2, r3]
}

// The byte of a mark.
fn mark_byte(marked: bool) -> u8
    ensures { result ≡ (if marked then 1 else 0) }
{
    u8::from(marked)
}

impl Notation for Span {
    ghost cell = { span_cell };

    fn first_of(text: &str) -> Option<Span> {
        span_of(head(text))
    }

    fn behind(text: &str) -> Option<&str> {
        tail(text)
    }

    fn write<W: fmt::Write>(&self, f: &mut fmt::Formatter<W>) -> fmt::Result {
        let (lo, hi) = self.ends();
        write!(f, "{lo}..{hi}")
    }

    fn push_cell(&self, out: &mut Vec<u8>) -> Result<(), AllocError> {
        out.extend_from_slice(&span_cell(*self))?;
        Ok(())
    }
}

impl Notation for Stride {
    ghost cell = { stride_cell };

    fn first_of(text: &str) -> Option<Stride> {
        stride_of(head(text))
    }

    fn behind(text: &str) -> Option<&str> {
        tail(text)
    }

    fn write<W: fmt::Write>(&self, f: &mut fmt::Formatter<W>) -> fmt::Result {
        let modulus = self.modulus();
        let remainder = self.remainder();
        write!(f, "{modulus}:{remainder}")
    }

    fn push_cell(&self, out: &mut Vec<u8>) -> Result<(), AllocError> {
        out.extend_from_slice(&stride_cell(*self))?;
        Ok(())
    }
}

impl<A: Notation> Notation for Nonzero<A> {
    ghost cell = { marked_cell A.Notation.cell };

    fn first_of(text: &str) -> Option<Nonzero<A>> {
        let (marked, text) = text
            .strip_prefix('!')
            .map_or((false, text), |text| (true, text));
        let inner = A::first_of(text)?;
        Some(Nonzero { marked, inner })
    }

    fn behind(text: &str) -> Option<&str> {
        A::behind(text)
    }

    fn write<W: fmt::Write>(&self, f: &mut fmt::Formatter<W>) -> fmt::Result {
        if self.marked {
            write!(f, "!")?;
        }
        self.inner.write(f)
    }

    fn push_cell(&self, out: &mut Vec<u8>) -> Result<(), AllocError> {
        out.push(mark_byte(self.marked))?;
        self.inner.push_cell(out)?;
        Ok(())
    }
}

impl<A: Notation, B: Notation> Notation for Pair<A, B> {
    ghost cell = { pair_cell A.Notation.cell B.Notation.cell };

    fn first_of(text: &str) -> Option<Pair<A, B>> {
        let first = A::first_of(text)?;
        let second = B::first_of(A::behind(text)?)?;
        Some(Pair { first, second })
    }

    fn behind(text: &str) -> Option<&str> {
        B::behind(A::behind(text)?)
    }

    fn write<W: fmt::Write>(&self, f: &mut fmt::Formatter<W>) -> fmt::Result {
        self.first.write(f)?;
        write!(f, "&")?;
        self.second.write(f)
    }

    fn push_cell(&self, out: &mut Vec<u8>) -> Result<(), AllocError> {
        self.first.push_cell(out)?;
        self.second.push_cell(out)?;
        Ok(())
    }
}
