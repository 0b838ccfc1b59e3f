// The domains that ship, by name, and one table of worked cases over all of them.
// A name is what a person writes, as in `nonzero(spans)`; each is a type below.
#![tactic(auto)]

ghost use Rattle.std.specs.Prelude.{◌≡◌};
ghost use Rattle.catalog.specs.Shipped.{shipped};
ghost use Rattle.catalog.specs.Examples.{Examples};
ghost use Rattle.catalog.specs.Names.{anythings};
ghost use Rattle.catalog.specs.Lawful.{shipped-lawful};

mod names;

use domain::Domain;
use layers::nonzero::Nonzero;
use layers::pair::Pair;
use layers::pile::Domains;
pub use names::{DomainName, InDomain, UnknownName, UnknownNumber};
use span::Span;
use stride::Stride;

/// spans
pub type Spans = Span;

/// strides
pub type Strides = Stride;

/// nonzero(spans)
pub type NonzeroSpans = Nonzero<Span>;

/// nonzero(strides)
pub type NonzeroStrides = Nonzero<Stride>;

/// pair(spans,strides)
pub type SpansStrides = Pair<Span, Stride>;

/// pair(strides,spans)
pub type StridesSpans = Pair<Stride, Span>;

/// pair(nonzero(spans),strides)
pub type NonzeroSpansStrides = Pair<Nonzero<Span>, Stride>;

/// nonzero(pair(spans,strides))
pub type NonzeroPair = Nonzero<Pair<Span, Stride>>;

/// pair(spans,nonzero(strides))
pub type SpansNonzeroStrides = Pair<Span, Nonzero<Stride>>;

/// pair(spans,spans)
pub type Spans2 = Pair<Span, Span>;

/// Two pairs of spans.
pub type Spans4 = Pair<Spans2, Spans2>;

/// spans8: eight spans paired, whose cell has 64 bytes, the most that there are.
pub type Spans8 = Pair<Spans4, Spans4>;

/// spans9: nine spans paired, for which there is no cell.
pub type Spans9 = Pair<Spans8, Span>;

/// The domains by number: 0 is spans, 1 strides, and every other the domain that knows nothing.
#[derive(Clone, Copy)]
pub struct Shipped;

// What the theorems over all lawful domains ask of such a family can be met.
impl Domains for Shipped {
    ghost doms = { shipped };

    ghost lawful = { shipped-lawful };
}

/// The widths of eight and of nine spans paired, 64 and 0. The worked cases hold.
pub fn examples_hold() -> (usize, usize)
    ensures widths { result ≡ (64, 0) }
    ensures cases { Examples }
{
    (Spans8::width(), Spans9::width())
}

/// A value of each domain that ships, by its name.
#[derive(Clone, Copy)]
pub struct Named {
    pub spans: Spans,
    pub strides: Strides,
    pub nonzero_spans: NonzeroSpans,
    pub nonzero_strides: NonzeroStrides,
    pub spans_strides: SpansStrides,
    pub strides_spans: StridesSpans,
    pub nonzero_spans_strides: NonzeroSpansStrides,
    pub nonzero_pair: NonzeroPair,
    pub spans_nonzero_strides: SpansNonzeroStrides,
    pub spans2: Spans2,
    pub spans8: Spans8,
    pub spans9: Spans9,
}

/// "Anything" in each domain that ships: each name stands for the domain that it says.
pub fn anything_by_name() -> Named
    ensures { result ≡ anythings }
{
    Named {
        spans: Spans::anything(),
        strides: Strides::anything(),
        nonzero_spans: NonzeroSpans::anything(),
        nonzero_strides: NonzeroStrides::anything(),
        spans_strides: SpansStrides::anything(),
        strides_spans: StridesSpans::anything(),
        nonzero_spans_strides: NonzeroSpansStrides::anything(),
        nonzero_pair: NonzeroPair::anything(),
        spans_nonzero_strides: SpansNonzeroStrides::anything(),
        spans2: Spans2::anything(),
        spans8: Spans8::anything(),
        spans9: Spans9::anything(),
    }
}
