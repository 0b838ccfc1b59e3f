// The domains that ship, by name and by number, and what is done in the domain that a name stands for.
ghost use Rattle.std.specs.Prelude.{◌≡◌, ⊤, Some};
ghost use Rattle.domain.specs.Carrier.{Dom, as_dom};
ghost use Rattle.catalog.specs.Domains.{name_of, width_of, dom, Named, Numbered};
ghost use Rattle.catalog.specs.Words.{unknown_name_words, unknown_number_words};

use crate::{
    NonzeroPair, NonzeroSpans, NonzeroSpansStrides, NonzeroStrides, Spans, Spans8, Spans9,
    SpansNonzeroStrides, SpansStrides, Strides, StridesSpans,
};
use domain::Domain;
use std::error::Error;
use std::fmt;
use std::str::FromStr;

/// A domain that ships; they are counted from 0 in this order.
#[derive(Clone, Copy, PartialEq, Eq, Debug)]
pub enum DomainName {
    Spans,
    Strides,
    NonzeroSpans,
    NonzeroStrides,
    SpansStrides,
    StridesSpans,
    NonzeroSpansStrides,
    NonzeroPair,
    SpansNonzeroStrides,
    Spans8,
    Spans9,
}

/// What is done in a domain, whichever it is.
pub trait InDomain {
    type Answer;

    // What it may answer in a domain, and what it leaves of itself.
    ghost gives: { Dom → Self → Self.Answer → Self → Type 0 } = { λ _ _ _ _. ⊤ };

    fn run<D: Domain>(&mut self) -> Self::Answer
        ensures { gives (as_dom D D.Domain.describes D.Domain.ops) self.old result self.new };
}

impl DomainName {
    /// All of them, in the order of their numbers.
    pub const ALL: [DomainName; 11] = [
        DomainName::Spans,
        DomainName::Strides,
        DomainName::NonzeroSpans,
        DomainName::NonzeroStrides,
        DomainName::SpansStrides,
        DomainName::StridesSpans,
        DomainName::NonzeroSpansStrides,
        DomainName::NonzeroPair,
        DomainName::SpansNonzeroStrides,
        DomainName::Spans8,
        DomainName::Spans9,
    ];

    /// The name that people write.
    pub fn name(self) -> &'static str
        ensures { result.now ≡ name_of self }
    {
        match self {
            DomainName::Spans => "spans",
            DomainName::Strides => "strides",
            DomainName::NonzeroSpans => "nonzero(spans)",
            DomainName::NonzeroStrides => "nonzero(strides)",
            DomainName::SpansStrides => "pair(spans,strides)",
            DomainName::StridesSpans => "pair(strides,spans)",
            DomainName::NonzeroSpansStrides => "pair(nonzero(spans),strides)",
            DomainName::NonzeroPair => "nonzero(pair(spans,strides))",
            DomainName::SpansNonzeroStrides => "pair(spans,nonzero(strides))",
            DomainName::Spans8 => "spans8",
            DomainName::Spans9 => "spans9",
        }
    }

    /// Does the task in the domain.
    pub fn run<T: InDomain>(self, task: &mut T) -> T::Answer
        ensures { T.gives (dom self) task.old result task.new }
    {
        match self {
            DomainName::Spans => task.run::<Spans>(),
            DomainName::Strides => task.run::<Strides>(),
            DomainName::NonzeroSpans => task.run::<NonzeroSpans>(),
            DomainName::NonzeroStrides => task.run::<NonzeroStrides>(),
            DomainName::SpansStrides => task.run::<SpansStrides>(),
            DomainName::StridesSpans => task.run::<StridesSpans>(),
            DomainName::NonzeroSpansStrides => task.run::<NonzeroSpansStrides>(),
            DomainName::NonzeroPair => task.run::<NonzeroPair>(),
            DomainName::SpansNonzeroStrides => task.run::<SpansNonzeroStrides>(),
            DomainName::Spans8 => task.run::<Spans8>(),
            DomainName::Spans9 => task.run::<Spans9>(),
        }
    }

    /// How many bytes a cell has; 0 where the domain has none.
    pub fn width(self) -> usize
        ensures { result ≡ width_of self }
    {
        self.run(&mut Width)
    }
}

#[derive(Clone, Copy)]
struct Width;

impl InDomain for Width {
    type Answer = usize;

    ghost gives = { λ d _ width _. width ≡ d.ops.width };

    fn run<D: Domain>(&mut self) -> usize {
        D::width()
    }
}

/// A text that is the name of no domain.
#[derive(Clone, Copy, PartialEq, Eq, Debug)]
pub struct UnknownName;

/// A number that no domain has.
#[derive(Clone, Copy, PartialEq, Eq, Debug)]
pub struct UnknownNumber;

impl FromStr for DomainName {
    type Err = UnknownName;

    ghost from_str_gives = { Named };

    fn from_str(text: &str) -> Result<DomainName, UnknownName> {
        // No `ALL.into_iter().find(..)`: it got no proof that where it finds nothing no domain has the name.
        match text {
            "spans" => Ok(DomainName::Spans),
            "strides" => Ok(DomainName::Strides),
            "nonzero(spans)" => Ok(DomainName::NonzeroSpans),
            "nonzero(strides)" => Ok(DomainName::NonzeroStrides),
            "pair(spans,strides)" => Ok(DomainName::SpansStrides),
            "pair(strides,spans)" => Ok(DomainName::StridesSpans),
            "pair(nonzero(spans),strides)" => Ok(DomainName::NonzeroSpansStrides),
            "nonzero(pair(spans,strides))" => Ok(DomainName::NonzeroPair),
            "pair(spans,nonzero(strides))" => Ok(DomainName::SpansNonzeroStrides),
            "spans8" => Ok(DomainName::Spans8),
            "spans9" => Ok(DomainName::Spans9),
            _ => Err(UnknownName),
        }
    }
}

impl TryFrom<u32> for DomainName {
    type Error = UnknownNumber;

    ghost try_from_gives = { Numbered };

    fn try_from(number: u32) -> Result<DomainName, UnknownNumber> {
        DomainName::ALL
            .get(number as usize)
            .copied()
            .ok_or(UnknownNumber)
    }
}

impl fmt::Display for DomainName {
    ghost output = { λ domain. Some (name_of domain) };

    fn fmt<W: fmt::Write>(&self, f: &mut fmt::Formatter<W>) -> fmt::Result {
        f.write_str(self.name())
    }
}

impl fmt::Display for UnknownName {
    ghost output = { λ error. Some (unknown_name_words error) };

    fn fmt<W: fmt::Write>(&self, f: &mut fmt::Formatter<W>) -> fmt::Result {
        f.write_str("no domain has that name")
    }
}

impl fmt::Display for UnknownNumber {
    ghost output = { λ error. Some (unknown_number_words error) };

    fn fmt<W: fmt::Write>(&self, f: &mut fmt::Formatter<W>) -> fmt::Result {
        f.write_str("no domain has that number")
    }
}

impl Error for UnknownName {}

impl Error for UnknownNumber {}
