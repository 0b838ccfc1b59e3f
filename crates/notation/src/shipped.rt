// What is done with values that can be written, in the domain that a name stands for.
ghost use Rattle.std.specs.Prelude.{◌≡◌, ⊤};
ghost use Rattle.notation.specs.Shipped.{Added, AddedIn, Told, Writing, as_writing, writing_of};

use crate::cells::CellError;
use crate::values::{Notation, parsed};
use catalog::{
    DomainName, NonzeroPair, NonzeroSpans, NonzeroSpansStrides, NonzeroStrides, Spans, Spans8,
    Spans9, SpansNonzeroStrides, SpansStrides, Strides, StridesSpans,
};

/// What is done in a domain whose values can be written, whichever it is.
/// It is a trait beside `catalog::InDomain`, whose tasks know no more of a domain than `Domain` says.
pub trait InNotation {
    type Answer;

    // What it may answer in a domain, and what it leaves of itself.
    ghost gives: { Writing → Self → Self.Answer → Self → Type 0 } = { λ _ _ _ _. ⊤ };

    fn run<D: Notation>(&mut self) -> Self::Answer
        ensures { gives (as_writing D D.Notation.cell) self.old result self.new };
}

/// Does the task in the domain.
pub fn run_in<T: InNotation>(domain: DomainName, task: &mut T) -> T::Answer
    ensures { T.gives (writing_of domain) task.old result task.new }
{
    match domain {
        DomainName::Spans => task.run::<Spans>(),
        DomainName::Strides => task.run::<Strides>(),
        DomainName::NonzeroSpans => task.run::<NonzeroSpans>(),
        DomainName::NonzeroStrides => task.run::<NonzeroStrides>(),
        DomainName::SpansStrides => task.run::<SpansStrides>(),
        DomainName::StridesSpans => task.run::<StridesSpans>(),
        DomainName::NonzeroSpansStrides => task.run::<NonzeroSpansStrides>(),
        DomainName::NonzeroPair => task.run::<NonzeroPair>(),
        DomainName::SpansNonzeroStrides => task.run::<SpansNonzeroStrides>(),
        DomainName::Spans8 => task.run::<Spans8>(),
        DomainName::Spans9 => task.run::<Spans9>(),
    }
}

// A word whose value is to be added to a table.
#[derive(Drop)]
struct Pushing<'a> {
    word: &'a str,
    out: &'a mut Vec<u8>,
}

impl InNotation for Pushing<'_> {
    type Answer = Result<(), CellError>;

    ghost gives = { λ w before res after. Told (Added w.cell before.out.now.items after.out.now.items) res × (after.out.ghost_name ≡ before.out.ghost_name) };

    fn run<D: Notation>(&mut self) -> Result<(), CellError> {
        // In the text of a sheet a number has no plus sign.
        if self.word.contains('+') {
            return Err(CellError::NoValue);
        }
        let value = parsed::<D>(self.word).ok_or(CellError::NoValue)?;
        value.push_cell(self.out)?;
        Ok(())
    }
}

/// Adds the cell of the value that the word is.
pub fn push_value(domain: DomainName, word: &str, out: &mut Vec<u8>) -> Result<(), CellError>
    ensures { Told (AddedIn domain out.old.items out.new.items) result }
{
    run_in(domain, &mut Pushing { word, out })
}
