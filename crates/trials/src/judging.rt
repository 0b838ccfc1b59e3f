// A sheet that is judged.
use catalog::InDomain;
use checker::verdict;
use domain::Domain;
use sheet::Refusal;

/// The verdict on a sheet in any domain.
#[derive(Clone, Copy)]
pub struct Judging<'a> {
    pub sheet: &'a [u8],
}

impl InDomain for Judging<'_> {
    type Answer = Result<usize, Refusal>;

    fn run<D: Domain>(&mut self) -> Result<usize, Refusal> {
        verdict::<D>(self.sheet)
    }
}
