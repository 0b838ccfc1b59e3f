// Offering a sheet in any domain.
use bay::Bay;
use catalog::InDomain;
use domain::Domain;
use sheet::Refusal;

/// A sheet to be offered to a bay.
#[derive(Drop)]
pub struct Offering<'a> {
    pub bay: &'a mut Bay,
    pub sheet: &'a [u8],
}

impl InDomain for Offering<'_> {
    type Answer = Result<usize, Refusal>;

    fn run<D: Domain>(&mut self) -> Result<usize, Refusal> {
        self.bay.offer::<D>(self.sheet)
    }
}
