// The controller that a law text describes, of whichever make.
ghost use Rattle.std.specs.Prelude.{◌≡◌, is_some, IfSome};
ghost use Rattle.laws.specs.Controllers.{controlled, table_ok, table_meaning};
ghost use Rattle.laws.specs.Controlling.{law_limits, law_cover};

use crate::table::LawTable;
use control::limits::MOST_INPUTS;
use control::{ControlFault, Controller, Fixed, Saturated};

#[derive(Drop)]
pub enum Law {
    Saturated(Saturated),
    Fixed(Fixed),
}

impl Law {
    // The law with these sizes and the numbers of this table, if they keep the limits.
    pub fn new(states: usize, inputs: usize, table: &LawTable) -> Option<Law>
        ensures made { is_some result ≡ table_ok states inputs table.now }
        ensures held { IfSome result (λ law. controlled law ≡ table_meaning states inputs table.now) }
    {
        if inputs > MOST_INPUTS {
            return None;
        }
        match table {
            LawTable::Saturated(list) => {
                let law = Saturated::new(states, &list[..inputs])?;
                Some(Law::Saturated(law))
            }
            LawTable::Fixed(list) => {
                let law = Fixed::new(states, &list[..inputs])?;
                Some(Law::Fixed(law))
            }
        }
    }
}

// Each question goes to the make at hand: the two are of different types, and no other form says it in fewer words.
impl Controller for Law {
    ghost states = { λ law. (controlled law).states };

    ghost inputs = { λ law. (controlled law).inputs };

    ghost partition = { λ law. (controlled law).regions };

    ghost feedback = { λ law. (controlled law).command };

    ghost limits = { λ law. law_limits law };

    ghost cover = { λ law. law_cover law };

    fn sizes(&self) -> (usize, usize) {
        match self {
            Law::Saturated(law) => law.sizes(),
            Law::Fixed(law) => law.sizes(),
        }
    }

    fn regions(&self) -> usize {
        match self {
            Law::Saturated(law) => law.regions(),
            Law::Fixed(law) => law.regions(),
        }
    }

    fn rows(&self, region: usize) -> Result<usize, ControlFault> {
        match self {
            Law::Saturated(law) => law.rows(region),
            Law::Fixed(law) => law.rows(region),
        }
    }

    fn row(
        &self,
        region: usize,
        row: usize,
        coefficients: &mut [i64],
    ) -> Result<i64, ControlFault> {
        match self {
            Law::Saturated(law) => law.row(region, row, coefficients),
            Law::Fixed(law) => law.row(region, row, coefficients),
        }
    }

    fn command(&self, x: &[i64], u: &mut [i64]) -> Result<(), ControlFault> {
        match self {
            Law::Saturated(law) => law.command(x, u),
            Law::Fixed(law) => law.command(x, u),
        }
    }
}
