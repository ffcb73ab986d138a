// The range of permitted next values, and where a pick leads in it.
ghost use Rattle.std.specs.Prelude.{◌≡◌};
ghost use Rattle.motion.specs.Moves.{led};

// The permitted next values of a state, from the lowest to the highest; none where the lowest is above the highest.
#[derive(Clone, Copy)]
pub struct Permitted {
    pub lowest: i128,
    pub highest: i128,
}

impl Permitted {
    // The value to which a pick leads, counted from 0 at the lowest, if it is permitted.
    pub fn lead(&self, pick: i64) -> Option<i128>
        ensures { result ≡ led self.now.lowest self.now.highest pick }
    {
        let Permitted { lowest, highest } = *self;
        if pick < 0 {
            return None;
        }
        let value = lowest.checked_add(i128::from(pick))?;
        if value > highest {
            return None;
        }
        Some(value)
    }
}
