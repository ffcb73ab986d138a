// Why a controller refuses a question.
ghost use Rattle.std.specs.Prelude.{◌≡◌};
ghost use Rattle.control.specs.Answers.{cause_of, control_cause};

use causes::Cause;

#[derive(Clone, Copy, PartialEq, Eq, Debug)]
pub enum ControlFault {
    Missing,
    Length,
    Range,
}

impl From<ControlFault> for Cause {
    ghost from_gives = { λ fault cause. cause ≡ cause_of fault };

    fn from(fault: ControlFault) -> Cause {
        match fault {
            ControlFault::Missing => Cause::Missing,
            ControlFault::Length => Cause::Length,
            ControlFault::Range => Cause::Outside,
        }
    }
}

impl ControlFault {
    // The number of the cause, for a caller that tells numbers.
    pub fn cause(&self) -> u32
        ensures { result ≡ control_cause self.now }
    {
        Cause::from(*self).into()
    }
}
