// Why a proof of one face is refused.
ghost use Rattle.std.specs.Prelude.{◌≡◌};
ghost use Rattle.certificate.specs.Faults.{of_system, proof_cause};

use causes::Cause;
use system::SystemFault;

// Sizes that differ, a region or face that is not there, the number of multipliers, a number outside its limit, the first
// unequal column, counted from 1, or a right side too large.
#[derive(Clone, Copy, PartialEq, Eq, Debug)]
pub enum ProofFault {
    Sizes,
    Missing,
    Length,
    Range,
    Unequal(u32),
    Excess,
}

impl From<SystemFault> for ProofFault {
    ghost from_gives = { λ f r. r ≡ of_system f };

    fn from(fault: SystemFault) -> ProofFault {
        match fault {
            SystemFault::Sizes => ProofFault::Sizes,
            SystemFault::Missing => ProofFault::Missing,
            SystemFault::Length => ProofFault::Length,
        }
    }
}

impl From<ProofFault> for Cause {
    ghost from_gives = { λ fault cause. cause ≡ proof_cause fault };

    fn from(fault: ProofFault) -> Cause {
        match fault {
            ProofFault::Sizes => Cause::Sizes,
            ProofFault::Missing => Cause::Missing,
            ProofFault::Length => Cause::Length,
            ProofFault::Range => Cause::Outside,
            ProofFault::Unequal(_) => Cause::Unequal,
            ProofFault::Excess => Cause::Excess,
        }
    }
}
