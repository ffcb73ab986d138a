// Certificates after Farkas: the test of a proof of one face, and that a certificate makes the set of a case invariant.
#![tactic(auto)]

ghost use Rattle.certificate.specs.Sound.{CertificatesSound};

mod candidate;
mod fault;
mod proof;
mod sums;

pub use candidate::MULTIPLIER_LIMIT;
pub use fault::ProofFault;
pub use proof::test_proof;

// Holds the theorem that a certificate makes the set of its case invariant.
pub fn certificates_hold() -> u8
    ensures { CertificatesSound }
{
    0
}
