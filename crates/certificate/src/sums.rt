// The sums of a proof: multiplier × row over the rows of a region's system.
ghost use Rattle.std.specs.Prelude.{◌≡◌, ◌*◌, length};
ghost use Rattle.std.specs.List.{AllByRecursion};
ghost use Rattle.arith.specs.Bounds.{Within};
ghost use Rattle.control.specs.Limits.{coefficient_limit};
ghost use Rattle.case.specs.System.{none};
ghost use Rattle.system.specs.Answers.{most_system_rows};
ghost use Rattle.system.specs.Systems.{rows_of, columns_of};
ghost use Rattle.certificate.specs.Certificates.{scaled, added, column_sums, right_sum};
ghost use Rattle.certificate.specs.Tests.{multiplier_limit};

use super::candidate::Candidate;
use control::Controller;
use system::System;

// Adds m × each coefficient to the sum at its place. Limits and lengths stand in clauses: they concern lists of this one call.
fn add_scaled(m: i64, coefficients: &[i64], sums: &mut [i64])
    requires same { length coefficients.now ≡ length sums.old }
    requires multiplier { Within multiplier_limit m }
    requires small { AllByRecursion (Within coefficient_limit) coefficients.now }
    requires room { AllByRecursion (Within (most_system_rows * (multiplier_limit * coefficient_limit))) sums.old }
    ensures { sums.new ≡ added sums.old (scaled m coefficients.now) }
{
    // Written by index: what an adapter of `iter_mut` writes is not known to the proof afterwards.
    for (i, coefficient) in coefficients.iter().enumerate() {
        sums[i] += m * *coefficient;
    }
}

// Adds up multiplier × row over the rows of the system, column by column into the sums; answers the sum of the right sides.
pub(crate) fn add_up<C: Controller>(
    system: &System<C>,
    candidate: &Candidate,
    sums: &mut [i64],
) -> i64
    requires long { length candidate.now.multipliers.now ≡ system.now.rows }
    requires clear { sums.old ≡ none (columns_of system.now) }
    ensures columns { sums.new ≡ column_sums (columns_of system.now) candidate.now.multipliers.now (rows_of system.now) }
    ensures right { result ≡ right_sum candidate.now.multipliers.now (rows_of system.now) }
{
    // As many places as a system can have columns: nothing is allocated.
    let columns = sums.len();
    let multipliers = candidate.multipliers;
    let mut sum = 0;
    // A for loop with index over the multipliers is this project's rule for the sum of a proof.
    for i in 0..multipliers.len() {
        let multiplier = multipliers[i];
        if multiplier != 0 {
            let mut row = [0; 12];
            let right = system.row(i, &mut row[0..columns]);
            add_scaled(multiplier, &row[0..columns], sums);
            sum += multiplier * right;
        }
    }
    sum
}
