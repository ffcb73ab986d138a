// The interface of a controller.
ghost use Rattle.std.specs.Prelude.{◌≡◌, ℕ, List, length, ℤ};
ghost use Rattle.control.specs.Meaning.{Row, meaning};
ghost use Rattle.control.specs.Limits.{Limits};
ghost use Rattle.control.specs.Cover.{Cover};
ghost use Rattle.control.specs.Answers.{rows_answer, row_answer, row_fills, command_answer, command_fills};

use super::fault::ControlFault;

// The clauses put the meaning together from the members: a definition over all of them cannot stand in their own trait.
pub trait Controller {
    ghost states: { Self → ℕ };

    ghost inputs: { Self → ℕ };

    // the regions with their rows
    ghost partition: { Self → List (List Row) };

    // the command as a function of the state
    ghost feedback: { Self → List ℤ → List ℤ };

    // How many states and how many inputs.
    fn sizes(&self) -> (usize, usize)
        ensures { (result.0 ≡ states self.now) × (result.1 ≡ inputs self.now) };

    // How many regions.
    fn regions(&self) -> usize
        ensures { result ≡ length (partition self.now) };

    // How many rows a region has.
    fn rows(&self, region: usize) -> Result<usize, ControlFault>
        ensures { let s = self.now in result ≡ rows_answer (meaning (states s) (inputs s) (partition s) (feedback s)) region };

    // The right side of a row; its coefficients go into the list.
    fn row(&self, region: usize, row: usize, coefficients: &mut [i64]) -> Result<i64, ControlFault>
        ensures answer { let s = self.now in result ≡ row_answer (meaning (states s) (inputs s) (partition s) (feedback s)) region row coefficients.old }
        ensures fills { let s = self.now in coefficients.new ≡ row_fills (meaning (states s) (inputs s) (partition s) (feedback s)) region row coefficients.old };

    // The command at the state x goes into u.
    fn command(&self, x: &[i64], u: &mut [i64]) -> Result<(), ControlFault>
        ensures answer { let s = self.now in result ≡ command_answer (meaning (states s) (inputs s) (partition s) (feedback s)) x.now u.old }
        ensures fills { let s = self.now in u.new ≡ command_fills (meaning (states s) (inputs s) (partition s) (feedback s)) x.now u.old };

    ghost limits: { (c : Self) → Limits (meaning (states c) (inputs c) (partition c) (feedback c)) };

    ghost cover: { (c : Self) → Cover (meaning (states c) (inputs c) (partition c) (feedback c)) };
}
