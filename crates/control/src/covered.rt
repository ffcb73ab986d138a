// Code for every controller, by its meaning and its laws alone.
ghost use Rattle.std.specs.Prelude.{◌≡◌, true, ◌++◌, is_ok};
ghost use Rattle.control.specs.Means.{meaning_of};
ghost use Rattle.control.specs.Cover.{Covered};
ghost use Rattle.control.specs.Answers.{command_answer, command_fills};

use super::controller::Controller;
use super::fault::ControlFault;

// The command at the state x goes into u; all rows of some region hold there.
pub fn covered_command<C: Controller>(c: &C, x: &[i64], u: &mut [i64]) -> Result<(), ControlFault>
    ensures answer { result ≡ command_answer (meaning_of C.Controller c.now) x.now u.old }
    ensures fills { u.new ≡ command_fills (meaning_of C.Controller c.now) x.now u.old }
    ensures covered { is_ok result ≡ true → Covered (C.partition c.now) (x.now ++ u.new) }
{
    c.command(x, u)
}
