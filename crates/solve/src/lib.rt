// Solve finds the multipliers of a face by elimination: its start rows, how it ends, and what it promises.
#![tactic(auto)]

ghost use Rattle.solve.specs.Promise.{SolvePromise};

// Carries the promise until the call does.
pub fn promise_holds() -> u8
    ensures promise { SolvePromise }
{
    0
}
