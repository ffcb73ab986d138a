// Fourier-Motzkin elimination over rows of any type: its definitions and its theorems.
#![tactic(auto)]

ghost use Rattle.fourier.specs.Theorems.{ColumnKeeps, DropKeeps, SameAnswer, NothingIsNone, FoundRefutes, StopsExactly};

// Carries the theorems, for rows of type X and faults of type F, until a call does.
pub fn elimination_loses_nothing<X, F>() -> u8
    ensures column { ColumnKeeps X }
    ensures drop { DropKeeps X }
    ensures same { SameAnswer X F }
    ensures nothing { NothingIsNone X F }
    ensures found { FoundRefutes X F }
    ensures stops { StopsExactly X F }
{
    0
}
