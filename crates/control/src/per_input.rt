// One value for each input of a law, which has one or two.
ghost use Rattle.std.specs.Prelude.{◌≡◌, ◌<◌, length, Some, is_some, IfSome, slice_get};
ghost use Rattle.std.specs.Fn.{FnReturnsAt};
ghost use Rattle.control.specs.Limits.{inputs_count_ok};
ghost use Rattle.control.specs.PerInput.{items, EachOfEach};

// One value or two, matched where the answer for two inputs is made in another way than that for one.
#[derive(Clone, Copy)]
pub(crate) enum PerInput<T> {
    One(T),
    Two(T, T),
}

impl<T: Copy> PerInput<T> {
    // The values of a list, if it has one or two.
    pub(crate) fn of(list: &[T]) -> Option<PerInput<T>>
        ensures made { is_some result ≡ inputs_count_ok (length list.now) }
        ensures held { IfSome result (λ p. items p ≡ list.now) }
    {
        match list {
            [a] => Some(PerInput::One(*a)),
            [a, b] => Some(PerInput::Two(*a, *b)),
            _ => None,
        }
    }

    // How many inputs there are.
    pub(crate) fn count(&self) -> usize
        ensures { result ≡ length (items self.now) }
    {
        match self {
            PerInput::One(_) => 1,
            PerInput::Two(_, _) => 2,
        }
    }

    // The value for input j, counted from 0.
    pub(crate) fn at(&self, j: usize) -> T
        requires { j < length (items self.now) }
        ensures { slice_get (items self.now) j ≡ Some result }
    {
        match self {
            PerInput::One(a) => *a,
            PerInput::Two(a, _) if j == 0 => *a,
            PerInput::Two(_, b) => *b,
        }
    }

    // What f gives for each input.
    pub(crate) fn map<U, F: Fn(&T) -> U>(&self, f: F) -> PerInput<U>
        requires { F.IsAlwaysCallable f }
        ensures { EachOfEach (FnReturnsAt F.Fn f) self.now result }
    {
        match self {
            PerInput::One(a) => PerInput::One(f(a)),
            PerInput::Two(a, b) => PerInput::Two(f(a), f(b)),
        }
    }
}

impl PerInput<i64> {
    // The values go into the list.
    pub(crate) fn fill(&self, list: &mut [i64])
        requires { length list.old ≡ length (items self.now) }
        ensures { list.new ≡ items self.now }
    {
        match self {
            PerInput::One(a) => list.copy_from_slice(&[*a]),
            PerInput::Two(a, b) => list.copy_from_slice(&[*a, *b]),
        }
    }
}
