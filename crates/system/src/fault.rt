// Why the system of a region is refused.
#[derive(Clone, Copy, PartialEq, Eq, Debug)]
pub enum SystemFault {
    Sizes,
    Missing,
    Length,
}
