// A code that none of a type's values has.
#[derive(Clone, Copy, PartialEq, Eq)]
pub struct UnknownCode(pub u32);
