// What a name of a program stands for.
use crate::tree::Ty;

/// What a name stands for, with its number.
#[derive(Clone, Copy, Debug, PartialEq, Eq)]
pub enum Meaning {
    Nothing,
    Local { number: usize, ty: Ty },
    Scalar { number: usize, ty: Ty },
    Array { number: usize, ty: Ty, length: u32 },
    Function { number: usize },
}
