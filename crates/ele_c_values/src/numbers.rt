//! An answer in numbers, as C gets it.

/// The numbers of an answer, in the order of the columns that C has. Those after the last column are 0.
#[repr(C)]
#[derive(Clone, Copy)]
pub struct Numbers {
    pub first: u64,
    pub second: u64,
    pub third: u64,
    pub fourth: u64,
    pub fifth: u64,
    pub sixth: u64,
    pub seventh: u64,
    pub eighth: u64,
    pub ninth: u64,
    pub tenth: u64,
    pub eleventh: u64,
}

pub(crate) const NONE: Numbers = Numbers {
    first: 0,
    second: 0,
    third: 0,
    fourth: 0,
    fifth: 0,
    sixth: 0,
    seventh: 0,
    eighth: 0,
    ninth: 0,
    tenth: 0,
    eleventh: 0,
};
