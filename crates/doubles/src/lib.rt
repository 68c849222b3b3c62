//! What absolute value, the larger and the smaller of two doubles, neighbours, and sums and products rounded outward are, and
//! their laws, with those of the bit patterns that they are worked out from. There is nothing to run.

#![tactic(auto)]

/// The cases of a double, of either sign, by which its neighbours are told: the first that fits, in this order.
#[derive(Clone, Copy)]
pub enum Case {
    Nan,
    Infinity,
    Zero,
    SmallestSubnormal,
    LargestSubnormal,
    PowerOfTwo,
    Max,
    Rest,
}
