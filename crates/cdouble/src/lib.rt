//! Double-double arithmetic, as the Rust has it: a number is the unevaluated sum of two doubles. Every function takes
//! every double and asks nothing of its caller; where it is exact, its contract says so.

#![tactic(auto)]

ghost use Rattle.std.specs.Prelude.{◌≡◌, ◌+ℤ◌, ◌*ℤ◌};
ghost use Rattle.exact.specs.Value.{exact};
ghost use Rattle.doubles.specs.Directed.{IsUp};
ghost use Rattle.cdouble.specs.Compensated.{abs_up, negated, normalized, plus, plus_product, plus_scaled, rounded, split, two_product, two_sum, value};
ghost use Rattle.cdouble.specs.Exactness.{abs_ℤ, AtMost, IsExact, IsSplit, IsToward, ProductRange, SumRange};

use adjacent::{next_down, next_up};

mod allowance;
mod lent;
mod upward;

pub use allowance::compensated_error;
pub use lent::{cdouble_add, cdouble_add_scaled};
pub use upward::{add_up, distance_up};

/// The sum `hi + lo`, not evaluated.
#[repr(C)]
#[derive(Clone, Copy)]
pub struct CDouble {
    pub hi: f64,
    pub lo: f64,
}

// Kept: a port has the Rust's names, parameters and order of operations, so `add` and `neg` are no operators, and `rounded` takes `up`.
impl CDouble {
    /// The factor of `split`, 2^27 + 1, which leaves its high half 26 digits of 53.
    pub const FACTOR: f64 = 134_217_729.0;

    /// The allowance for the round-off of compensated sums, per term and per unit of the terms' magnitude: 16 · 2^-104.
    pub const COMPENSATED_ERROR: f64 = 16.0 * 4.930_380_657_631_324e-32;

    /// 2^1022, up to which `two_sum` is exact.
    pub const MOST_ADDEND: f64 = 4.49423283715579e307;

    /// 2^510: the product of two numbers up to here is at most 2^1020.
    pub const MOST_FACTOR: f64 = 3.3519519824856493e153;

    /// 2^1020: two such numbers can be added to a third.
    pub const MOST_END: f64 = 1.1235582092889474e307;

    /// The rank of 2^-966. From 2^-969 on a rounded product shows its error.
    pub const LEAST_FAR: u64 = f64::to_bits(1.6033346880071782e-291);

    /// `a + b`, rounded, and what the rounding left out (Knuth's two-sum).
    #[tactic(auto, using(doubles::proofs::Tests::fit, crate::proofs::TwoSum::two_sum_exact), unfolding(crate::specs::Compensated::two_sum))]
    pub fn two_sum(a: f64, b: f64) -> CDouble
        ensures { (result ≡ two_sum a b) × (SumRange a b → IsExact 0 (exact a +ℤ exact b) result) }
    {
        let x = a + b;
        let z = x - a;
        let y = (a - (x - z)) + (b - z);
        CDouble { hi: x, lo: y }
    }

    /// `a` in two halves of at most 26 significant bits (Dekker's split).
    #[tactic(auto, using(doubles::proofs::Tests::fit, crate::proofs::SplitParts::split_exact, crate::proofs::SplitParts::factor_is), unfolding(crate::specs::Compensated::split))]
    pub fn split(a: f64) -> CDouble
        ensures { (result ≡ split a) × (AtMost 995 a → IsSplit a result) }
    {
        let c = CDouble::FACTOR * a;
        let x = c - (c - a);
        CDouble { hi: x, lo: a - x }
    }

    /// `a · b`, rounded, and what the rounding left out (Dekker's two-product).
    pub fn two_product(a: f64, b: f64) -> CDouble
        ensures { (result ≡ two_product a b) × (ProductRange a b → IsExact 1074 (exact a *ℤ exact b) result) }
    {
        CDouble::halved_product(a, CDouble::split(a), b, CDouble::split(b))
    }

    /// `two_product` for factors whose halves `p` and `q` are at hand.
    #[tactic(auto, unfolding(crate::specs::Compensated::two_product, crate::specs::Compensated::product_error))]
    pub fn halved_product(a: f64, p: CDouble, b: f64, q: CDouble) -> CDouble
        requires { (p ≡ split a) × (q ≡ split b) }
        ensures { result ≡ two_product a b }
    {
        let x = a * b;
        let a1 = p.hi;
        let a2 = p.lo;
        let b1 = q.hi;
        let b2 = q.lo;
        let y = a2 * b2 - (((x - a1 * b1) - a2 * b1) - a1 * b2);
        CDouble { hi: x, lo: y }
    }

    /// `self + v`.
    #[tactic(auto, unfolding(crate::specs::Compensated::plus))]
    pub fn add(self, v: f64) -> CDouble
        ensures { result ≡ plus self v }
    {
        let s = CDouble::two_sum(v, self.hi);
        CDouble {
            hi: s.hi,
            lo: self.lo + s.lo,
        }
    }

    /// `self + a · b`, the product taken with what its rounding left out.
    #[tactic(auto, unfolding(crate::specs::Compensated::plus_product))]
    pub fn add_product(self, a: f64, b: f64) -> CDouble
        ensures { result ≡ plus_product self a b }
    {
        let p = CDouble::two_product(a, b);
        let s = self.add(p.hi);
        CDouble {
            hi: s.hi,
            lo: s.lo + p.lo,
        }
    }

    /// `self + c · b`: the high part's product as in `add_product`, the low part's rounded.
    #[tactic(auto, unfolding(crate::specs::Compensated::plus_scaled))]
    pub fn add_scaled(self, c: CDouble, b: f64) -> CDouble
        ensures { result ≡ plus_scaled self c b }
    {
        let s = self.add_product(c.hi, b);
        CDouble {
            hi: s.hi,
            lo: s.lo + c.lo * b,
        }
    }

    /// `-self`.
    #[tactic(auto, unfolding(crate::specs::Compensated::negated))]
    pub fn neg(self) -> CDouble
        ensures { result ≡ negated self }
    {
        CDouble {
            hi: -self.hi,
            lo: -self.lo,
        }
    }

    /// `self`, its high part the nearest double.
    #[tactic(auto, unfolding(crate::specs::Compensated::normalized))]
    pub fn normalized(self) -> CDouble
        ensures { (result ≡ normalized self) × (SumRange self.hi self.lo → IsExact 0 (exact self.hi +ℤ exact self.lo) result) }
    {
        CDouble::two_sum(self.hi, self.lo)
    }

    /// The least double at or above `|self|`, where the parts are in the range of `two_sum`.
    pub fn abs_up(self) -> f64
        ensures { (result ≡ abs_up self) × (SumRange self.hi self.lo → IsUp 0 (abs_ℤ (exact self.hi +ℤ exact self.lo)) result) }
    {
        if self.value() < 0.0 {
            self.neg().rounded(true)
        } else {
            self.rounded(true)
        }
    }

    /// The sum, rounded to nearest.
    #[tactic(auto, unfolding(crate::specs::Compensated::value))]
    pub fn value(self) -> f64
        ensures { result ≡ value self }
    {
        self.hi + self.lo
    }

    /// The least double at or above the sum (`up`), or the greatest at or below it, where the parts are in the range of
    /// `two_sum`.
    pub fn rounded(self, up: bool) -> f64
        ensures { (result ≡ rounded self up) × (SumRange self.hi self.lo → IsToward up 0 (exact self.hi +ℤ exact self.lo) result) }
    {
        let s = CDouble::two_sum(self.hi, self.lo);
        let value = s.hi;
        let error = s.lo;
        if up && error > 0.0 {
            next_up(value)
        } else if !up && error < 0.0 {
            next_down(value)
        } else {
            value
        }
    }
}
