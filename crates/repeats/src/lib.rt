//! Lists read from a text one thing after the other, and slices that they are stored in. Definitions, the laws of the loops
//! that read them, and a store that is left out where there is no such place.

#![tactic(auto)]

ghost use Rattle.std.specs.Prelude.{◌≡◌, set};

/// A value stored at the place `i`, if the slice has it.
pub fn put<T: Copy>(xs: &mut [T], i: usize, value: T)
    ensures { xs.new ≡ set xs.old i value }
{
    if i < xs.len() {
        xs[i] = value;
    }
}
