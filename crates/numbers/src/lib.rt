// Sums of numbers in the one form that they have outside of books, 48 bits: z from -WIDE to WIDE - 1 is stored as z, a negative one as z + RANGE.
// Proved: a sum is held to the ends of the range that the caller gives, and `half_of` gives that of a book's version.

#![tactic(auto)]

ghost use Rattle.std.specs.Prelude.{◌≡◌};
ghost use Rattle.format.specs.Version.{half_of};
ghost use Rattle.numbers.specs.Sums.{SumReady, AddsHeld};

use format::Version;

// Half of the range of stored numbers, 2^47.
const WIDE: usize = 1 << 47;

const RANGE: usize = 2 * WIDE;

// Half of the range of a version's numbers, which go from -half to half - 1.
pub fn half_of(version: Version) -> usize
    ensures { result ≡ half_of version }
{
    match version {
        Version::One => 1 << 31,
        Version::Two => WIDE,
    }
}

// The sum of two stored numbers, held to the ends of the range from -half to half - 1.
pub fn add_held(x: usize, y: usize, half: usize) -> usize
    requires { SumReady x y half }
    ensures { AddsHeld x y half result }
{
    // Each number as its distance z + WIDE from the lower end, so the sum z as z + RANGE.
    let sum = (x + WIDE) % RANGE + (y + WIDE) % RANGE;
    sum.clamp(RANGE - half, RANGE + half - 1) % RANGE
}
