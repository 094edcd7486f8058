// The bounds of a component and of a resolution, and the precincts of a resolution, on one axis (01, 'Geometry').
ghost use Rattle.std.specs.Prelude.{◌≡◌};
ghost use Rattle.geometry.specs.Said.{of_word};
ghost use Rattle.geometry.specs.Precinct.{component_bound_of, resolution_bound_of, precincts_of};

use crate::axis::Resolution;
use crate::math;

// A bound of the tile-component: the tile's bound t, divided by the component's step d, rounded up.
pub fn component_bound(t: u32, d: u32) -> Option<u32>
    ensures { of_word result ≡ component_bound_of t d }
{
    math::uint_ceildiv(t, d)
}

// A bound of a resolution: the component's bound c, divided by 2^level, rounded up.
pub fn resolution_bound(c: u32, level: u32) -> Option<u32>
    ensures { of_word result ≡ resolution_bound_of c level }
{
    math::uint_ceildivpow2(c, level)
}

// The number of precincts of 2^pd samples on an axis of a resolution that goes from r0 to r1.
pub fn precincts(r0: u32, r1: u32, pd: u32) -> Option<u32>
    ensures { of_word result ≡ precincts_of r0 r1 pd }
{
    (pd < 32).then_some(Resolution { r0, r1 }.columns(pd).count)
}
