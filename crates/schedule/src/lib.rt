// Time: a point is a UTC second, a length is a number of seconds. Two points are never summed.
#![tactic(auto)]

ghost use Rattle.std.specs.Prelude.{◌≡◌, ltb};

// A UTC second: the host's clock, a load time, a bound of validity.
#[derive(Clone, Copy, PartialEq, Eq, PartialOrd, Ord)]
pub struct Point(pub u32);

// A waiting time or an interval.
#[derive(Clone, Copy, PartialEq, Eq, PartialOrd, Ord)]
pub struct Length(pub u32);

// Whether a comes before b.
pub fn before(a: Point, b: Point) -> bool
    ensures { result ≡ ltb a.0 b.0 }
{
    a < b
}
