ghost use Rattle.std.specs.Prelude.{◌≡◌, ◌/◌, ◌%◌};
ghost use Rattle.supply.specs.Patterns.{SupplyIsLeast};

use processor::drive::Pair;

// What a supply means: the least sum of the speeds over the windows of a length, for every drive and every length.
pub fn supply_is_least()
    ensures { SupplyIsLeast }
{}

// The whole frames of a pair in a window, and the rest.
pub fn split(pair: &Pair, window: u32) -> (u32, u32)
    ensures { result ≡ (window / pair.now.frame, window % pair.now.frame) }
{
    (window / pair.frame, window % pair.frame)
}
