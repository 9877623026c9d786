ghost use Rattle.std.specs.Prelude.{◌≡◌, ◌*◌, ◌<◌, ◌≤◌};
ghost use Rattle.processor.specs.Drives.{peak, energy_of, span_of};
ghost use Rattle.processor.specs.declared.drive.Drive.TheVariants.{Pair as Turns};
ghost use Rattle.processor.specs.Costs.{Cheaper, Even, cost_cmp};
ghost use Rattle.processor.specs.CostOrder.{cost_total};
ghost use Rattle.processor.specs.Limits.{top_power};
ghost use Rattle.std.specs.Ordering.{MatchOrdering, as_partial_cmp, eq_by_cmp};
ghost use Rattle.std.specs.Cmp.{eq_by_cmp_equiv, partial_equiv_from_equiv, partial_order_from_total};
ghost use Rattle.std.proofs.Common.{rules};

use crate::cost::Cost;
use crate::drive::{Drive, Pair};
use std::cmp::Ordering;

// The order of the two fractions, by their cross products.
impl Ord for Cost {
    ghost cmp = { cost_cmp };

    ghost total = { cost_total };

    ghost matches_partial_cmp = { Prim.search rules };

    ghost matches_eq = { Prim.search rules };

    fn cmp(&self, other: &Cost) -> Ordering
        ensures value { result ≡ cost_cmp self.now other.now }
        ensures means { MatchOrdering result (Cheaper self.now other.now) (Even self.now other.now) (Cheaper other.now self.now) }
    {
        let here = self.energy * u64::from(other.frame);
        let there = other.energy * u64::from(self.frame);
        here.cmp(&there)
    }
}

impl PartialOrd for Cost {
    ghost partial_cmp = { as_partial_cmp cost_cmp };

    ghost laws = { partial_order_from_total cost_total };

    fn partial_cmp(&self, other: &Cost) -> Option<Ordering> {
        Some(self.cmp(other))
    }
}

impl PartialEq for Cost {
    ghost eq = { eq_by_cmp cost_cmp };

    ghost laws = { partial_equiv_from_equiv (eq_by_cmp_equiv cost_total) };

    fn eq(&self, other: &Cost) -> bool {
        self.cmp(other).is_eq()
    }
}

impl Eq for Cost {
    ghost laws = { eq_by_cmp_equiv cost_total };
}

impl Pair {
    // The energy of a frame, in nJ. A switch draws the power of the mode that it leads to.
    fn energy(&self) -> u64
        ensures value { result ≡ energy_of (Turns self.now) }
        ensures weak { result ≤ top_power * self.now.frame }
    {
        let low = u64::from(self.low.power) * u64::from(self.low_time);
        let high = u64::from(self.high.power) * u64::from(self.high_time);
        low + high
    }
}

impl Drive {
    // The highest speed of the drive.
    pub fn peak(&self) -> u32
        ensures { result ≡ peak self.now }
    {
        match self {
            Drive::Fixed(mode) => mode.speed,
            Drive::Pair(pair) => pair.high.speed,
        }
    }

    // The mean power of the drive.
    pub fn cost(&self) -> Cost
        ensures energy { result.energy ≡ energy_of self.now }
        ensures frame { result.frame ≡ span_of self.now }
    {
        match self {
            Drive::Fixed(mode) => Cost {
                energy: u64::from(mode.power),
                frame: 1,
            },
            Drive::Pair(pair) => Cost {
                energy: pair.energy(),
                frame: pair.frame,
            },
        }
    }
}
