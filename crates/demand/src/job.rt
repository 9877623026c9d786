ghost use Rattle.std.specs.Prelude.{◌≡◌, ◌≤◌};
ghost use Rattle.processor.specs.Drives.{peak};
ghost use Rattle.demand.specs.Charges.{charge};
ghost use Rattle.demand.specs.Demand.{jobs, releases};
ghost use Rattle.demand.specs.Limits.{most_charge};

use crate::task::Task;
use crate::times::Times;
use processor::drive::Drive;

impl Task {
    // The cycles of a job at the drive's peak speed, at which the fixed time costs the most of them.
    pub fn charge(&self, drive: &Drive) -> u64
        ensures value { result ≡ (charge (peak drive.now) self.now).cycles }
        ensures bound { result ≤ most_charge }
    {
        u64::from(self.cycles) + u64::from(self.fixed) * u64::from(drive.peak())
    }

    // When the jobs from the start of a window on are due.
    pub(crate) fn dues(&self) -> Times
        ensures { (result.first ≡ self.now.deadline) × (result.step ≡ self.now.period) }
    {
        Times {
            first: self.deadline,
            step: self.period,
        }
    }

    // How many jobs arrive and are due within a window.
    pub fn jobs(&self, window: u32) -> u32
        ensures value { result ≡ jobs self.now.deadline self.now.period window }
        ensures bound { result ≤ window }
    {
        self.dues().count(window)
    }

    // How many jobs arrive within a window.
    pub fn releases(&self, window: u32) -> u32
        ensures value { result ≡ releases self.now.period window }
        ensures bound { result ≤ window }
    {
        let end = u64::from(window) + u64::from(self.period) - 1;
        (end / u64::from(self.period)) as u32
    }
}
