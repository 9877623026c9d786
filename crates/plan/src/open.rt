ghost use Rattle.std.specs.Prelude.{◌≡◌, ◌<◌, ◌⊎◌, [], length, MatchResult};
ghost use Rattle.processor.specs.declared.refusal.Refusal.TheVariants.{NoMode, Memory};
ghost use Rattle.plan.specs.Admitting.{Sound};
ghost use Rattle.plan.specs.Feasible.{Feasible};

use crate::opening::Opening;
use crate::plan::Plan;
use crate::search::cheapest_feasible;
use crate::table::TaskTable;
use demand::policy::Policy;
use processor::refusal::{Refusal, Refused};
use processor::table::Processor;
use std::alloc::Global;
use supply::platform::Platform;

impl Opening {
    // Whether a plan may be opened; where it may not, why, and the processor back.
    pub fn new(heap: Global, processor: Processor) -> Result<Opening, Refused<Processor>>
        ensures { MatchResult result (λ o. o.processor ≡ processor) (λ u. (u.value ≡ processor) × (((u.refusal ≡ NoMode) × (processor.modes.items ≡ [])) ⊎ ((u.refusal ≡ Memory) × (0 < length processor.modes.items)))) }
    {
        if !processor.has_mode() {
            return Err(Refused {
                refusal: Refusal::NoMode,
                value: processor,
            });
        }
        let Ok(table) = TaskTable::new(heap) else {
            return Err(Refused {
                refusal: Refusal::Memory,
                value: processor,
            });
        };
        Ok(Opening { processor, table })
    }

    // Opens the plan, without tasks. It names the cheapest drive of all.
    pub fn open<P: Platform, Q: Policy>(self, platform: P, policy: Q) -> Plan<P, Q>
        ensures kept { (result.processor ≡ self.processor) × (result.platform ≡ platform) × (result.policy ≡ policy) }
        ensures empty { (result.table.set ≡ []) × (result.table.tickets.items ≡ []) × (result.given ≡ 0) }
        ensures sound { Sound result.processor (Q.Policy.span result.policy) (Feasible (P.Platform.supply result.platform) (Q.Policy.full result.policy)) result.table.set result.drive }
    {
        let Opening { processor, table } = self;
        let drive = cheapest_feasible(&processor, &platform, &policy, table.set()).unwrap();
        Plan::over(processor, platform, policy, table, drive)
    }
}
