ghost use Rattle.std.specs.Prelude.{◌≡◌, ◌+◌, ◌≤◌, [], ◌∷◌, ◌++◌, MatchResult};
ghost use Rattle.plan.specs.Admitting.{last_ticket, Sound, Admits, HoldsAfter, Settles};
ghost use Rattle.plan.specs.Feasible.{Feasible};

use crate::feasible::Trial;
use crate::search::cheapest;
use crate::table::TaskTable;
use demand::policy::Policy;
use demand::task::{Figures, Task};
use processor::drive::Drive;
use processor::refusal::Refusal;
use processor::table::Processor;
use supply::platform::Platform;

// The highest ticket.
pub const LAST_TICKET: u32 = 65_535;

// The tasks of a printer, and always the drive of least mean power under which no deadline is missed.
#[derive(Drop)]
pub struct Plan<P: Platform, Q: Policy> {
    processor: Processor,
    platform: P,
    policy: Q,
    table: TaskTable,
    given: u32,
    drive: Drive,
    ghost counted: { given ≤ last_ticket },
}

impl<P: Platform, Q: Policy> Plan<P, Q> {
    // A plan of which nothing is admitted yet.
    pub(crate) fn over(
        processor: Processor,
        platform: P,
        policy: Q,
        table: TaskTable,
        drive: Drive,
    ) -> Plan<P, Q>
        ensures { (result.processor ≡ processor) × (result.platform ≡ platform) × (result.policy ≡ policy) × (result.table ≡ table) × (result.given ≡ 0) × (result.drive ≡ drive) }
    {
        Plan {
            processor,
            platform,
            policy,
            table,
            given: 0,
            drive,
        }
    }

    // Takes a task in and answers its ticket.
    pub fn admit(&mut self, figures: Figures) -> Result<u32, Refusal>
        ensures answer { Admits self.old.processor (Q.Policy.span self.old.policy) (Feasible (P.Platform.supply self.old.platform) (Q.Policy.full self.old.policy)) self.old.table.set self.old.given figures result }
        ensures tasks { HoldsAfter self.old.table.set figures self.new.table.set result }
        ensures tickets { MatchResult result (λ n. (self.new.given ≡ n) × (self.new.table.tickets.items ≡ self.old.table.tickets.items ++ n ∷ [])) (λ _. (self.new.given ≡ self.old.given) × (self.new.table.tickets.items ≡ self.old.table.tickets.items) × (self.new.drive ≡ self.old.drive)) }
        ensures kept { (self.new.processor ≡ self.old.processor) × (self.new.platform ≡ self.old.platform) × (self.new.policy ≡ self.old.policy) }
        ensures sound { Sound self.old.processor (Q.Policy.span self.old.policy) (Feasible (P.Platform.supply self.old.platform) (Q.Policy.full self.old.policy)) self.old.table.set self.old.drive → Sound self.new.processor (Q.Policy.span self.new.policy) (Feasible (P.Platform.supply self.new.platform) (Q.Policy.full self.new.policy)) self.new.table.set self.new.drive }
    {
        let task = Task::try_from(figures)?;
        let ticket = self.given + 1;
        self.table.add(ticket, task)?;
        match self.settled(ticket) {
            Ok(drive) => {
                self.given = ticket;
                self.drive = drive;
                Ok(ticket)
            }
            Err(refusal) => {
                self.table.drop_newest();
                Err(refusal)
            }
        }
    }

    // The cheapest drive for the tasks in the table, if the newest may have its ticket.
    fn settled(&self, ticket: u32) -> Result<Drive, Refusal>
        ensures { Settles self.now.processor (Q.Policy.span self.now.policy) (Feasible (P.Platform.supply self.now.platform) (Q.Policy.full self.now.policy)) self.now.table.set ticket result }
    {
        if ticket > LAST_TICKET {
            return Err(Refusal::NoTickets);
        }
        let trial = Trial::new(&self.platform, &self.policy, self.table.set()).ok_or(
            Refusal::OutsideSpan,
        )?;
        cheapest(&self.processor, &trial).ok_or(Refusal::NoDrive)
    }

    // The present drive.
    pub fn drive(&self) -> Drive
        ensures { result ≡ self.now.drive }
    {
        self.drive
    }
}
