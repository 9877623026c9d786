use crate::edf::Edf;
use crate::policy::Policy;
use crate::set::TaskSet;
use crate::task::{Figures, Task};
use processor::drive::Drive;
use processor::mode::Mode;
use processor::refusal::Refusal;
use std::test::Fail;

// A task of one cycle that is due by its next release.
fn task(rank: u32, period: u32) -> Result<Task, Refusal> {
    Task::try_from(Figures {
        rank,
        cycles: 1,
        fixed: 0,
        period,
        deadline: period,
    })
}

fn taken(rank: u32, cycles: u32, fixed: u32, period: u32, deadline: u32) -> bool {
    Task::try_from(Figures {
        rank,
        cycles,
        fixed,
        period,
        deadline,
    })
    .is_ok()
}

#[test]
fn limits(rt: HostRuntime) {
    assert!(rt; taken(1, 1, 0, 1, 1));
    assert!(rt; taken(255, 100_000_000, 1_000_000, 1_000_000, 1_000_000));
    assert!(rt; !taken(0, 1, 0, 1, 1));
    assert!(rt; !taken(256, 1, 0, 1, 1));
    assert!(rt; !taken(1, 0, 0, 1, 1));
    assert!(rt; !taken(1, 100_000_001, 0, 1, 1));
    assert!(rt; !taken(1, 1, 1_000_001, 1, 1));
    assert!(rt; !taken(1, 1, 0, 1_000_001, 1));
    assert!(rt; !taken(1, 1, 0, 9, 0));
    assert!(rt; !taken(1, 1, 0, 9, 10));
}

#[test]
fn spans(rt: HostRuntime) -> Result<(), Fail> {
    let mut set = TaskSet::new(rt.alloc())?;
    set.add(task(1, 1_000_000)?)?;
    set.add(task(2, 1_000)?)?;
    assert!(rt; Edf.spans(&set));
    set.drop_newest();
    set.add(task(2, 999_999)?)?;
    assert!(rt; !Edf.spans(&set));
    Ok(())
}

// Fifteen tasks of a period of 1 and one of the longest.
#[test]
fn most_groups(rt: HostRuntime) -> Result<(), Fail> {
    let mut set = TaskSet::new(rt.alloc())?;
    set.add(task(16, 1_000_000)?)?;
    'ranks: for rank in 1..16 {
        set.add(task(rank, 1)?)?;
    }
    let drive = Drive::Fixed(Mode {
        number: 1,
        speed: 20,
        power: 480,
    });
    let Some((time, work)) = Edf.point(&set, &drive, 15_000_001, 0) else {
        return Err(Fail::new("the last group"));
    };
    assert!(rt; time == 1_000_000);
    assert!(rt; work == 15_000_001);
    assert!(rt; Edf.point(&set, &drive, 15_000_002, 0).is_none());
    Ok(())
}
