use crate::refusal::Refusal;
use crate::table::Processor;
use std::test::Fail;

// The limits of each entry at both sides of their edges, and repeated entries.
#[test]
fn modes(rt: HostRuntime) -> Result<(), Fail> {
    let mut table = Processor::new(rt.alloc())?;
    let cases = [
        (0, 1, 1, Err(Refusal::ModeNumber)),
        (17, 1, 1, Err(Refusal::ModeNumber)),
        (1, 10_001, 100_001, Err(Refusal::SpeedLimit)),
        (1, 10_000, 100_001, Err(Refusal::PowerLimit)),
        (1, 10_000, 100_000, Ok(())),
        (16, 0, 0, Ok(())),
        (1, 10_001, 0, Err(Refusal::ModeRepeated)),
    ];
    for (number, speed, power, answer) in cases {
        assert_eq!(rt; table.add_mode(number, speed, power), answer);
    }
    let cases = [
        (2, 1, 0, Err(Refusal::FromUnlisted)),
        (1, 2, 0, Err(Refusal::ToUnlisted)),
        (1, 1, 0, Err(Refusal::SwitchToItself)),
        (1, 16, 20_001, Err(Refusal::SwitchLimit)),
        (1, 16, 20_000, Ok(())),
        (1, 16, 20_001, Err(Refusal::SwitchRepeated)),
    ];
    for (from, to, time, answer) in cases {
        assert_eq!(rt; table.add_switch(from, to, time), answer);
    }
    Ok(())
}

#[test]
fn frames(rt: HostRuntime) -> Result<(), Fail> {
    let mut table = Processor::new(rt.alloc())?;
    let cases = [
        (0, Err(Refusal::FrameLimit)),
        (20_001, Err(Refusal::FrameLimit)),
        (20_000, Ok(())),
        (20_000, Err(Refusal::FrameRepeated)),
    ];
    for (length, answer) in cases {
        assert_eq!(rt; table.add_frame(length), answer);
    }
    for length in 1..=7 {
        assert_eq!(rt; table.add_frame(length), Ok(()));
    }
    assert_eq!(rt; table.add_frame(9), Err(Refusal::NinthFrame));
    assert_eq!(rt; table.longest_frame_below(20_000), Some(7));
    Ok(())
}

// The pair of the label printer: its lawful high times are 641 to 9,439.
#[test]
fn pairs(rt: HostRuntime) -> Result<(), Fail> {
    let mut table = Processor::new(rt.alloc())?;
    table.add_mode(1, 20, 480)?;
    table.add_mode(2, 40, 810)?;
    table.add_switch(1, 2, 240)?;
    table.add_switch(2, 1, 160)?;
    table.add_frame(9_600)?;
    let cases = [
        (1, 2, 8_959, 641, true),
        (1, 2, 8_960, 640, false),
        (1, 2, 161, 9_439, true),
        (1, 2, 160, 9_440, false),
        (2, 1, 4_800, 4_800, false),
        (2, 2, 0, 0, true),
        (2, 2, 0, 1, false),
        (3, 3, 0, 0, false),
    ];
    for (low, high, low_time, high_time, listed) in cases {
        assert_eq!(rt;
            table.candidate(low, high, low_time, high_time).is_some(),
            listed
        );
    }
    Ok(())
}
