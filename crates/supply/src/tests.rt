use crate::formula::Formula;
use crate::holdoff::Holdoff;
use crate::platform::Platform;
use crate::share::Share;
use crate::sliding::Sliding;
use processor::drive::Drive;
use processor::mode::Mode;
use processor::refusal::Refusal;
use processor::splits::Splits;
use std::process::Abort;
use std::test::Fail;

const LOW: Mode = Mode {
    number: 1,
    speed: 20,
    power: 480,
};

const HIGH: Mode = Mode {
    number: 2,
    speed: 40,
    power: 810,
};

const WINDOWS: [u32; 14] = [
    0, 159, 160, 240, 241, 480, 481, 5_840, 6_001, 9_599, 9_600, 9_841, 1_000_000, 1_000_001,
];

// The two modes in turn, by the split of a frame with this number.
fn turns(frame: u32, up: u32, down: u32, number: u32) -> Result<Drive, Refusal> {
    let splits = Splits::new(LOW, HIGH, up, down, frame).ok_or(Refusal::NoDrive)?;
    let pair = splits.pair(number).ok_or(Refusal::NoDrive)?;
    Ok(Drive::Pair(pair))
}

// Two thirds of what is held off.
fn piled<P: Platform + Drop>(below: P) -> Result<Share<Holdoff<P>>, Refusal> {
    let held = Holdoff::new(240, below)?;
    Ok(Share::new(2, 3, held)?)
}

// Both platforms answer alike, bare and in a pile.
fn alike(rt: &impl Abort, drive: &Drive) -> Result<(), Fail> {
    let formula = piled(Formula)?;
    let sliding = piled(Sliding)?;
    'windows: for window in &WINDOWS {
        assert_eq!(rt;
            Formula.supplied(drive, *window),
            Sliding.supplied(drive, *window)
        );
        assert_eq!(rt;
            formula.supplied(drive, *window),
            sliding.supplied(drive, *window)
        );
    }
    Ok(())
}

#[test]
fn platforms_agree(rt: HostRuntime) -> Result<(), Fail> {
    alike(&rt, &Drive::Fixed(HIGH))?;
    alike(&rt, &turns(9_600, 240, 160, 3_199)?)?;
    alike(&rt, &turns(9_600, 160, 240, 0)?)?;
    alike(&rt, &turns(20_000, 0, 0, 77)?)
}

#[test]
fn piles_supply(rt: HostRuntime) -> Result<(), Fail> {
    let drive = turns(9_600, 240, 160, 3_199)?;
    assert_eq!(rt; Sliding.supplied(&drive, 9_841), Ok(256_020));
    let pile = piled(Sliding)?;
    assert_eq!(rt; pile.supplied(&drive, 480), Ok(0));
    assert_eq!(rt; pile.supplied(&drive, 481), Ok(13));
    assert_eq!(rt; pile.supplied(&drive, 1_000_000), Ok(17_764_266));
    assert_eq!(rt; pile.supplied(&drive, 1_000_001), Err(Refusal::WindowLimit));
    Ok(())
}
