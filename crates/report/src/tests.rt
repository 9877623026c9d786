use crate::fault::FaultLine;
use crate::header::Header;
use crate::line::Line;
use crate::row::write;
use processor::drive::{Drive, Pair};
use processor::mode::Mode;
use processor::refusal::Refusal;
use std::test::Fail;

const LOW: Mode = Mode {
    number: 1,
    speed: 20,
    power: 480,
};

const HIGH: Mode = Mode {
    number: 2,
    speed: 40,
    power: 810,
};

#[test]
fn header(rt: HostRuntime) -> Result<(), Fail> {
    let mut buffer = [0u8; 100];
    let end = write(&mut buffer, 0, &Header)?;
    assert!(rt; end == 58);
    assert!(rt;
        &buffer[0..end]
            == b"record,answer,ticket,low,high,qlow,qhigh,nanojoule,frame\r\n".as_slice()
    );
    Ok(())
}

#[test]
fn fixed_drive(rt: HostRuntime) -> Result<(), Fail> {
    let line = Line {
        record: 4294967295,
        answer: Ok(65535),
        drive: Drive::Fixed(HIGH),
    };
    let mut buffer = [0u8; 100];
    let end = write(&mut buffer, 0, &line)?;
    assert!(rt; end == 34);
    assert!(rt; &buffer[0..end] == b"4294967295,0,65535,2,2,0,0,810,1\r\n".as_slice());
    Ok(())
}

#[test]
fn pair(rt: HostRuntime) -> Result<(), Fail> {
    let pair = Pair {
        low: LOW,
        high: HIGH,
        up: 240,
        down: 160,
        frame: 9600,
        low_time: 5760,
        high_time: 3840,
    };
    let line = Line {
        record: 2,
        answer: Err(Refusal::RankTaken),
        drive: Drive::Pair(pair),
    };
    let mut buffer = [0u8; 100];
    let end = write(&mut buffer, 0, &line)?;
    assert!(rt; &buffer[0..end] == b"2,21,0,1,2,5760,3840,5875200,9600\r\n".as_slice());
    Ok(())
}

#[test]
fn fault_between_other_bytes(rt: HostRuntime) -> Result<(), Fail> {
    let fault = FaultLine {
        refusal: Refusal::ToUnlisted,
        file: 1,
        record: 3,
        field: 3,
    };
    let mut buffer = [b'#'; 18];
    let end = write(&mut buffer, 1, &fault)?;
    assert!(rt; end == 17);
    assert!(rt; &buffer == b"#fault,12,1,3,3\r\n#");
    Ok(())
}

#[test]
fn last_bytes_and_one_byte_short(rt: HostRuntime) {
    let line = Line {
        record: 1,
        answer: Err(Refusal::NoDrive),
        drive: Drive::Fixed(LOW),
    };
    let mut buffer = [b'#'; 23];
    assert_eq!(rt; write(&mut buffer, 1, &line), Ok(23));
    assert!(rt; &buffer == b"#1,25,0,1,1,0,0,480,1\r\n");
    let mut short = [b'#'; 22];
    assert_eq!(rt; write(&mut short, 1, &line), Err(Refusal::NoRoom));
    assert!(rt; short == [b'#'; 22]);
}

#[test]
fn no_room_at_the_end_or_past_it(rt: HostRuntime) {
    let mut buffer = [b'#'; 4];
    assert_eq!(rt; write(&mut buffer, 4, &Header), Err(Refusal::NoRoom));
    assert_eq!(rt; write(&mut buffer, 5, &Header), Err(Refusal::NoRoom));
    assert!(rt; buffer == [b'#'; 4]);
}

// What `{}` prints of rows is their lines.
#[test]
fn rows_print(rt: HostRuntime) -> Result<(), Fail> {
    let line = Line {
        record: 1,
        answer: Err(Refusal::NoDrive),
        drive: Drive::Fixed(LOW),
    };
    let fault = FaultLine {
        refusal: Refusal::ToUnlisted,
        file: 1,
        record: 3,
        field: 3,
    };
    let header = Header.to_string(rt.alloc())?;
    assert!(rt; header.as_str() == "record,answer,ticket,low,high,qlow,qhigh,nanojoule,frame\r\n");
    let text = format!(in rt.alloc(); "{line}{fault}")?;
    assert!(rt; text.as_str() == "1,25,0,1,1,0,0,480,1\r\nfault,12,1,3,3\r\n");
    Ok(())
}
