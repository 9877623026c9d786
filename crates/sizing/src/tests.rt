use crate::size::{SizeError, fault_line, size};
use demand::edf::Edf;
use demand::fp::Fp;
use report::Row;
use std::alloc::Global;
use std::process::Abort;
use std::test::Fail;

const TASKS: &[u8] = b"rank,cycles,fixed,period,deadline\r\n1,240000,400,9600,9600\r\n";

// Two files give this report, or a fault whose line is this.
fn prints(
    rt: &impl Abort,
    sized: Result<String, SizeError>,
    expected: Result<&str, &str>,
) -> Result<(), Fail> {
    match sized {
        Ok(report) => assert_eq!(rt; Ok(report.as_str()), expected),
        Err(SizeError::Faulty(fault)) => {
            let line = fault_line(&fault).text();
            assert_eq!(rt; Err(line.as_str()), expected);
        }
        Err(SizeError::Refused(refusal)) => return Err(refusal.into()),
    }
    Ok(())
}

// A switch to a mode that is not listed, under both policies.
#[test]
fn a_switch_to_an_unlisted_mode(rt: HostRuntime) -> Result<(), Fail> {
    let heap: Global = rt.alloc();
    let processor = b"kind,a,b,c\r\nmode,1,20,480\r\nmode,2,40,810\r\nswitch,1,3,10\r\n";
    prints(
        &rt,
        size(heap, Edf, processor, TASKS),
        Err("fault,12,1,3,3\r\n"),
    )?;
    prints(
        &rt,
        size(heap, Fp, processor, TASKS),
        Err("fault,12,1,3,3\r\n"),
    )
}

// A file that is not there, and one task on a fixed mode.
#[test]
fn short_files(rt: HostRuntime) -> Result<(), Fail> {
    let heap: Global = rt.alloc();
    prints(&rt, size(heap, Edf, b"", TASKS), Err("fault,3,1,0,0\r\n"))?;
    let processor = b"kind,a,b,c\r\nmode,2,40,810\r\nmode,1,20,480\r\n";
    prints(
        &rt,
        size(heap, Fp, processor, b""),
        Err("fault,3,2,0,0\r\n"),
    )?;
    let report =
        "record,answer,ticket,low,high,qlow,qhigh,nanojoule,frame\r\n1,0,1,2,2,0,0,810,1\r\n";
    prints(&rt, size(heap, Fp, processor, TASKS), Ok(report))
}
