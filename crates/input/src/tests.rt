use crate::fault::{Fault, Layer, Source, Unread};
use crate::processor_file::read_processor;
use crate::shown::fault_text;
use crate::tasks_file::read_tasks;
use processor::refusal::Refusal;
use std::alloc::Global;
use std::process::Abort;
use std::test::Fail;

// A fault in the processor's file.
fn fault(layer: Layer, cause: Refusal, record: u32, field: u32) -> Fault {
    Fault {
        layer,
        cause,
        file: Source::Processor,
        record,
        field,
    }
}

// A processor's file has this fault, and this is the text of the field at fault.
fn refuses(
    rt: &impl Abort,
    heap: Global,
    file: &[u8],
    fault: Fault,
    text: Option<&[u8]>,
) -> Result<(), Fail> {
    assert!(rt; fault_text(file, b"", &fault) == text);
    assert_eq!(rt;
        read_processor(heap, file).err(),
        Some(Unread::Faulty(fault))
    );
    Ok(())
}

#[test]
fn records(rt: HostRuntime) -> Result<(), Fail> {
    let heap = rt.alloc();
    refuses(
        &rt,
        heap,
        &[b'a'; 65_537],
        fault(Layer::Bytes, Refusal::FileTooLong, 0, 0),
        None,
    )?;
    refuses(
        &rt,
        heap,
        b"",
        fault(Layer::Records, Refusal::HeaderDiffers, 0, 0),
        None,
    )?;
    refuses(
        &rt,
        heap,
        b"kind,a,\"b",
        fault(Layer::Records, Refusal::NotCsv, 0, 3),
        Some(b"\"b"),
    )?;
    refuses(
        &rt,
        heap,
        b"kind,a,b,d\r\n",
        fault(Layer::Records, Refusal::HeaderDiffers, 0, 0),
        None,
    )?;
    refuses(
        &rt,
        heap,
        b"kind,a,b,c\r\n",
        fault(Layer::Table, Refusal::NoMode, 0, 0),
        None,
    )?;
    refuses(
        &rt,
        heap,
        b"kind,a,b,c\r\n\r\n",
        fault(Layer::Records, Refusal::FieldCount, 1, 0),
        None,
    )?;
    refuses(
        &rt,
        heap,
        b"kind,\"a\",b,c\r\nmode,1,2,3\r\nfan,x,x,x",
        fault(Layer::Numbers, Refusal::UnknownKind, 2, 1),
        Some(b"fan"),
    )?;
    refuses(
        &rt,
        heap,
        b"kind,a,b,c\r\nframe,x,,\"1\"",
        fault(Layer::Numbers, Refusal::FrameFieldFilled, 1, 4),
        Some(b"1"),
    )?;
    refuses(
        &rt,
        heap,
        b"kind,a,b,c\r\nframe,,\"\",\r\n",
        fault(Layer::Numbers, Refusal::NotANumber, 1, 2),
        Some(b""),
    )?;
    refuses(
        &rt,
        heap,
        b"kind,a,b,c\r\nswitch,1,x\t",
        fault(Layer::Records, Refusal::NotCsv, 1, 3),
        Some(b"x"),
    )
}

// What the table refuses of the records after a header and two modes.
fn table_refuses(
    rt: &impl Abort,
    heap: Global,
    entry: &[u8],
    cause: Refusal,
    field: u32,
    text: &[u8],
) -> Result<(), Fail> {
    let mut file = b"kind,a,b,c\r\nmode,1,10000,100000\r\nmode,16,0,0\r\n".to_vec(heap)?;
    file.extend_from_slice(entry)?;
    refuses(
        rt,
        heap,
        file.as_slice(),
        fault(Layer::Table, cause, 3, field),
        Some(text),
    )
}

#[test]
fn table(rt: HostRuntime) -> Result<(), Fail> {
    let heap = rt.alloc();
    table_refuses(&rt, heap, b"mode,0,0,0", Refusal::ModeNumber, 2, b"0")?;
    table_refuses(&rt, heap, b"mode,016,0,0", Refusal::ModeRepeated, 2, b"016")?;
    table_refuses(
        &rt,
        heap,
        b"mode,2,10001,0",
        Refusal::SpeedLimit,
        3,
        b"10001",
    )?;
    table_refuses(
        &rt,
        heap,
        b"mode,2,0,100001",
        Refusal::PowerLimit,
        4,
        b"100001",
    )?;
    table_refuses(&rt, heap, b"switch,3,1,0", Refusal::FromUnlisted, 2, b"3")?;
    table_refuses(&rt, heap, b"switch,1,3,0", Refusal::ToUnlisted, 3, b"3")?;
    table_refuses(&rt, heap, b"switch,1,1,0", Refusal::SwitchToItself, 3, b"1")?;
    table_refuses(
        &rt,
        heap,
        b"switch,1,16,20001",
        Refusal::SwitchLimit,
        4,
        b"20001",
    )?;
    table_refuses(
        &rt,
        heap,
        b"frame,20001,,",
        Refusal::FrameLimit,
        2,
        b"20001",
    )?;
    let twice = b"kind,a,b,c\r\nframe,5,,\r\nframe,5,,\r\n";
    refuses(
        &rt,
        heap,
        twice,
        fault(Layer::Table, Refusal::FrameRepeated, 2, 2),
        Some(b"5"),
    )?;
    let back = b"kind,a,b,c\r\nmode,1,1,1\r\nmode,2,1,1\r\nswitch,1,2,3\r\nswitch,1,2,99999";
    refuses(
        &rt,
        heap,
        back,
        fault(Layer::Table, Refusal::SwitchRepeated, 4, 3),
        Some(b"2"),
    )?;
    let nine =
        b"kind,a,b,c\r\nframe,1,,\r\nframe,2,,\r\nframe,3,,\r\nframe,4,,\r\nframe,5,,\r\nframe,6,,\r\nframe,7,,\r\nframe,8,,\r\nframe,9,,";
    refuses(
        &rt,
        heap,
        nine,
        fault(Layer::Table, Refusal::NinthFrame, 9, 2),
        Some(b"9"),
    )
}

#[test]
fn tasks(rt: HostRuntime) -> Result<(), Fail> {
    let heap = rt.alloc();
    let file = b"rank,cycles,fixed,period,deadline\r\n4294967295,0000000001,\"2\",3,4\r\n5,6,7,8,9";
    let read = read_tasks(heap, file)?;
    assert!(rt; read.len() == 2);
    assert_eq!(rt; read[0].rank, u32::MAX);
    assert_eq!(rt; read[0].cycles, 1);
    assert_eq!(rt; read[0].fixed, 2);
    assert_eq!(rt; read[1].period, 8);
    assert_eq!(rt; read[1].deadline, 9);
    let fault = Fault {
        layer: Layer::Numbers,
        cause: Refusal::NotANumber,
        file: Source::Tasks,
        record: 1,
        field: 4,
    };
    let file = b"rank,cycles,fixed,period,deadline\r\n4294967295,0,0000000000,4294967296,-";
    assert!(rt; fault_text(b"", file, &fault) == Some(b"4294967296"));
    assert_eq!(rt; read_tasks(heap, file).err(), Some(Unread::Faulty(fault)));
    let shown = format!(in heap; "{fault}")?;
    assert!(rt;
        shown.as_str() == "record 1, field 4: expected one to ten digits, at most 4294967295"
    );
    Ok(())
}
