use crate::part::{Broken, Part, Record};
use crate::records::{field, next_record};
use std::process::Abort;

// The first record of a text ends here, the next one starts there, and it has so many fields.
fn reads(rt: &impl Abort, text: &[u8], end: usize, next: usize, fields: u32) {
    let record = Record {
        start: 0,
        end,
        next,
        fields,
    };
    assert_eq!(rt; next_record(text, 0), Ok(record));
}

// The first record of a text breaks in this field, whose text lies there.
fn breaks(rt: &impl Abort, text: &[u8], field: u32, start: usize, end: usize) {
    assert_eq!(rt; next_record(text, 0), Err(Broken { field, start, end }));
}

// The field of the record that starts at the first byte lies there.
fn lies(rt: &impl Abort, text: &[u8], number: u32, start: usize, end: usize) {
    let record = Record {
        start: 0,
        end: 0,
        next: 0,
        fields: 0,
    };
    assert_eq!(rt; field(text, &record, number), Some(Part { start, end }));
}

#[test]
fn records(rt: HostRuntime) {
    reads(&rt, b"", 0, 0, 1);
    reads(&rt, b"\r\n", 0, 2, 1);
    reads(&rt, b"a,b\r\nc", 3, 5, 2);
    reads(&rt, b"a,", 2, 2, 2);
    reads(&rt, b"\"a,\r\n\"\"\",b", 10, 10, 2);
    reads(&rt, b"\"\"\r\n", 2, 4, 1);
    assert_eq!(rt;
        next_record(b"a\r\n~ !", 3),
        Ok(Record {
            start: 3,
            end: 6,
            next: 6,
            fields: 1,
        })
    );
    assert_eq!(rt;
        next_record(b"a", 9),
        Ok(Record {
            start: 1,
            end: 1,
            next: 1,
            fields: 1,
        })
    );
}

#[test]
fn faults(rt: HostRuntime) {
    breaks(&rt, b"a,b\"c", 2, 2, 3);
    breaks(&rt, b"a,\"b\"c", 2, 2, 5);
    breaks(&rt, b"\"a,\r\n", 1, 0, 5);
    breaks(&rt, b"\"a\"\"", 1, 0, 4);
    breaks(&rt, b"a\rb", 1, 0, 1);
    breaks(&rt, b"a\nb", 1, 0, 1);
    breaks(&rt, b"a\r", 1, 0, 1);
    breaks(&rt, b"a,b\r\r\n", 2, 2, 3);
    breaks(&rt, b"a\tb", 1, 0, 1);
    breaks(&rt, b"a\x7f", 1, 0, 1);
    breaks(&rt, b"\"a\x80\"", 1, 0, 2);
    breaks(&rt, b"\"a\0\"", 1, 0, 2);
    breaks(&rt, b"\"a\"\"\xff\"", 1, 0, 4);
}

#[test]
fn fields(rt: HostRuntime) {
    lies(&rt, b"a,\"b,\"\"\",,d\r\ne", 1, 0, 1);
    lies(&rt, b"a,\"b,\"\"\",,d\r\ne", 2, 3, 7);
    lies(&rt, b"a,\"b,\"\"\",,d\r\ne", 3, 9, 9);
    lies(&rt, b"a,\"b,\"\"\",,d\r\ne", 4, 10, 11);
    let record = Record {
        start: 3,
        end: 9,
        next: 0,
        fields: 7,
    };
    assert_eq!(rt; field(b"a,b", &record, 1), Some(Part { start: 3, end: 3 }));
    assert_eq!(rt; field(b"a,b", &record, 0), None);
    assert_eq!(rt; field(b"a,b", &record, 2), None);
}
