use crate::size::{SizeError, fault_line, size};
use anyhow::anyhow;
use demand::policy::Policy;
use input::fault::{Fault, Source};
use input::line::LONGEST_FILE;
use input::shown::fault_text;
use std::fs::File;
use std::io::{Read, Write};
use std::{env, io};

// A file of the arguments: its path, and its bytes.
#[derive(Drop)]
struct InputFile {
    path: String,
    bytes: Vec<u8>,
}

impl InputFile {
    // Reads a file, at most one byte more than a file may have. One that can't be opened or read counts as empty.
    fn read(rt: &HostRuntime, path: String) -> io::Result<InputFile> {
        let mut bytes = Vec::new(rt.alloc());
        if let Ok(file) = File::open(rt, &path) {
            if let Err(error) = file.take(LONGEST_FILE as u64 + 1).read_to_end(&mut bytes) {
                if error.kind() == io::ErrorKind::OutOfMemory {
                    return Err(error);
                }
                bytes.clear();
            }
        }
        Ok(InputFile { path, bytes })
    }
}

// The two paths, the processor's first.
fn paths(rt: &HostRuntime) -> anyhow::Result<(String, String)> {
    let heap = rt.alloc();
    let mut args = env::args(rt)?;
    let _name = args.next();
    match (args.next(), args.next(), args.next()) {
        (None, None, None) => Ok((
            String::from_str(heap, "processor.csv")?,
            String::from_str(heap, "tasks.csv")?,
        )),
        (Some(processor), Some(tasks), None) => Ok((processor, tasks)),
        _ => Err(anyhow!(
            "give no arguments, or the paths of the processor file and the tasks file"
        )),
    }
}

// Tells a person where a file has a fault, what was expected there, and the text that is there.
fn explain(rt: &HostRuntime, path: &str, fault: &Fault, text: Option<&[u8]>) -> anyhow::Result<()> {
    eprint!(rt; "{path}: {fault}")?;
    if let Some(bytes) = text {
        rt.stderr().write_all(b", found ")?;
        rt.stderr().write_all(bytes)?;
    }
    eprintln!(rt)?;
    Ok(())
}

// Prints the line of a fault, and the sentence about it on standard error.
fn print_fault(
    rt: &HostRuntime,
    fault: &Fault,
    processor: &InputFile,
    tasks: &InputFile,
) -> anyhow::Result<()> {
    print!(rt; "{}", fault_line(fault))?;
    let file = match fault.file {
        Source::Processor => processor,
        Source::Tasks => tasks,
    };
    let text = fault_text(&processor.bytes, &tasks.bytes, fault);
    explain(rt, file.path.as_str(), fault, text)
}

// Sizes the printer of the two files that the arguments name, and prints the report or the fault.
pub fn run<Q: Policy + Drop>(rt: &HostRuntime, policy: Q) -> anyhow::Result<()> {
    let (processor_path, tasks_path) = paths(rt)?;
    let processor = InputFile::read(rt, processor_path)?;
    let tasks = InputFile::read(rt, tasks_path)?;
    let sized = size(rt.alloc(), policy, &processor.bytes, &tasks.bytes);
    if let Err(SizeError::Faulty(fault)) = &sized {
        print_fault(rt, fault, &processor, &tasks)?;
    }
    rt.stdout().write_all(sized?.as_bytes())?;
    Ok(())
}
