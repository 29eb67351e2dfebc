//! What each host answers to the calls that the program makes of it.
use super::*;
use llsc_host::{Host, RealHost, SteadyHost};

/// A file's name, the most bytes that are asked for, and what is answered: the file's bytes, or the name of the fault.
type Read = (&'static str, usize, &'static str);

/// What a host answers to one read: the file's bytes, or the name of the fault.
fn answer<H: Host>(
    alloc: Global,
    host: &mut H,
    name: &str,
    most: usize,
) -> Result<Vec<u8>, AllocError> {
    match host.read_file(alloc, String::from_str(alloc, name)?, most) {
        Ok(bytes) => Ok(bytes),
        Err(fault) => fault.name().as_bytes().to_vec(alloc),
    }
}

/// Makes each read, and compares what is answered.
fn read_all<H: Host, R: AllocGlobal + Abort>(
    rt: &R,
    host: &mut H,
    reads: &[Read],
) -> Result<(), Fail> {
    for (name, most, want) in reads {
        let told = answer(rt.alloc(), host, name, *most)?;
        same(
            rt,
            (*name, *most, told.as_slice()),
            (*name, *most, want.as_bytes()),
        );
    }
    Ok(())
}

/// A file of the memory, and of the host that never fails.
const TWELVE: &str = "twelve bytes";

/// Reads of a host in memory that lets one read through and then fails.
const MEMORY_READS: &[Read] = &[
    ("p", 11, "FileTooLong"),
    ("p", 12, TWELVE),
    ("q", 12, "Failed"),
];

/// What is written to a host with space for eight bytes, whether all of it fits, and what stands there then.
const MEMORY_WRITES: &[(&str, bool, &str)] = &[
    ("ab", false, "a"),
    ("bcd", true, "abcd"),
    ("efghi", false, "abcdefgh"),
];

#[test]
fn answers_from_memory(rt: HostRuntime) -> Result<(), Fail> {
    let file = TWELVE.as_bytes().to_vec(rt.alloc())?;
    let failing = vec![in rt.alloc(); (3, 1)]?;
    let mut host = MemoryHost::new(rt.alloc(), holding(rt.alloc(), "p", file)?, failing, 8)?;
    read_all(&rt, &mut host, MEMORY_READS)?;
    for (text, is_whole, want) in MEMORY_WRITES {
        same(&rt, host.write(text.as_bytes()).is_ok(), *is_whole);
        same(&rt, host.written(), want.as_bytes());
    }
    Ok(())
}

/// Reads of a host that never fails: whatever the name, it is the one file.
const STEADY_READS: &[Read] = &[
    ("p", 11, "FileTooLong"),
    ("p", 12, TWELVE),
    ("q", 13, TWELVE),
];

/// What is written to a host with space for four bytes, what it tells of it then, and how many bytes went past.
const STEADY_WRITES: &[(&str, Option<&str>, u64)] = &[
    ("abc", Some("abc"), 0),
    ("d", Some("abcd"), 0),
    ("", Some("abcd"), 0),
    ("efg", None, 3),
    ("", None, 3),
];

#[test]
fn answers_steadily(rt: HostRuntime) -> Result<(), Fail> {
    let file = TWELVE.as_bytes().to_vec(rt.alloc())?;
    let mut host = SteadyHost::new(rt.alloc(), file, 4)?;
    read_all(&rt, &mut host, STEADY_READS)?;
    for (text, told, past) in STEADY_WRITES {
        host.write(text.as_bytes())?;
        same(&rt, host.written(), told.map(|text| text.as_bytes()));
        same(&rt, host.past(), *past);
    }
    Ok(())
}

/// Reads of the system's devices, of a folder, and of a file that there isn't.
const SYSTEM_READS: &[Read] = &[
    ("/dev/null", 0, ""),
    ("/dev/zero", 20_000, "FileTooLong"),
    ("/", 9, "Failed"),
    ("/dev/null/none", 9, "Failed"),
];

#[test]
fn answers_from_the_system(rt: HostRuntime) -> Result<(), Fail> {
    let mut host = RealHost::new(rt.alloc(), &rt);
    read_all(&rt, &mut host, SYSTEM_READS)?;
    host.write(b"")?;
    Ok(())
}
