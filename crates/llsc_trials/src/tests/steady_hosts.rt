//! Calls over a host that never fails.
use super::*;
use llsc_call::steady;
use llsc_host::SteadyHost;

/// The words of a call, the space for output, the status, what is told, and how many bytes came past the space.
type SteadyCall = (&'static str, u32, u8, Option<&'static str>, u64);

/// Calls over the program that leaves, whose report has 61 bytes.
const CALLS: &[SteadyCall] = &[
    ("solo --flat p", 100_000, 0, Some(LEFT), 0),
    ("solo --flat p", 61, 0, Some(LEFT), 0),
    ("solo --flat any", 61, 0, Some(LEFT), 0),
    ("solo --flat p", 60, 0, None, 1),
    // the last of three writes is the first that doesn't fit
    ("solo --flat p", 36, 0, None, 25),
    ("solo --flat p", 0, 0, None, 61),
    ("solo p", 12, 4, Some("llsc: Short\n"), 0),
    ("asm p", 14, 4, Some("llsc: NotText\n"), 0),
    ("solo", 12, 2, Some("llsc: words\n"), 0),
    ("load 7 --rounds 0", 12, 4, Some("llsc: Range\n"), 0),
];

/// Makes a call over a host that never fails, and compares its status and what the host tells.
fn answer_steady<R: Threads + Wait + Sync + AllocGlobal + Abort>(
    rt: &R,
    call: SteadyCall,
) -> Result<(), Fail> {
    let (words, space, status, told, past) = call;
    let alloc = rt.alloc();
    let texts = owned(alloc, words)?;
    let mut host = SteadyHost::new(alloc, bytes_of(alloc, LEAVE)?, space)?;
    let ended = steady(rt, alloc, texts.as_slice(), &mut host);
    let wanted = (status, told.map(|text| text.as_bytes()), past);
    let given = (ended.status, host.written(), host.past());
    same(rt, (words, space, given), (words, space, wanted));
    Ok(())
}

#[test]
fn answers_over_a_steady_host(rt: HostRuntime) -> Result<(), Fail> {
    for call in CALLS {
        answer_steady(&rt, *call)?;
    }
    Ok(())
}
