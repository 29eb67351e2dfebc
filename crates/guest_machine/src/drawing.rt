//! Whose turn it is.
ghost use Rattle.std.specs.Prelude.{◌≡◌, ◌≤◌, Some, length};
ghost use Rattle.guest_machine.specs.Turns.{drawn, turn_of, without};

/// The next number after a number.
pub(crate) fn drawn(x: u64) -> u64
    ensures { result ≡ drawn x }
{
    x.wrapping_mul(6_364_136_223_846_793_005)
        .wrapping_add(1_442_695_040_888_963_407)
}

/// The thread whose turn a number gives, of those that have not stopped.
pub(crate) fn turn_of(x: u64, live: &[u32]) -> u32
    requires { 1 ≤ length live.now }
    ensures { turn_of x live.now ≡ Some result }
{
    live[((x >> 33) % live.len() as u64) as usize]
}

/// Takes a thread out of some.
pub(crate) fn take_out(t: u32, threads: &mut Vec<u32>)
    ensures { threads.new.items ≡ without t threads.old.items }
{
    threads.retain(|other| *other != t);
}
