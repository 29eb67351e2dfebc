//! A write to a host, whose contract is one word.
ghost use Rattle.llsc_host.specs.Writes.{Writes};

use crate::host::{Failed, Host};

/// Writes the bytes to the host's output by one write.
///
/// # Errors
///
/// `Failed` where the write failed: the first of the bytes were written, maybe none.
pub fn write<H: Host>(host: &mut H, bytes: &[u8]) -> Result<(), Failed>
    ensures { Writes H.Host host.old host.new bytes.now result }
{
    host.write(bytes)
}
