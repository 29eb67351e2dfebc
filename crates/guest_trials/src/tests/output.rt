//! The bytes that a thread writes.
use super::same;
use guest_calls::Output;
use std::test::Fail;

#[test]
fn takes_bytes(rt: HostRuntime) -> Result<(), Fail> {
    let mut output = Output::new(rt.alloc())?;
    same(&rt, output.room_left(), 65_536);
    output.push(b'h');
    output.push(b'i');
    same(&rt, output.bytes(), b"hi");
    same(&rt, output.room_left(), 65_534);
    Ok(())
}
