//! A text that is held in place.
use super::same;
use llsc_base::Line;

#[test]
fn grows(rt: HostRuntime) {
    let mut line = Line::new();
    line.push(b'h');
    line.push(b'i');
    same(&rt, line.bytes(), b"hi");
}
