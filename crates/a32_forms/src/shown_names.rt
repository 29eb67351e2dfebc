//! The names by which registers and kinds of shift are shown.
ghost use Rattle.std.specs.Prelude.{◌≡◌, ◌<◌};
ghost use Rattle.a32_forms.specs.Names.{register_name, shift_name};

/// The name of a register: r0 to r12, sp, lr, pc.
pub fn register_name(number: u64) -> &'static [u8]
    requires { number < 16 }
    ensures { result.now ≡ register_name number }
{
    match number {
        0 => b"r0",
        1 => b"r1",
        2 => b"r2",
        3 => b"r3",
        4 => b"r4",
        5 => b"r5",
        6 => b"r6",
        7 => b"r7",
        8 => b"r8",
        9 => b"r9",
        10 => b"r10",
        11 => b"r11",
        12 => b"r12",
        13 => b"sp",
        14 => b"lr",
        _ => b"pc",
    }
}

/// The name of a kind of shift.
pub fn shift_name(kind: u64) -> &'static [u8]
    requires { kind < 4 }
    ensures { result.now ≡ shift_name kind }
{
    match kind {
        0 => b"lsl",
        1 => b"lsr",
        2 => b"asr",
        _ => b"ror",
    }
}
