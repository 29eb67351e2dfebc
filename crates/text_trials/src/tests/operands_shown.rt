//! Operands that are shown, against texts that were written by hand.
ghost use Rattle.std.specs.Prelude.{◌≤◌, IsTrue};
ghost use Rattle.a32_forms.specs.Fits.{fits_form, form_room};

use a32_forms::write_form;
use llsc_base::Line;

/// Whether a form with these numbers is shown as this text.
fn shows(form: &[u8], numbers: &[u64], text: &[u8]) -> bool
    requires fits { IsTrue (fits_form form.now numbers.now) }
    requires room { form_room form.now ≤ 96 }
{
    let mut line = Line::new();
    write_form(&mut line, form, numbers);
    line.bytes() == text
}

#[test]
fn shows_operands(rt: HostRuntime) {
    assert!(rt; shows(b"r, r, #n", &[0, 13, 4294967295], b"r0, sp, #4294967295"));
    assert!(rt; shows(b"r, r, r, k #n", &[14, 15, 9, 3, 7], b"lr, pc, r9, ror #7"));
    assert!(rt; shows(b"r, r, X", &[1, 10], b"r1, r10, rrx"));
    assert!(rt; shows(b"r, [r, #~n]!", &[14, 13, 1, 4, 1], b"lr, [sp, #-4]!"));
    assert!(rt; shows(b"r, [r, #~n]!", &[2, 3, 0, 18, 0], b"r2, [r3, #18]"));
    assert!(rt; shows(b"r, [r], ~r", &[4, 5, 1, 6], b"r4, [r5], -r6"));
    assert!(rt; shows(b"r!, {b}", &[13, 1, 0x8010], b"sp!, {r4, pc}"));
    assert!(rt;
        shows(
            b"r!, {b}",
            &[1, 0, 0xffff],
            b"r1, {r0, r1, r2, r3, r4, r5, r6, r7, r8, r9, r10, r11, r12, sp, lr, pc}",
        )
    );
    assert!(rt; shows(b"x", &[0x1_00f4], b"0x000100f4"));
}
