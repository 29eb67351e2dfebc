//! Lists of registers as they are shown.
ghost use Rattle.std.specs.Prelude.{◌≡◌, ◌+◌, ◌<◌, ◌≤◌, ◌++◌, length};
ghost use Rattle.a32_instr.specs.Block.{is_listed, registers_of};
ghost use Rattle.a32_forms.specs.Names.{register_name};
ghost use Rattle.a32_forms.specs.Registers.{list_text};
ghost use Rattle.a32_forms.specs.inner.Registers.{separator};

use crate::shown_names::register_name;
use llsc_base::Line;
use number_text::write_text;

/// Whether bit r of a list is set.
fn is_listed(list: u64, register: u64) -> bool
    requires { register < 16 }
    ensures { result ≡ is_listed list register }
{
    (list >> register) % 2 == 1
}

/// What stands in front of a register.
fn separator(is_first: bool) -> &'static [u8]
    ensures { result.now ≡ separator is_first }
{
    if is_first { b"" } else { b", " }
}

/// Adds the registers of a list at the end of a line, with a comma and a space between.
pub fn write_list(line: &mut Line, list: u64)
    requires room { length line.old + length (list_text (registers_of list)) ≤ 96 }
    ensures { line.new ≡ line.old ++ list_text (registers_of list) }
{
    let mut is_first = true;
    for register in 0..16u64 {
        if !is_listed(list, register) {
            continue;
        }
        write_text(line, separator(is_first));
        write_text(line, register_name(register));
        is_first = false;
    }
}
