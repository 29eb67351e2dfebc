//! Laws of shown operands, each a function of no effect whose contract is the law: what is shown is read again.
ghost use Rattle.std.specs.Prelude.{◌≡◌, ◌<◌, ◌^◌, ◌++◌, [], IsTrue, false, codes, Some};
ghost use Rattle.std.specs.Fmt.{decimal};
ghost use Rattle.number_text.specs.Hexadecimal.{word_text};
ghost use Rattle.a32_instr.specs.Block.{registers_of};
ghost use Rattle.a32_forms.specs.Text.{begins_wordy, parts};
ghost use Rattle.a32_forms.specs.Numbers.{number_of};
ghost use Rattle.a32_forms.specs.Names.{register_of, register_name, shift_of, shift_name};
ghost use Rattle.a32_forms.specs.Registers.{list_text, registers_in};
ghost use Rattle.a32_forms.specs.Forms.{chosen, form_in, takes};
ghost use Rattle.a32_forms.specs.Written.{written};
ghost use Rattle.a32_forms.specs.Fits.{fits_form};
ghost use Rattle.a32_forms.specs.Shown.{is_form, pieces};
ghost use Rattle.a32_forms.specs.Apart.{stands};

/// Registers, kinds of shift, numbers and lists of registers are read again as they are shown.
pub fn words_are_read_again(number: u64)
    ensures register { number < 16 → register_of (register_name number) ≡ Some number }
    ensures shift { number < 4 → shift_of (shift_name number) ≡ Some number }
    ensures decimal { number < 2 ^ 32 → number_of (decimal number) ≡ Some number }
    ensures hexadecimal { number < 2 ^ 32 → number_of (codes "0x" ++ word_text number) ≡ Some number }
    ensures list { 0 < number → number < 2 ^ 16 → registers_in (parts (list_text (registers_of number))) ≡ Some number }
{}

/// Operands that are shown have the parts of their form, whatever stands behind them that is no part of a word.
#[tactic(auto, using(crate::proofs::PartsWritten::parts_written))]
pub fn shown_operands_have_their_parts(form: &[u8], numbers: &[u64], rest: &[u8])
    requires known { IsTrue (is_form form.now) }
    requires fits { IsTrue (fits_form form.now numbers.now) }
    requires ends { begins_wordy rest.now ≡ false }
    ensures { parts (written form.now numbers.now ++ rest.now) ≡ pieces form.now numbers.now ++ parts rest.now }
{}

/// A form takes from operands that it shows the numbers that they were shown with.
#[tactic(auto, using(crate::proofs::Again::again))]
pub fn shown_operands_are_read_again(form: &[u8], numbers: &[u64])
    requires known { IsTrue (is_form form.now) }
    requires fits { IsTrue (fits_form form.now numbers.now) }
    ensures { takes form.now (parts (written form.now numbers.now)) ≡ Some (record { numbers = numbers.now; name = [] }) }
{}

/// A form of a table is the one that is chosen for the operands that it shows, with the numbers that they were shown with.
#[tactic(auto, using(crate::proofs::ChosenAgain::chosen_again))]
pub fn shown_forms_are_chosen_again(forms: &[u8], at: usize, numbers: &[u64])
    requires stands { IsTrue (stands forms.now at) }
    requires fits { IsTrue (fits_form (form_in forms.now at) numbers.now) }
    ensures { chosen forms.now (parts (written (form_in forms.now at) numbers.now))
        ≡ Some (record { form = at; fields = record { numbers = numbers.now; name = [] } }) }
{}
