//! What stands at the signs of a form.
ghost use Rattle.std.specs.Prelude.{◌≡◌, ◌<◌, length, slice_index_or};
ghost use Rattle.a32_forms.specs.Forms.{no_fields, number_at, with_number};

use std::marker::Model;

/// How many numbers the signs of a form have at most.
pub const MOST_NUMBERS: usize = 8;

/// What the operands have at the signs of a form: numbers, one for each sign that has one, and the name of a label.
#[derive(Drop)]
pub struct Fields<'a> {
    numbers: [u64; MOST_NUMBERS],
    count: usize,
    name: &'a [u8],
}

impl<'a> Model for Fields<'a> {
    ghost use Rattle.std.specs.Prelude.{◌≤◌, take};
    ghost use Rattle.a32_forms.specs.Forms.{Fields as FormFields};

    ghost Value = { FormFields };

    ghost view = { λ f. record { numbers = take f.count f.numbers; name = f.name.now } };

    ghost invariant = { λ f. f.count ≤ 8 };
}

impl<'a> Fields<'a> {
    /// Nothing so far.
    pub fn new() -> Fields<'a>
        ensures { result ≡ no_fields }
    {
        Fields {
            numbers: [0; MOST_NUMBERS],
            count: 0,
            name: b"",
        }
    }

    /// The same, and a number behind those before it.
    pub fn with_number(mut self, number: u64) -> Fields<'a>
        requires { length self.numbers < 8 }
        ensures { result ≡ with_number number self.entry }
    {
        self.numbers[self.count] = number;
        self.count += 1;
        self
    }

    /// The same with the name of a label.
    pub fn with_name(mut self, name: &'a [u8]) -> Fields<'a>
        ensures { result ≡ record self.entry { name = name.now } }
    {
        self.name = name;
        self
    }

    /// One of the numbers.
    fn number(&self, at: usize) -> u64
        ensures { result ≡ slice_index_or self.now.numbers at 0 }
    {
        if at < self.count { self.numbers[at] } else { 0 }
    }
}

/// The first form that operands have, by its place, and what stands at its signs.
#[derive(Drop)]
pub struct Chosen<'a> {
    form: usize,
    fields: Fields<'a>,
}

impl<'a> Model for Chosen<'a> {
    ghost use Rattle.a32_forms.specs.Forms.{Chosen as ChosenForm};

    ghost Value = { ChosenForm };

    ghost view = { λ c. record { form = c.form; fields = c.fields } };
}

impl<'a> Chosen<'a> {
    /// A form by its place, and what stands at its signs.
    pub(crate) fn new(form: usize, fields: Fields<'a>) -> Chosen<'a>
        ensures { result ≡ record { form = form; fields = fields.entry } }
    {
        Chosen { form, fields }
    }

    /// The place of the form among those of its text, counted from 0.
    pub fn form(&self) -> usize
        ensures { result ≡ self.now.form }
    {
        self.form
    }

    /// The number at one of the signs that have numbers, counted from 0; 0 where there is no such sign.
    pub fn number(&self, at: usize) -> u64
        ensures { result ≡ number_at self.now at }
    {
        self.fields.number(at)
    }

    /// The name of the label; empty where the form has none.
    pub fn name(&self) -> &'a [u8]
        ensures { result.now ≡ self.now.fields.name }
    {
        self.fields.name
    }
}
