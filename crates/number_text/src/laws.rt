//! Laws of numbers as text, each a function of no effect whose contract is the law.
ghost use Rattle.std.specs.Prelude.{◌≡◌, ◌<◌, ◌^◌, ℕ, Some};
ghost use Rattle.std.specs.Fmt.{decimal};
ghost use Rattle.number_text.specs.Decimal.{plain_number};
ghost use Rattle.number_text.specs.Hexadecimal.{long_number, long_text, word_number, word_text};

/// A word is a plain number exactly where it is the decimal text of a number below 2 to the 64th.
pub fn plain_numbers_are_decimal(word: &[u8])
    ensures text { (n : ℕ) → plain_number word.now ≡ Some n → (word.now ≡ decimal n) × (n < 2 ^ 64) }
    ensures number { (n : ℕ) → n < 2 ^ 64 → plain_number (decimal n) ≡ Some n }
{}

/// A word is eight hexadecimal digits of lower case exactly where it is the text of a number below 2 to the 32nd.
pub fn words_are_eight_digits(word: &[u8])
    ensures text { (n : ℕ) → word_number word.now ≡ Some n → (word.now ≡ word_text n) × (n < 2 ^ 32) }
    ensures number { (n : ℕ) → n < 2 ^ 32 → word_number (word_text n) ≡ Some n }
{}

/// A word is sixteen hexadecimal digits of lower case exactly where it is the text of a number below 2 to the 64th.
pub fn longs_are_sixteen_digits(word: &[u8])
    ensures text { (n : ℕ) → long_number word.now ≡ Some n → (word.now ≡ long_text n) × (n < 2 ^ 64) }
    ensures number { (n : ℕ) → n < 2 ^ 64 → long_number (long_text n) ≡ Some n }
{}
