ghost use Rattle.std.specs.Prelude.{◌≡◌, ℕ, ◌+◌, ◌*◌, ◌/◌, ◌%◌, ◌^◌, ◌<◌, ◌≤◌, true, length};
ghost use Rattle.std.specs.Prelude.{IfSome};
ghost use Rattle.std.specs.List.{list_all};
ghost use Rattle.pdp_word.specs.Number.{is_digit, is_number, worth, number_of, octal_digits};

/// The number that 1 to 10 octal digits write [P]. `None` for any other text: an empty one, one of
/// more than 10 bytes (leading zeros count too), or one with a byte that is no octal digit.
pub fn read_octal(text: &[u8]) -> Option<u32>
    ensures value { result ≡ number_of 8 text.now }
    ensures range { IfSome result (λ number. number < 8 ^ 10) }
{
    let number = read_digits(text, 8)?;
    Some(number as u32)
}

/// The number that 1 to 10 decimal digits write [P]. `None` for any other text: an empty one, one
/// of more than 10 bytes (leading zeros count too), or one with a byte that is no decimal digit.
pub fn read_decimal(text: &[u8]) -> Option<u64>
    ensures value { result ≡ number_of 10 text.now }
    ensures range { IfSome result (λ number. number < 10 ^ 10) }
{
    read_digits(text, 10)
}

/// The last six octal digits of a number, as text [P]: all digits of a word or of an address of 18
/// bits, with leading zeros.
#[tactic(auto, unfolding(crate::specs::Number::octal_digits))]
pub fn write_octal6(number: u32) -> [u8; 6]
    ensures digits { result ≡ octal_digits 6 number }
    ensures reads_back { number < 8 ^ 6 → number_of 8 result ≡ Some number }
{
    [
        octal_digit(number / 0o100000),
        octal_digit(number / 0o10000),
        octal_digit(number / 0o1000),
        octal_digit(number / 0o100),
        octal_digit(number / 0o10),
        octal_digit(number),
    ]
}

/// The last octal digit, as text.
fn octal_digit(number: u32) -> u8
    ensures { result ≡ 48 + number % 8 }
{
    b'0' + (number % 8) as u8
}

#[tactic(auto, using(crate::proofs::Rules::digits), unfolding(crate::specs::Number::number_of))]
fn read_digits(text: &[u8], base: u8) -> Option<u64>
    requires some { 0 < base }
    requires ten { base ≤ 10 }
    ensures value { result ≡ number_of base text.now }
    ensures range { IfSome result (λ number. number < base ^ 10) }
{
    if is_number(text, base) {
        Some(value_of(text, base))
    } else {
        None
    }
}

fn is_number(text: &[u8], base: u8) -> bool
    requires { base ≤ 10 }
    ensures { result ≡ is_number base text.now }
{
    1 <= text.len() && text.len() <= 10 && are_digits(text, base)
}

fn are_digits(text: &[u8], base: u8) -> bool
    requires { base ≤ 10 }
    ensures { result ≡ list_all (is_digit base) text.now }
{
    text.iter().all(|byte| is_digit(*byte, base))
}

fn is_digit(byte: u8, base: u8) -> bool
    requires { base ≤ 10 }
    ensures { result ≡ is_digit base byte }
{
    b'0' <= byte && byte < b'0' + base
}

#[tactic(auto, using(crate::proofs::Rules::digits), unfolding(crate::specs::Number::worth))]
fn value_of(text: &[u8], base: u8) -> u64
    requires ten { base ≤ 10 }
    requires length { length text.now ≤ 10 }
    requires digits { list_all (is_digit base) text.now ≡ true }
    ensures { result ≡ worth base text.now }
{
    let mut value = 0;
    for byte in text {
        value = value * u64::from(base) + u64::from(byte - b'0');
    }
    value
}
