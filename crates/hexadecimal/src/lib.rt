// A line of lower-case hexadecimal, read by position. A wrong digit and a place past the end count 0: every line is read, and `clean` tells a wrong one.
#![tactic(auto)]

ghost use Rattle.std.specs.Prelude.{◌≡◌, ◌<◌, ◌≤◌, true, length};
ghost use Rattle.units.specs.Logic.{all_of};
ghost use Rattle.hexadecimal.specs.Digits.{is_digit, value_of, clean_of, byte_at};
ghost use Rattle.hexadecimal.specs.Numbers.{number_at, signed_of};
ghost use Rattle.hexadecimal.specs.Granted.{small, padded_values, folded_of};

// The kit's `hex` takes capitals and refuses a wrong digit, where 01 has neither (`value_of`, `byte_at`).

// The digits of a number.
const DIGITS: usize = 16;

#[tactic(auto, unfolding(crate::specs::Digits::is_digit, units::specs::Logic::both))]
fn is_digit(byte: u8) -> bool
    ensures { result ≡ is_digit byte }
{
    byte.is_ascii_digit() | (b'a'..=b'f').contains(&byte)
}

// By tests of ranges: with a `match` on the digit a number takes 12.3 ns in place of 11.9.
#[tactic(auto, unfolding(crate::specs::Digits::value_of, crate::specs::Digits::is_digit, units::specs::Logic::both, units::specs::Logic::pick))]
fn value(digit: u8) -> u8
    ensures value { result ≡ value_of digit }
    ensures small { result < 16 }
{
    if digit.is_ascii_digit() {
        digit - b'0'
    } else if (b'a'..=b'f').contains(&digit) {
        digit - b'a' + 10
    } else {
        0
    }
}

// Is every byte of the line a lower-case hexadecimal digit? With no way out before the end, so that many bytes are tested at a time.
pub fn clean(line: &[u8]) -> bool
    ensures { result ≡ clean_of line.now }
{
    let mut good = true;
    for byte in line {
        good &= is_digit(*byte);
    }
    good
}

// The byte at a place, which is counted in bytes.
pub fn byte_at(line: &[u8], at: usize) -> u8
    ensures { result ≡ byte_at line.now at }
{
    let (bytes, _) = line.as_chunks::<2>();
    match bytes.get(at) {
        Some([high, low]) => 16 * value(*high) + value(*low),
        None => 0,
    }
}

// The values of these digits, and 0 after them. Their count is no constant, so that all digits are read at a time.
fn values(digits: &[u8]) -> [u8; DIGITS]
    requires few { length digits.now ≤ 16 }
    ensures { result ≡ padded_values digits.now }
{
    let mut values = [0; DIGITS];
    for (i, digit) in digits.iter().enumerate() {
        values[i] = value(*digit);
    }
    values
}

// The number of 16 digits, the first the highest. An array of so many: more would not fit.
fn folded(digits: [u8; DIGITS]) -> u64
    requires { all_of small digits ≡ true }
    ensures { result ≡ folded_of digits }
{
    let mut n = 0;
    for digit in digits {
        n = 16 * n + u64::from(digit);
    }
    n
}

// The number of the 8 bytes from a place on.
pub fn number_at(line: &[u8], at: usize) -> u64
    ensures { result ≡ number_at line.now at }
{
    let bytes = line.len() / 2;
    if bytes <= at {
        return 0;
    }
    let end = at + (bytes - at).min(8);
    folded(values(&line[2 * at..2 * end]))
}

// The same as a signed number.
pub fn signed_at(line: &[u8], at: usize) -> i64
    ensures { result ≡ signed_of (number_at line.now at) }
{
    number_at(line, at).cast_signed()
}
