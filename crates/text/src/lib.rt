// What any text of lines has: its first line, and the values in a line (a number of one to three decimal digits, bytes in pairs of
// hexadecimal digits). Every function works on the caller's bytes.

#![tactic(auto)]

ghost use Rattle.std.specs.Prelude.{◌≡◌, true, ◌+◌, ◌*◌, ◌≤◌, ◌<◌, length};
ghost use Rattle.text.specs.Text.{is_digit, digit_of, number_if, number_of, is_hex_digit, hex_digit_of, hex_pairs};
ghost use Rattle.text.specs.Read.{line_length, SplitsLine, Decodes};

// The byte that ends a line.
pub const LINE_END: u8 = b'\n';

// How many bytes the first line of an input has: up to its byte 10, or to where the input ends.
fn line_len(input: &[u8]) -> usize
    ensures { (result ≡ line_length input.now) × (result ≤ length input.now) }
{
    match input.iter().position(|b| *b == LINE_END) {
        Some(end) => end + 1,
        None => input.len(),
    }
}

// The first line of an input, its byte 10 among it, and the rest of the input.
pub fn split_line(input: &[u8]) -> (&[u8], &[u8])
    ensures { SplitsLine input.now result.0.now result.1.now }
{
    input.split_at(line_len(input))
}

// The number of a decimal digit.
fn digit(b: u8) -> Option<u64>
    ensures { result ≡ number_if (is_digit b) (digit_of b) }
{
    match b {
        b'0'..=b'9' => Some(u64::from(b - b'0')),
        _ => None,
    }
}

// The number that a value gives.
#[tactic(auto, using(crate::proofs::NumberLaws::number_cases, std::proofs::lemmas::Bool::Decides::nat_tests))]
pub fn number_of(value: &[u8]) -> Option<u64>
    ensures { result ≡ number_of value.now }
{
    match value {
        [a] => digit(*a),
        [a, b] if *a != b'0' => Some(10 * digit(*a)? + digit(*b)?),
        [a, b, c] if *a != b'0' => Some(100 * digit(*a)? + 10 * digit(*b)? + digit(*c)?),
        _ => None,
    }
}

// Whether a byte is a lower-case hexadecimal digit.
fn is_hex_digit(b: u8) -> bool
    ensures { result ≡ is_hex_digit b }
{
    matches!(b, b'0'..=b'9' | b'a'..=b'f')
}

// Whether a value is an even count of them.
pub fn hex_pairs(value: &[u8]) -> bool
    ensures { result ≡ hex_pairs value.now }
{
    value.len() % 2 == 0 && value.iter().all(|b| is_hex_digit(*b))
}

// The number of a hexadecimal digit.
fn hex_digit_of(b: u8) -> u8
    requires { is_hex_digit b ≡ true }
    ensures { (result ≡ hex_digit_of b) × (result < 16) }
{
    if b <= b'9' { b - b'0' } else { b - b'a' + 10 }
}

// The byte that two hexadecimal digits give.
fn hex_byte(a: u8, b: u8) -> u8
    requires { (is_hex_digit a ≡ true) × (is_hex_digit b ≡ true) }
    ensures { result ≡ 16 * hex_digit_of a + hex_digit_of b }
{
    16 * hex_digit_of(a) + hex_digit_of(b)
}

// Puts the bytes that pairs of hexadecimal digits give at the start of `bytes`, and answers with how many they are.
pub fn decode_bytes(digits: &[u8], bytes: &mut [u8]) -> usize
    requires digits_len_bound { length digits.now ≤ 2 * length bytes.old }
    requires digits_value { hex_pairs digits.now ≡ true }
    ensures { Decodes digits.now bytes.old bytes.new result }
{
    for (i, pair) in digits.chunks_exact(2).enumerate() {
        bytes[i] = hex_byte(pair[0], pair[1]);
    }
    digits.len() / 2
}
