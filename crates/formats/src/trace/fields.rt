// The fields of a line.
ghost use Rattle.std.specs.Prelude.{◌≡◌, ◌==◌, position};
ghost use Rattle.formats.specs.Traces.{small_after as small, number_in as numbered, digit, hex_digit, fill_in as filled, cut as cutting};
ghost use Rattle.formats.specs.Shown.{shown_parts as parts};

// The value of a decimal digit.
fn digit_value(c: u8) -> Option<u32>
    ensures { result ≡ digit c }
{
    char::from(c).to_digit(10)
}

// The number that digits write, if it is at most 65535.
fn small_number(digits: &[u8]) -> Option<u32>
    ensures { result ≡ small 0 digits.now }
{
    let mut value = 0;
    for digit in digits {
        value = 10 * value + digit_value(*digit)?;
        if value > 65535 {
            return None;
        }
    }
    Some(value)
}

// The number that a number field writes: decimal, without a leading zero, at most 65535.
pub fn number_in(field: &[u8]) -> Option<u32>
    ensures { result ≡ numbered field.now }
{
    match field {
        [] | [b'0', _, ..] => None,
        digits => small_number(digits),
    }
}

// The value of a digit of a byte; a capital letter is none.
fn hex_value(c: u8) -> Option<u8>
    ensures { result ≡ hex_digit c }
{
    match c {
        b'0'..=b'9' => Some(c - b'0'),
        b'a'..=b'f' => Some(c - b'a' + 10),
        _ => None,
    }
}

// The byte that a fill field writes, in two digits.
pub fn fill_in(field: &[u8]) -> Option<u8>
    ensures { result ≡ filled field.now }
{
    let [high, low] = field else {
        return None;
    };
    Some(16 * hex_value(*high)? + hex_value(*low)?)
}

// Where the first `c` stands.
fn place_of(text: &[u8], c: u8) -> Option<usize>
    ensures { result ≡ position (λ b. b == c) text.now }
{
    text.iter().position(|b| *b == c)
}

// What stands before and after the first `c`.
pub fn cut(text: &[u8], c: u8) -> Option<(&[u8], &[u8])>
    ensures { parts result ≡ cutting c text.now }
{
    let i = place_of(text, c)?;
    Some((&text[..i], &text[i + 1..]))
}
