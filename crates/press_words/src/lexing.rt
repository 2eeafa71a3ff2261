//! Texts cut at a byte, numbers in decimal, and the values of options.
ghost use Rattle.std.specs.Prelude.{◌≡◌, ◌≤◌, ◌<◌, ◌^◌, true, length, IfSome, IsTrue};
ghost use Rattle.std.specs.List.{list_all};
ghost use Rattle.press_words.specs.Text.{cut_at, is_digit, are_digits, decimal_value, number_of};
ghost use Rattle.press_words.specs.Values.{within, number_from, sides_of, eight_or_sixteen, depth_of, file_of};
ghost use Rattle.press_words.specs.Values.{is_name_byte, is_name};
ghost use Rattle.press_words.specs.Code.Seen.{text_in, parts_in};

/// What stands before the first `=` of a text, and what behind it.
pub(crate) fn at_equals(text: &str) -> Option<(&str, &str)>
    ensures { parts_in result ≡ cut_at 61 text.now }
{
    text.split_once('=')
}

/// What stands before the first `x` of a text, and what behind it.
fn at_x(text: &str) -> Option<(&str, &str)>
    ensures { parts_in result ≡ cut_at 120 text.now }
{
    text.split_once('x')
}

/// The sides in points of 1/72 inch that a size such as `612x792` tells, each from 1 to 14400.
pub(crate) fn sides(size: &str) -> Option<(u32, u32)>
    ensures value { result ≡ sides_of size.now }
    ensures width { IfSome result (λ sides. sides.0 ≤ 14400) }
    ensures height { IfSome result (λ sides. sides.1 ≤ 14400) }
{
    let (width, height) = at_x(size)?;
    match (
        number_from(width, 1, 14_400),
        number_from(height, 1, 14_400),
    ) {
        (Some(width), Some(height)) => Some((width, height)),
        _ => None,
    }
}

/// A number from `least` to `most`.
pub(crate) fn number_from(text: &str, least: u32, most: u32) -> Option<u32>
    ensures value { result ≡ number_from least most text.now }
    ensures least { IfSome result (λ n. least ≤ n) }
    ensures most { IfSome result (λ n. n ≤ most) }
{
    let n = number(text.as_bytes())?;
    if u64::from(least) <= n && n <= u64::from(most) {
        Some(n as u32)
    } else {
        None
    }
}

/// The bits of a sample.
pub(crate) fn depth(text: &str) -> Option<u8>
    ensures { result ≡ depth_of text.now }
{
    match number(text.as_bytes())? {
        8 => Some(8),
        16 => Some(16),
        _ => None,
    }
}

/// A file's name, which isn't empty.
pub(crate) fn file(text: &str) -> Option<&str>
    ensures { text_in result ≡ file_of text.now }
{
    if text.is_empty() { None } else { Some(text) }
}

/// The number that up to ten decimal digits stand for.
fn number(digits: &[u8]) -> Option<u64>
    ensures { result ≡ number_of digits.now }
{
    if are_digits(digits) {
        Some(value_of(digits))
    } else {
        None
    }
}

fn are_digits(digits: &[u8]) -> bool
    ensures value { result ≡ are_digits digits.now }
    ensures short { IsTrue result → length digits.now ≤ 10 }
{
    !digits.is_empty() && digits.len() <= 10 && are_all_digits(digits)
}

fn are_all_digits(digits: &[u8]) -> bool
    ensures { result ≡ list_all is_digit digits.now }
{
    digits.iter().all(|c| 48 <= *c && *c <= 57)
}

fn value_of(digits: &[u8]) -> u64
    requires short { length digits.now ≤ 10 }
    requires digits { list_all is_digit digits.now ≡ true }
    ensures value { result ≡ decimal_value digits.now }
    ensures bound { result < 10 ^ length digits.now }
{
    let mut value = 0;
    for digit in digits {
        value = 10 * value + u64::from(*digit - 48);
    }
    value
}

/// Whether a text may name a profile: 1 to 64 letters or digits of ASCII, dashes or underscores.
pub(crate) fn is_name(text: &[u8]) -> bool
    ensures { result ≡ is_name text.now }
{
    !text.is_empty() && text.len() <= 64 && are_name_bytes(text)
}

fn are_name_bytes(text: &[u8]) -> bool
    ensures { result ≡ list_all is_name_byte text.now }
{
    text.iter().all(|c| is_name_byte(*c))
}

fn is_name_byte(c: u8) -> bool
    ensures { result ≡ is_name_byte c }
{
    c.is_ascii_lowercase() || c.is_ascii_uppercase() || c.is_ascii_digit() || c == b'-' || c == b'_'
}
