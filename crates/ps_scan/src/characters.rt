//! Kinds of bytes.
ghost use Rattle.std.specs.Prelude.{◌≡◌, ◌≤◌, ◌<◌, ◌||◌, true, ◌+◌, not, drop, length, false};
ghost use Rattle.std.specs.List.{prefix_len};
ghost use Rattle.ps_scan.specs.Characters.{is_digit, is_letter, is_hex, digit_value, is_white, is_line_end, is_regular};
ghost use Rattle.ps_scan.specs.Characters.{white_after};
ghost use Rattle.ps_scan.specs.Reading.{blank_len};

/// Whether a byte is white space.
pub(crate) fn is_white_space(c: u8) -> bool
    ensures { result ≡ is_white c }
{
    matches!(c, 0 | 9 | 10 | 12 | 13 | 32)
}

/// Whether a byte ends a comment.
pub(crate) fn ends_line(c: u8) -> bool
    ensures { result ≡ is_line_end c }
{
    matches!(c, 10 | 12 | 13)
}

/// Whether a byte is neither white space nor a delimiter.
#[tactic(auto, unfolding(crate::specs::Characters::is_regular))]
pub(crate) fn is_regular_byte(c: u8) -> bool
    ensures { result ≡ is_regular c }
{
    !matches!(
        c,
        0 | 9
            | 10
            | 12
            | 13
            | 32
            | b'('
            | b')'
            | b'<'
            | b'>'
            | b'['
            | b']'
            | b'{'
            | b'}'
            | b'/'
            | b'%'
    )
}

/// What a digit stands for, and a letter as a digit: `A` or `a` is 10, `Z` or `z` is 35.
pub(crate) fn value_of_digit(c: u8) -> u8
    requires { (is_digit c || is_letter c) ≡ true }
    ensures value { result ≡ digit_value c }
    ensures bound { result < 36 }
    ensures hex { is_hex c ≡ true → result < 16 }
{
    if c <= b'9' {
        c - b'0'
    } else if c <= b'Z' {
        c - 55
    } else {
        c - 87
    }
}

/// How many regular bytes stand in front.
pub(crate) fn regular_len(text: &[u8]) -> usize
    ensures value { result ≡ prefix_len is_regular text.now }
    ensures bound { result ≤ length text.now }
{
    text.iter().take_while(|c| is_regular_byte(**c)).count()
}

/// How many bytes of white space go with the number or name before them.
#[tactic(auto, unfolding(crate::specs::Characters::white_after))]
pub(crate) fn white_behind(text: &[u8]) -> usize
    ensures value { result ≡ white_after text.now }
    ensures bound { result ≤ length text.now }
{
    match text {
        [] => 0,
        [c] => if is_white_space(*c) { 1 } else { 0 },
        [c, d, ..] => {
            if *c == 13 && *d == 10 {
                2
            } else if is_white_space(*c) {
                1
            } else {
                0
            }
        }
    }
}

/// How many bytes of white space and comments stand in front.
#[tactic(auto, unfolding(crate::specs::Reading::blank_len))]
pub(crate) fn blank_front(text: &[u8]) -> usize
    ensures value { result ≡ blank_len false text.now }
    ensures bound { result ≤ length text.now }
{
    let mut comment = false;
    for (i, c) in text.iter().enumerate() {
        if comment {
            comment = !ends_line(*c);
        } else if *c == b'%' {
            comment = true;
        } else if !is_white_space(*c) {
            return i;
        }
    }
    text.len()
}
