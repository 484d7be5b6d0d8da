//! Kinds of bytes, and the ends of runs of them.

ghost use Rattle.std.specs.Prelude.{◌≡◌, length};
ghost use Rattle.text_core.specs.Bytes as specs;
ghost use Rattle.text_core.specs.Bytes.{capital, small, behind, before, begins};

/// Whether the byte is a space or a tab.
pub fn is_blank(byte: u8) -> bool
    ensures { result ≡ specs.is_blank byte }
{
    byte == b' ' || byte == b'\t'
}

/// Whether the byte is a decimal digit.
pub fn is_digit(byte: u8) -> bool
    ensures { result ≡ specs.is_digit byte }
{
    b'0' <= byte && byte <= b'9'
}

/// A small letter of ASCII as its capital; every other byte as it is.
pub fn to_capital(byte: u8) -> u8
    ensures { result ≡ capital byte }
{
    if b'a' <= byte && byte <= b'z' {
        byte - 32
    } else {
        byte
    }
}

/// A capital of ASCII as its small letter; every other byte as it is.
pub fn to_small(byte: u8) -> u8
    ensures { result ≡ small byte }
{
    if b'A' <= byte && byte <= b'Z' {
        byte + 32
    } else {
        byte
    }
}

/// Whether the byte is a letter of ASCII.
pub fn is_letter(byte: u8) -> bool
    ensures { result ≡ specs.is_letter byte }
{
    let capital_byte = to_capital(byte);
    b'A' <= capital_byte && capital_byte <= b'Z'
}

/// Whether the text begins with a digit.
pub fn front_digits(text: &[u8]) -> bool
    ensures { result ≡ begins specs.is_digit text.now }
{
    match text {
        [] => false,
        [first, ..] => is_digit(*first),
    }
}

/// What stands behind the blanks at the front.
pub fn skip_blanks(text: &[u8]) -> &[u8]
    ensures { result.now ≡ behind specs.is_blank text.now }
{
    let mut rest = text;
    while let [first, others @ ..] = rest {
        if !is_blank(*first) {
            break;
        }
        rest = others;
    }
    rest
}

/// How many bytes stand before the first of these bytes.
fn place_of(text: &[u8], end: u8) -> usize
    ensures { result ≡ length (before end text.now) }
{
    let mut place = 0;
    let mut rest = text;
    while let [first, others @ ..] = rest {
        if *first == end {
            break;
        }
        place += 1;
        rest = others;
    }
    place
}

/// What stands before the first of these bytes: the whole text, where there is none.
pub fn cut(text: &[u8], end: u8) -> &[u8]
    ensures { result.now ≡ before end text.now }
{
    &text[..place_of(text, end)]
}

/// Whether the two texts are one where capitals count as small letters.
pub fn same_small(text: &[u8], name: &[u8]) -> bool
    ensures { result ≡ specs.same_small text.now name.now }
{
    let mut rest = text;
    let mut wanted = name;
    while let ([first, others @ ..], [letter, letters @ ..]) = (rest, wanted) {
        if to_small(*first) != to_small(*letter) {
            return false;
        }
        rest = others;
        wanted = letters;
    }
    rest.is_empty() && wanted.is_empty()
}
