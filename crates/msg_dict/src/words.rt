//! Which bytes are a format.

ghost use Rattle.std.specs.Prelude.{◌≡◌};
ghost use Rattle.msg_dict.specs.Format.{name_byte, is_name, is_type, is_parameter, is_word, is_format};

/// Whether the bytes are a name and parameters behind it, separated by single spaces.
#[tactic(auto, unfolding(crate::specs::Format::is_format))]
pub fn is_format(text: &[u8]) -> bool
    ensures { result ≡ is_format text.now }
{
    let mut first = true;
    let mut from = 0;
    for at in 0..text.len() {
        if text[at] == b' ' {
            if !is_word(first, &text[from..at]) {
                return false;
            }
            first = false;
            from = at + 1;
        }
    }
    is_word(first, &text[from..])
}

fn is_word(first: bool, word: &[u8]) -> bool
    ensures { result ≡ is_word first word.now }
{
    if first {
        is_name(word)
    } else {
        is_parameter(word)
    }
}

/// Whether a word is a name: some bytes, no blank and no `=` among them.
fn is_name(word: &[u8]) -> bool
    ensures { result ≡ is_name word.now }
{
    for b in word {
        if !is_name_byte(*b) {
            return false;
        }
    }
    0 < word.len()
}

fn is_name_byte(b: u8) -> bool
    ensures { result ≡ name_byte b }
{
    b != b' ' && b != b'\t' && b != b'='
}

/// Whether a word is a name, `=` and a type.
fn is_parameter(word: &[u8]) -> bool
    ensures { result ≡ is_parameter word.now }
{
    for i in 0..word.len() {
        if word[i] == b'=' {
            return is_name(&word[..i]) && is_type(&word[i + 1..]);
        }
    }
    false
}

fn is_type(t: &[u8]) -> bool
    ensures { result ≡ is_type t.now }
{
    t == b"%u".as_slice()
        || t == b"%i".as_slice()
        || t == b"%hu".as_slice()
        || t == b"%hi".as_slice()
        || t == b"%c".as_slice()
        || t == b"%s".as_slice()
        || t == b"%*s".as_slice()
        || t == b"%.*s".as_slice()
}
