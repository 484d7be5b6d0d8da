//! The blanks of G-code: space, tab and CR.

ghost use Rattle.std.specs.Prelude.{◌≡◌};
ghost use Rattle.text_core.specs.Bytes.{behind};
ghost use Rattle.gcode_text.specs.Blanks as specs;

/// Whether the byte is a blank.
pub(crate) fn is_blank(byte: u8) -> bool
    ensures { result ≡ specs.is_blank byte }
{
    byte == b' ' || byte == b'\t' || byte == b'\r'
}

/// What stands behind the blanks.
pub(crate) fn skip_blanks(text: &[u8]) -> &[u8]
    ensures { result.now ≡ behind specs.is_blank text.now }
{
    let mut rest = text;
    while let [first, others @ ..] = rest {
        if !is_blank(*first) {
            break;
        }
        rest = others;
    }
    rest
}
