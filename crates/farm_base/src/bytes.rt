//! Blanks and digits among bytes.

ghost use Rattle.std.specs.Prelude.{◌≡◌};
ghost use Rattle.farm_base.specs.Bytes.{is_all_digits, is_blank, is_digit};

/// Whether a byte is a space or a tab.
pub fn is_blank(byte: u8) -> bool
    ensures blank { result ≡ is_blank byte }
{
    byte == b' ' || byte == b'\t'
}

/// Whether a byte is a decimal digit.
pub fn is_digit(byte: u8) -> bool
    ensures digit { result ≡ is_digit byte }
{
    byte.is_ascii_digit()
}

/// Whether each byte is a decimal digit. A text without a byte is one.
pub fn is_all_digits(text: &[u8]) -> bool
    ensures digits { result ≡ is_all_digits text.now }
{
    for byte in text {
        if !is_digit(*byte) {
            return false;
        }
    }
    true
}
