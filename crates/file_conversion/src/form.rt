//! Texts of a format.

ghost use Rattle.std.specs.Prelude.{◌≡◌};
ghost use Rattle.file_conversion.specs.Fits.{fits, is_of};

/// Whether a text is of this format, byte by byte: `A` means a capital letter, `0` a decimal digit,
/// `N` either, `?` any byte, and every other byte itself.
pub fn fits(form: &[u8], text: &[u8]) -> bool
    ensures { result ≡ fits form.now text.now }
{
    let mut left = form;
    for byte in text {
        let Some((class, rest)) = left.split_first() else {
            return false;
        };
        if !is_of(*class, *byte) {
            return false;
        }
        left = rest;
    }
    left.is_empty()
}

// Whether the byte is one for which this byte of a form stands.
fn is_of(class: u8, byte: u8) -> bool
    ensures { result ≡ is_of class byte }
{
    match class {
        b'A' => byte.is_ascii_uppercase(),
        b'0' => byte.is_ascii_digit(),
        b'N' => byte.is_ascii_uppercase() || byte.is_ascii_digit(),
        b'?' => true,
        _ => byte == class,
    }
}
