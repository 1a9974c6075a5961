//! Texts of a site: their length and their bytes.

ghost use Rattle.std.specs.Prelude.{◌≡◌};
ghost use Rattle.std.specs.List.{list_all};
ghost use Rattle.farm_fixed.specs.Range.{is_between};
ghost use Rattle.farm_site.specs.Texts.{is_text};

/// Whether a text has at least one byte and not over `longest`, and each lies in a range.
pub fn is_text(text: &[u8], longest: usize, least: u8, most: u8) -> bool
    ensures is_text { result ≡ is_text longest least most text.now }
{
    !text.is_empty() && text.len() <= longest && lies_within(text, least, most)
}

// Whether each byte of a text lies in a range.
fn lies_within(text: &[u8], least: u8, most: u8) -> bool
    ensures { result ≡ list_all (is_between least most) text.now }
{
    for byte in text {
        if *byte < least || *byte > most {
            return false;
        }
    }
    true
}
