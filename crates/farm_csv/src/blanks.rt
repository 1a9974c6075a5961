//! Blanks at the ends of a field.

ghost use Rattle.std.specs.Prelude.{◌≡◌, ◌≤◌, length, drop};
ghost use Rattle.farm_csv.specs.Blanks.{drop_blanks, length_before_blanks, without_blanks};

use farm_base::is_blank;

/// A text with no blank at either end.
pub fn without_blanks(text: &[u8]) -> &[u8]
    ensures trimmed { result.now ≡ without_blanks text.now }
{
    let text = &text[blanks_at_start(text)..];
    &text[..length_before_blanks(text)]
}

// How many blanks a text begins with.
fn blanks_at_start(text: &[u8]) -> usize
    ensures rest { drop result text.now ≡ drop_blanks text.now }
    ensures within { result ≤ length text.now }
{
    for index in 0..text.len() {
        if !is_blank(text[index]) {
            return index;
        }
    }
    text.len()
}

// How many bytes of a text stand before the blanks at its end.
fn length_before_blanks(text: &[u8]) -> usize
    ensures length { result ≡ length_before_blanks text.now }
    ensures within { result ≤ length text.now }
{
    let len = text.len();
    for index in 0..len {
        if !is_blank(text[len - index - 1]) {
            return len - index;
        }
    }
    0
}
