//! The lines of a head, cut off one after another.

ghost use Rattle.std.specs.Prelude.{◌≡◌, ◌==◌, ◌<◌, ◌≤◌, ◌∷◌, [], length, position, IfSome, MatchOption};
ghost use Rattle.std.specs.Str.Lines.{strip_carriage_return};
ghost use Rattle.http_heads.specs.Lines.{after_request_line, lines_of};

// The bytes after the request line, the first line that isn't empty. Where no such line has ended, no line is left.
pub(crate) fn after_request_line(bytes: &[u8]) -> &[u8]
    ensures lines { lines_of result.now ≡ after_request_line (lines_of bytes.now) }
    ensures shorter { length result.now ≤ length bytes.now }
{
    let mut rest = bytes;
    while let Some((line, after)) = cut_line(rest) {
        if !line.is_empty() {
            return after;
        }
        rest = after;
    }
    rest
}

// The first line, and the bytes after it; `None` where no line has ended.
pub(crate) fn cut_line(bytes: &[u8]) -> Option<(&[u8], &[u8])>
    ensures lines { MatchOption result (lines_of bytes.now ≡ [])
        (λ parts. lines_of bytes.now ≡ parts.0.now ∷ lines_of parts.1.now) }
    ensures shorter { IfSome result (λ parts. length parts.1.now < length bytes.now) }
{
    let end = line_feed(bytes)?;
    Some((without_return(&bytes[..end]), &bytes[end + 1..]))
}

// The offset of the first line feed.
fn line_feed(bytes: &[u8]) -> Option<usize>
    ensures { result ≡ position (λ byte. byte == 10) bytes.now }
{
    bytes.iter().position(|byte| *byte == b'\n')
}

// A line without the carriage return at its end.
fn without_return(line: &[u8]) -> &[u8]
    ensures { result.now ≡ strip_carriage_return line.now }
{
    match line {
        [front @ .., b'\r'] => front,
        _ => line,
    }
}
