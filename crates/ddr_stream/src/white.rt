//! Fields that are parted by white space, taken off a line's front one by one.
//!
//! Nothing of this crate stands below, and `line` above. White space is what C has as such in its own locale: the space, and the bytes
//! from the tab to the carriage return.
ghost use Rattle.std.specs.Prelude.{◌≡◌, ◌≢◌, ◌<◌, ◌∷◌, [], IfNone, IfSome, length};
ghost use Rattle.std.specs.List.{list_all, position_or_len};
ghost use Rattle.ddr_stream.specs.Line.{is_white, white_fields_of};

/// Whether a line is white space.
pub(crate) fn is_blank(line: &[u8]) -> bool
    ensures { result ≡ list_all is_white line.now }
{
    line.iter().all(|byte| is_white(*byte))
}

/// The fields of a line of three; none where it has another number of them.
pub(crate) fn three_fields(line: &[u8]) -> Option<(&[u8], &[u8], &[u8])>
    ensures some { IfSome result (λ t. white_fields_of line.now ≡ t.0.now ∷ t.1.now ∷ t.2.now ∷ []) }
    ensures none { IfNone result (length (white_fields_of line.now) ≢ 3) }
{
    let (first, rest) = next_field(line)?;
    let (second, rest) = next_field(rest)?;
    let (third, rest) = next_field(rest)?;
    match next_field(rest) {
        Some(_) => None,
        None => Some((first, second, third)),
    }
}

/// The first field of a text, and what stands behind it; none where there is no field.
fn next_field(text: &[u8]) -> Option<(&[u8], &[u8])>
    ensures some { IfSome result (λ t. white_fields_of text.now ≡ t.0.now ∷ white_fields_of t.1.now) }
    ensures none { IfNone result (white_fields_of text.now ≡ []) }
{
    let rest = without_white(text);
    if rest.is_empty() {
        return None;
    }
    match white_place(rest) {
        Some(end) => Some((&rest[..end], &rest[end + 1..])),
        None => Some((rest, b"")),
    }
}

/// A text without the white space at its front.
fn without_white(text: &[u8]) -> &[u8]
    ensures same { white_fields_of result.now ≡ white_fields_of text.now }
    ensures front { 0 < length result.now → 0 < position_or_len is_white result.now }
{
    let mut rest = text;
    'white: while let Some((byte, behind)) = rest.split_first() {
        if !is_white(*byte) {
            return rest;
        }
        rest = behind;
    }
    rest
}

/// The place of the first white space.
fn white_place(text: &[u8]) -> Option<usize>
    ensures place { IfSome result (λ place. position_or_len is_white text.now ≡ place) }
    ensures within { IfSome result (λ place. place < length text.now) }
    ensures none { IfNone result (position_or_len is_white text.now ≡ length text.now) }
{
    for (place, byte) in text.iter().enumerate() {
        if is_white(*byte) {
            return Some(place);
        }
    }
    None
}

fn is_white(byte: u8) -> bool
    ensures { result ≡ is_white byte }
{
    byte == b' ' || (byte >= b'\t' && byte <= b'\r')
}
