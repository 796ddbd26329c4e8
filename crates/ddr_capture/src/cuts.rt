//! The fields of a line, taken off its front one by one.
//!
//! Nothing of this crate stands below; `own` and `tool` read the fields. Fields are parted either by commas, or by spaces, of
//! which one or more stand between two.
ghost use Rattle.std.specs.Prelude.{◌≡◌, ◌≢◌, ◌<◌, ◌≤◌, ◌==◌, ◌∷◌, [], IfNone, IfSome, length};
ghost use Rattle.std.specs.List.{position_or_len};
ghost use Rattle.ddr_text.specs.Script.{fields_of};
ghost use Rattle.ddr_capture.specs.Fields.{cut, trimmed, trimmed_cut};

/// Four fields.
#[derive(Clone, Copy)]
pub(crate) struct Four<'a> {
    pub first: &'a [u8],
    pub second: &'a [u8],
    pub third: &'a [u8],
    pub fourth: &'a [u8],
}

/// The eight fields of a line that are parted by spaces; none where it has another number of them.
pub(crate) fn eight_spaced(line: &[u8]) -> Option<(Four<'_>, Four<'_>)>
    ensures some { IfSome result (λ t.
        fields_of line.now ≡ t.0.first.now ∷ t.0.second.now ∷ t.0.third.now ∷ t.0.fourth.now
        ∷ t.1.first.now ∷ t.1.second.now ∷ t.1.third.now ∷ t.1.fourth.now ∷ []) }
    ensures none { IfNone result (length (fields_of line.now) ≢ 8) }
{
    let (front, rest) = four_spaced(line)?;
    let (back, rest) = four_spaced(rest)?;
    match next_field(rest) {
        Some(_) => None,
        None => Some((front, back)),
    }
}

/// The first four fields that are parted by spaces, and what stands behind them; none where there are fewer.
fn four_spaced(text: &[u8]) -> Option<(Four<'_>, &[u8])>
    ensures some { IfSome result (λ t.
        fields_of text.now ≡ t.0.first.now ∷ t.0.second.now ∷ t.0.third.now ∷ t.0.fourth.now ∷ fields_of t.1.now) }
    ensures none { IfNone result (length (fields_of text.now) < 4) }
{
    let (first, rest) = next_field(text)?;
    let (second, rest) = next_field(rest)?;
    let (third, rest) = next_field(rest)?;
    let (fourth, rest) = next_field(rest)?;
    let four = Four {
        first,
        second,
        third,
        fourth,
    };
    Some((four, rest))
}

/// The first field of a text whose fields are parted by spaces, and what stands behind it; none where there is no field.
fn next_field(text: &[u8]) -> Option<(&[u8], &[u8])>
    ensures some { IfSome result (λ t. fields_of text.now ≡ t.0.now ∷ fields_of t.1.now) }
    ensures none { IfNone result (fields_of text.now ≡ []) }
{
    let rest = without_spaces(text);
    if rest.is_empty() {
        return None;
    }
    match first_place(b' ', rest) {
        Some(end) => Some((&rest[..end], &rest[end + 1..])),
        None => Some((rest, b"")),
    }
}

/// A text without the spaces at its front.
fn without_spaces(text: &[u8]) -> &[u8]
    ensures same { fields_of result.now ≡ fields_of text.now }
    ensures front { 0 < length result.now → 0 < position_or_len (λ byte. byte == 32) result.now }
{
    let mut rest = text;
    'spaces: while let Some((byte, behind)) = rest.split_first() {
        if *byte != b' ' {
            return rest;
        }
        rest = behind;
    }
    rest
}

/// The eight fields of a line that are parted by commas, each without the white space around it; none where it has another
/// number of them.
pub(crate) fn eight_trimmed(line: &[u8]) -> Option<(Four<'_>, Four<'_>)>
    ensures some { IfSome result (λ t.
        trimmed_cut line.now ≡ t.0.first.now ∷ t.0.second.now ∷ t.0.third.now ∷ t.0.fourth.now
        ∷ t.1.first.now ∷ t.1.second.now ∷ t.1.third.now ∷ t.1.fourth.now ∷ []) }
    ensures none { IfNone result (length (trimmed_cut line.now) ≢ 8) }
{
    let (front, rest) = four_trimmed(line)?;
    let back = last_trimmed(rest)?;
    Some((front, back))
}

/// The first four fields of a line that is cut four times or more, and what stands behind the fourth cut.
fn four_trimmed(text: &[u8]) -> Option<(Four<'_>, &[u8])>
    ensures some { IfSome result (λ t.
        trimmed_cut text.now ≡ t.0.first.now ∷ t.0.second.now ∷ t.0.third.now ∷ t.0.fourth.now ∷ trimmed_cut t.1.now) }
    ensures none { IfNone result (length (trimmed_cut text.now) ≤ 4) }
{
    let (first, rest) = next_trimmed(text)?;
    let (second, rest) = next_trimmed(rest)?;
    let (third, rest) = next_trimmed(rest)?;
    let (fourth, rest) = next_trimmed(rest)?;
    let four = Four {
        first,
        second,
        third,
        fourth,
    };
    Some((four, rest))
}

/// The four fields of a text that is cut three times; none where it is cut another number of times.
fn last_trimmed(text: &[u8]) -> Option<Four<'_>>
    ensures some { IfSome result (λ t.
        trimmed_cut text.now ≡ t.first.now ∷ t.second.now ∷ t.third.now ∷ t.fourth.now ∷ []) }
    ensures none { IfNone result (length (trimmed_cut text.now) ≢ 4) }
{
    let (first, rest) = next_trimmed(text)?;
    let (second, rest) = next_trimmed(rest)?;
    let (third, rest) = next_trimmed(rest)?;
    let fourth = only_trimmed(rest)?;
    Some(Four {
        first,
        second,
        third,
        fourth,
    })
}

/// The field before the first comma, and what stands behind the comma; none where there is none.
fn next_trimmed(text: &[u8]) -> Option<(&[u8], &[u8])>
    ensures some { IfSome result (λ t. trimmed_cut text.now ≡ t.0.now ∷ trimmed_cut t.1.now) }
    ensures none { IfNone result (length (trimmed_cut text.now) ≡ 1) }
{
    let (field, rest) = next_cut(text)?;
    Some((trim(field), rest))
}

/// The field of a text without a comma.
fn only_trimmed(text: &[u8]) -> Option<&[u8]>
    ensures some { IfSome result (λ field. trimmed_cut text.now ≡ field.now ∷ []) }
    ensures none { IfNone result (1 < length (trimmed_cut text.now)) }
{
    match next_cut(text) {
        Some(_) => None,
        None => Some(trim(text)),
    }
}

/// A field without the white space around it.
fn trim(field: &[u8]) -> &[u8]
    ensures { result.now ≡ trimmed field.now }
{
    field.trim_ascii()
}

/// The first four fields of a line that is cut four times or more, and what stands behind the fourth cut.
pub(crate) fn four_cut(text: &[u8]) -> Option<(Four<'_>, &[u8])>
    ensures some { IfSome result (λ t.
        cut text.now ≡ t.0.first.now ∷ t.0.second.now ∷ t.0.third.now ∷ t.0.fourth.now ∷ cut t.1.now) }
    ensures none { IfNone result (length (cut text.now) ≤ 4) }
{
    let (first, rest) = next_cut(text)?;
    let (second, rest) = next_cut(rest)?;
    let (third, rest) = next_cut(rest)?;
    let (fourth, rest) = next_cut(rest)?;
    let four = Four {
        first,
        second,
        third,
        fourth,
    };
    Some((four, rest))
}

/// The three fields of a text that is cut twice; none where it is cut another number of times.
pub(crate) fn last_cuts(text: &[u8]) -> Option<(&[u8], &[u8], &[u8])>
    ensures some { IfSome result (λ t. cut text.now ≡ t.0.now ∷ t.1.now ∷ t.2.now ∷ []) }
    ensures none { IfNone result (length (cut text.now) ≢ 3) }
{
    let (first, rest) = next_cut(text)?;
    let (second, third) = next_cut(rest)?;
    match next_cut(third) {
        Some(_) => None,
        None => Some((first, second, third)),
    }
}

/// What stands before the first comma, and what stands behind it; none where there is no comma.
fn next_cut(text: &[u8]) -> Option<(&[u8], &[u8])>
    ensures some { IfSome result (λ t. (cut text.now ≡ t.0.now ∷ cut t.1.now) × (0 < length (cut t.1.now))) }
    ensures none { IfNone result (cut text.now ≡ text.now ∷ []) }
{
    match first_place(b',', text) {
        Some(end) => Some((&text[..end], &text[end + 1..])),
        None => None,
    }
}

/// The place of the first byte that is this one.
fn first_place(wanted: u8, text: &[u8]) -> Option<usize>
    ensures place { IfSome result (λ place. position_or_len (λ byte. byte == wanted) text.now ≡ place) }
    ensures within { IfSome result (λ place. place < length text.now) }
    ensures none { IfNone result (position_or_len (λ byte. byte == wanted) text.now ≡ length text.now) }
{
    for (place, byte) in text.iter().enumerate() {
        if *byte == wanted {
            return Some(place);
        }
    }
    None
}
