// Lines, fields and numbers read from text.
ghost use Rattle.std.specs.Prelude.{◌≡◌, ◌+◌, ◌≤◌, ◌<◌, ◌==◌, [], ◌∷◌, true, false, max, length, drop, MatchOption, position};
ghost use Rattle.text.specs.Read as Read;

// A text without the line end that it ends in.
#[tactic(auto, unfolding(crate::specs::Read::ended, crate::specs::Read::body))]
pub fn without_end(text: &[u8]) -> Option<&[u8]>
    ensures { MatchOption result (Read.ended text.now ≡ false) (λ t. (Read.ended text.now ≡ true) × (t.now ≡ Read.body text.now)) }
{
    text.strip_suffix(b"\n")
}

// Does a text end in a line end?
pub fn ended(text: &[u8]) -> bool
    ensures { result ≡ Read.ended text.now }
{
    without_end(text).is_some()
}

// A text without its last byte, whatever that is.
#[tactic(auto, unfolding(crate::specs::Read::body))]
pub fn body(text: &[u8]) -> &[u8]
    ensures { result.now ≡ Read.body text.now }
{
    &text[..text.len().saturating_sub(1)]
}

// The place of the first byte b. (The library's `position` was tried: with it a sheet is read by 6 % more instructions.)
fn find(text: &[u8], b: u8) -> Option<usize>
    ensures { result ≡ position (λ x. x == b) text.now }
{
    for (i, x) in text.iter().enumerate() {
        if *x == b {
            return Some(i);
        }
    }
    None
}

// The first line of a text, its line end included, and what comes after it.
pub fn split_line(text: &[u8]) -> (&[u8], &[u8])
    ensures first { result.0.now ≡ Read.first_line text.now }
    ensures rest { result.1.now ≡ drop (length (Read.first_line text.now)) text.now }
{
    match find(text, b'\n') {
        Some(end) => text.split_at(end + 1),
        None => (text, &[]),
    }
}

// The first field of a line, and what comes after its comma; `None` where the line has no comma.
pub fn split_field(line: &[u8]) -> Option<(&[u8], &[u8])>
    ensures { MatchOption result (Read.fields line.now ≡ line.now ∷ []) (λ p. Read.fields line.now ≡ p.0.now ∷ Read.fields p.1.now) }
{
    let comma = find(line, b',')?;
    Some((&line[..comma], &line[comma + 1..]))
}

// The place after the line that starts at `at`, its line end included; `at` itself where nothing is left. Here and in `field_end`, which are `split_line` and
// `split_field` by places of one text, `at` may be past the end.
pub fn line_end(text: &[u8], at: usize) -> usize
    ensures { result ≡ at + length (Read.line_at at text.now) }
{
    if at > text.len() {
        return at;
    }
    let (line, _) = split_line(&text[at..]);
    at + line.len()
}

// The end of the field that starts at `at`: the place of the next comma, or the line's end.
pub fn field_end(line: &[u8], at: usize) -> usize
    ensures value { result ≡ Read.field_end at line.now }
    ensures within { (at ≤ result) × (result ≤ max at (length line.now)) }
{
    if at > line.len() {
        return at;
    }
    match find(&line[at..], b',') {
        Some(place) => at + place,
        None => line.len(),
    }
}

// What a digit stands for. (The library's `to_digit` takes capitals too.)
#[tactic(auto, unfolding(crate::specs::Read::digit))]
fn digit(b: u8) -> Option<u64>
    ensures { result ≡ Read.digit b }
{
    match b {
        b'0'..=b'9' => Some((b - b'0') as u64),
        b'a'..=b'f' => Some((b - b'a') as u64 + 10),
        _ => None,
    }
}

// The number that digits in a base stand for, if it is at most `limit`. A number that passes the limit on the way stays above it.
// (The library's `parse` and `from_str_radix` take a sign, zeros in front and capitals, which an input may not have.)
fn numeral(text: &[u8], base: u64, limit: u32) -> Option<u32>
    requires some { 0 < base }
    requires few { base ≤ 16 }
    ensures { result ≡ Read.up_to limit (Read.numeral base 0 text.now) }
{
    let mut n: u64 = 0;
    for b in text {
        let d = digit(*b)?;
        if base <= d {
            return None;
        }
        n = n * base + d;
        if n > limit as u64 {
            return None;
        }
    }
    Some(n as u32)
}

// A decimal number from 0 to `limit`, with no zeros in front.
#[tactic(auto, using(crate::proofs::Numeral::short_form, crate::proofs::Numeral::long_form), unfolding(crate::specs::Read::decimal))]
pub fn decimal(text: &[u8], limit: u32) -> Option<u32>
    ensures { result ≡ Read.decimal limit text.now }
{
    match text {
        [] | [b'0', _, ..] => None,
        _ => numeral(text, 10, limit),
    }
}

// A bit pattern: eight hexadecimal digits in lower case.
pub fn pattern(text: &[u8]) -> Option<u32>
    ensures { result ≡ Read.pattern text.now }
{
    if text.len() != 8 {
        return None;
    }
    numeral(text, 16, u32::MAX)
}
