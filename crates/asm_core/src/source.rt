//! The lines of a source.

ghost use Rattle.std.specs.Prelude.{◌≡◌, ◌≤◌, ◌<◌, ◌∷◌, [], ℕ, length, MatchOption, OnSome, take, drop};
ghost use Rattle.std.specs.List.{position_or_len};
ghost use Rattle.std.specs.Str.Lines.{strip_carriage_return};
ghost use Rattle.asm_core.specs.Sources.{source_lines};
ghost use Rattle.asm_core.specs.Cuts.{is_newline};

fn newline(text: &[u8]) -> usize
    ensures place { result ≡ position_or_len is_newline text.now }
    ensures within { result ≤ length text.now }
{
    for (place, byte) in text.iter().enumerate() {
        if *byte == b'\n' {
            return place;
        }
    }
    text.len()
}

fn without_carriage_return(line: &[u8]) -> &[u8]
    ensures { result.now ≡ strip_carriage_return line.now }
{
    match line {
        [front @ .., b'\r'] => front,
        _ => line,
    }
}

/// The first line of a source without its line end, and what stands behind it; none where the source is empty.
pub fn next_line(source: &[u8]) -> Option<(&[u8], &[u8])>
    ensures lines { MatchOption result (source_lines source.now ≡ []) (λ next. source_lines source.now ≡ next.0.now ∷ source_lines next.1.now) }
    ensures shorter { MatchOption result (length source.now ≡ 0) (λ next. length next.1.now < length source.now) }
{
    if source.is_empty() {
        return None;
    }
    let end = newline(source);
    if end == source.len() {
        Some((source, &source[end..]))
    } else {
        Some((without_carriage_return(&source[..end]), &source[end + 1..]))
    }
}
