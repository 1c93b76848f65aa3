//! Cutting a text at a byte.

ghost use Rattle.std.specs.Prelude.{◌≡◌, ◌+◌, ◌≤◌, ◌==◌, ◌∷◌, [], length, position, IfNone, IfSome};
ghost use Rattle.text_lines.specs.Lines.{lines_of};
ghost use Rattle.text_lines.specs.Parts.{parts_of};

/// The byte that ends a line.
pub const LF: u8 = b'\n';

/// The place of the first such byte.
fn place_of(byte: u8, text: &[u8]) -> Option<usize>
    ensures { result ≡ position (λ b. b == byte) text.now }
{
    text.iter().position(|b| *b == byte)
}

/// The text before the first such byte, and the text after it. None exactly where there is none.
pub fn cut(byte: u8, text: &[u8]) -> Option<(&[u8], &[u8])>
    ensures none { IfNone result (parts_of byte text.now ≡ text.now ∷ []) }
    ensures parts { IfSome result (λ x. parts_of byte text.now ≡ x.0.now ∷ parts_of byte x.1.now) }
    ensures shorter { IfSome result (λ x. length x.0.now + length x.1.now + 1 ≡ length text.now) }
{
    let place = place_of(byte, text)?;
    Some((&text[..place], &text[place + 1..]))
}

/// The first line of a text, and the text after it. None exactly where the text is empty.
pub fn cut_line(text: &[u8]) -> Option<(&[u8], &[u8])>
    ensures none { IfNone result (lines_of text.now ≡ []) }
    ensures lines { IfSome result (λ x. lines_of text.now ≡ x.0.now ∷ lines_of x.1.now) }
    ensures shorter { IfSome result (λ x. length x.1.now + 1 ≤ length text.now) }
{
    if text.is_empty() {
        return None;
    }
    let Some((line, rest)) = cut(LF, text) else {
        return Some((text, &[]));
    };
    Some((line, rest))
}
