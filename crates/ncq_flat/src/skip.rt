//! Where the lines of an element end.
ghost use Rattle.std.specs.Prelude.{◌≡◌, ◌+◌, ◌<◌, ◌≤◌, ◌^◌, ◌∷◌, ◌++◌, List, ℕ, IfSome, true};
ghost use Rattle.ncq_base.specs.Lines.{lines_in};
ghost use Rattle.ncq_flat.specs.Behind.{behind, has_mark, left};
ghost use Rattle.ncq_flat.specs.Said.{said_in, texts_in, texts_left};

use ncq_base::first_line;

/// Whether the line begins with the byte.
pub(crate) fn has_mark(mark: u8, line: &[u8]) -> bool
    ensures { result ≡ has_mark mark line.now }
{
    match line {
        [byte, ..] => *byte == mark,
        [] => false,
    }
}

/// How many are open behind the line; none where it closes the element itself.
pub(crate) fn open_behind(depth: usize, line: &[u8]) -> Option<usize>
    requires { depth + 1 < 2 ^ 64 }
    ensures step { (lines : List (List ℕ)) → behind depth (line.now ∷ lines) ≡ left result lines }
    ensures texts { (lines : List (List ℕ)) → texts_in depth (line.now ∷ lines)
        ≡ said_in line.now ++ texts_left result lines }
    ensures bound { IfSome result (λ d. d ≤ depth + 1) }
{
    if has_mark(b'(', line) {
        return Some(depth + 1);
    }
    if !has_mark(b')', line) {
        return Some(depth);
    }
    if depth == 0 {
        return None;
    }
    Some(depth - 1)
}

/// What stands behind the line that closes the element in whose lines the text begins.
pub fn behind(text: &[u8]) -> &[u8]
    ensures { lines_in result.now ≡ behind 0 (lines_in text.now) }
{
    let mut rest = text;
    let mut depth = 0usize;
    while let Some((line, more)) = first_line(rest) {
        match open_behind(depth, line) {
            Some(next) => depth = next,
            None => return more,
        }
        rest = more;
    }
    &[]
}
