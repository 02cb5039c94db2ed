//! The words of a line, and the command that a line begins.
ghost use Rattle.std.specs.Prelude.{◌≡◌, [], ◌∷◌, ◌≤◌, length, take, drop, All, MatchOption, false};
ghost use Rattle.std.specs.Str.{str_eq_ignore_ascii_case};
ghost use Rattle.ncq_script.specs.Words.{is_blank, words, keyword_of, begins, is_comment};
ghost use Rattle.ncq_script.specs.Words.{StartsWord, StartsBlank};

/// What a command is called: its first word, in any case of letters.
#[derive(Clone, Copy, Debug, PartialEq, Eq)]
pub(crate) enum Keyword {
    Source,
    Delta,
    Batch,
    Create,
    Delete,
    Clock,
    Report,
    /// Any other word.
    Unknown,
}

fn is_blank(byte: u8) -> bool
    ensures { result ≡ is_blank byte }
{
    byte == b' ' || byte == b'\t' || byte == b'\r'
}

// What stands behind the blanks in front.
fn skip_blanks(text: &[u8]) -> &[u8]
    ensures words { words result.now ≡ words text.now }
    ensures starts { StartsWord result.now }
{
    let mut rest = text;
    while let [byte, behind @ ..] = rest {
        if !is_blank(*byte) {
            break;
        }
        rest = behind;
    }
    rest
}

/// The first word of a text, and what stands behind it; none where the text has no word.
/// Spaces, tabs and carriage returns part words; every other byte belongs to one.
pub(crate) fn next_word(text: &[u8]) -> Option<(&[u8], &[u8])>
    ensures { MatchOption result (words text.now ≡ [])
        (λ parts. words text.now ≡ parts.0.now ∷ words parts.1.now) }
{
    let text = skip_blanks(text);
    if text.is_empty() {
        return None;
    }
    let end = word_end(text);
    Some(text.split_at(end))
}

// Where the first blank stands.
fn word_end(text: &[u8]) -> usize
    ensures within { result ≤ length text.now }
    ensures clean { All (λ b. is_blank b ≡ false) (take result text.now) }
    ensures behind { StartsBlank (drop result text.now) }
{
    text.iter()
        .position(|byte| is_blank(*byte))
        .unwrap_or(text.len())
}

/// Whether two words are the same but for the case of ASCII letters.
pub(crate) fn same_word(a: &[u8], b: &[u8]) -> bool
    ensures { result ≡ str_eq_ignore_ascii_case a.now b.now }
{
    a.eq_ignore_ascii_case(b)
}

/// The command that a word names.
pub(crate) fn keyword_of(word: &[u8]) -> Keyword
    ensures { result ≡ keyword_of word.now }
{
    if same_word(word, b"source") {
        Keyword::Source
    } else if same_word(word, b"delta") {
        Keyword::Delta
    } else if same_word(word, b"batch") {
        Keyword::Batch
    } else if same_word(word, b"create") {
        Keyword::Create
    } else if same_word(word, b"delete") {
        Keyword::Delete
    } else if same_word(word, b"clock") {
        Keyword::Clock
    } else if same_word(word, b"report") {
        Keyword::Report
    } else {
        Keyword::Unknown
    }
}

/// The command that a line outside a block begins: none where it has no word, or where its first
/// word begins with `#`.
pub(crate) fn begins(text: &[u8]) -> Option<Keyword>
    ensures { result ≡ begins text.now }
{
    let (word, _) = next_word(text)?;
    if is_comment(word) {
        return None;
    }
    Some(keyword_of(word))
}

fn is_comment(word: &[u8]) -> bool
    ensures { result ≡ is_comment word.now }
{
    word.first() == Some(&b'#')
}
