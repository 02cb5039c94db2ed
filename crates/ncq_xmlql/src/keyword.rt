//! The words of the grammar.
ghost use Rattle.std.specs.Prelude.{◌≡◌, codes};
ghost use Rattle.ncq_xmlql.specs.Reading.{is_keyword};

use ncq_base::Bytes;

/// Whether the word is `element_as`, in any case of letters.
pub(crate) fn is_element_as(word: &Bytes) -> bool
    ensures { result ≡ is_keyword (codes "element_as") word.now }
{
    is_word(word.as_slice(), b"element_as")
}

/// Whether the word is `content_as`, in any case of letters.
pub(crate) fn is_content_as(word: &Bytes) -> bool
    ensures { result ≡ is_keyword (codes "content_as") word.now }
{
    is_word(word.as_slice(), b"content_as")
}

/// Whether the word is `in`, in any case of letters.
pub(crate) fn is_in(word: &Bytes) -> bool
    ensures { result ≡ is_keyword (codes "in") word.now }
{
    is_word(word.as_slice(), b"in")
}

/// Whether the word is `construct`, in any case of letters.
pub(crate) fn is_construct(word: &Bytes) -> bool
    ensures { result ≡ is_keyword (codes "construct") word.now }
{
    is_word(word.as_slice(), b"construct")
}

/// Whether the word is `satisfies`, in any case of letters.
pub(crate) fn is_satisfies(word: &Bytes) -> bool
    ensures { result ≡ is_keyword (codes "satisfies") word.now }
{
    is_word(word.as_slice(), b"satisfies")
}

/// Whether the word is `distinct`, in any case of letters.
pub(crate) fn is_distinct(word: &Bytes) -> bool
    ensures { result ≡ is_keyword (codes "distinct") word.now }
{
    is_word(word.as_slice(), b"distinct")
}

/// Whether the word is `start`, in any case of letters.
pub(crate) fn is_start(word: &Bytes) -> bool
    ensures { result ≡ is_keyword (codes "start") word.now }
{
    is_word(word.as_slice(), b"start")
}

/// Whether the word is `every`, in any case of letters.
pub(crate) fn is_every(word: &Bytes) -> bool
    ensures { result ≡ is_keyword (codes "every") word.now }
{
    is_word(word.as_slice(), b"every")
}

/// Whether the word is `expire`, in any case of letters.
pub(crate) fn is_expire(word: &Bytes) -> bool
    ensures { result ≡ is_keyword (codes "expire") word.now }
{
    is_word(word.as_slice(), b"expire")
}

/// Whether the two are the same word, in any case of ASCII letters.
pub(crate) fn is_word(word: &[u8], keyword: &[u8]) -> bool
    ensures { result ≡ is_keyword keyword.now word.now }
{
    word.eq_ignore_ascii_case(keyword)
}
