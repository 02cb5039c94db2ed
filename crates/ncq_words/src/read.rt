//! The form that the words of the command line fit.
ghost use Rattle.std.specs.Prelude.{◌≡◌, IfOk, Some, None, Err};
ghost use Rattle.ncq_words.specs.Forms.{form_of, form_shown, texts_of};

use crate::arguments::arguments_of;
use crate::form::{Form, are_plain, form_of};
use std::alloc::Global;
use thiserror::Error;

/// Why the words ask for nothing.
#[derive(Debug, Drop, Error)]
pub enum WordsError {
    /// The words fit no form.
    #[error("the words fit no form")]
    Usage,
    /// Memory ran out; this may come at any call.
    #[error("out of memory")]
    OutOfMemory,
}

/// The form that the words after the program's name fit. `Usage` comes exactly where they fit none.
pub fn read_words<'a>(alloc: Global, words: &'a [&'a str]) -> Result<Form<'a>, WordsError>
    ensures form { IfOk result (λ form. form_of (texts_of words.now) ≡ Some (form_shown form)) }
    ensures usage { result ≡ Err WordsError.Usage → form_of (texts_of words.now) ≡ None }
{
    if !are_plain(words) {
        return Err(WordsError::Usage);
    }
    let arguments = arguments_of(alloc, words)?;
    form_of(arguments).ok_or(WordsError::Usage)
}
