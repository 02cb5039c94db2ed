//! The form that a mode and a value fit.
ghost use Rattle.std.specs.Prelude.{◌≡◌, IsTrue, option_map};
ghost use Rattle.std.specs.List.{list_all};
ghost use Rattle.ncq_words.specs.Forms.{form_of, form_shown, is_plain, load_number, texts_of};
ghost use Rattle.ncq_words.specs.Command.{words_of};

use crate::arguments::Arguments;
use ncq_base::read_u64;

/// The most digits that the number of a load has, zeros included.
const MAX_DIGITS: usize = 6;
/// The most subscribers of a load.
const MAX_SUBSCRIBERS: u64 = 2000;

/// What the words ask for.
#[derive(Clone, Copy, Debug, PartialEq, Eq)]
pub enum Form<'a> {
    /// `run`: to run the script.
    Run,
    /// `alone <name>`: to run the script and follow the subscriber of this name alone.
    Alone(&'a str),
    /// `load <n>`: to run a generated load of so many subscribers, from 1 to 2,000.
    Load(u64),
}

/// Whether the word can be a mode or a value.
pub(crate) fn is_plain(word: &str) -> bool
    ensures { result ≡ is_plain word.now }
{
    match word.as_bytes() {
        [] => false,
        [first, ..] => *first != b'-',
    }
}

/// Whether each of the words can.
pub(crate) fn are_plain(words: &[&str]) -> bool
    ensures { result ≡ list_all is_plain (texts_of words.now) }
{
    words.iter().all(|word| is_plain(word))
}

/// The number of subscribers that the word writes, if a load may have so many.
fn load_number(word: &str) -> Option<u64>
    ensures { result ≡ load_number word.now }
{
    if word.len() > MAX_DIGITS {
        return None;
    }
    let number = read_u64(word.as_bytes())?;
    if 1 <= number && number <= MAX_SUBSCRIBERS {
        Some(number)
    } else {
        None
    }
}

/// The form that the arguments fit.
pub(crate) fn form_of<'a>(arguments: Arguments<'a>) -> Option<Form<'a>>
    requires plain { IsTrue (list_all is_plain (words_of arguments)) }
    ensures { option_map form_shown result ≡ form_of (words_of arguments.entry) }
{
    match arguments.value {
        None if arguments.mode == "run" => Some(Form::Run),
        Some(name) if arguments.mode == "alone" => Some(Form::Alone(name)),
        Some(number) if arguments.mode == "load" => Some(Form::Load(load_number(number)?)),
        _ => None,
    }
}
