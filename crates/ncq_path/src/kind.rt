//! What stands outermost in a path.
ghost use Rattle.std.specs.Prelude.{◌≡◌};
ghost use Rattle.ncq_path.specs.Kinds.{is_alt, is_seq, is_tag};

use crate::path::Path;

/// Whether the path is one name.
#[tactic(auto, using(crate::proofs::TextCases::tags_are))]
pub(crate) fn is_tag(path: &Path) -> bool
    ensures { result ≡ is_tag path.now }
{
    match path {
        Path::Tag(_) => true,
        Path::Seq(_) | Path::Alt(_) | Path::Star(_) | Path::Plus(_) => false,
    }
}

/// Whether the path is a sequence.
#[tactic(auto, using(crate::proofs::TextCases::seqs_are))]
pub(crate) fn is_seq(path: &Path) -> bool
    ensures { result ≡ is_seq path.now }
{
    match path {
        Path::Seq(_) => true,
        Path::Tag(_) | Path::Alt(_) | Path::Star(_) | Path::Plus(_) => false,
    }
}

/// Whether the path is an alternative.
#[tactic(auto, using(crate::proofs::TextCases::alts_are))]
pub(crate) fn is_alt(path: &Path) -> bool
    ensures { result ≡ is_alt path.now }
{
    match path {
        Path::Alt(_) => true,
        Path::Tag(_) | Path::Seq(_) | Path::Star(_) | Path::Plus(_) => false,
    }
}
