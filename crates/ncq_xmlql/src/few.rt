//! How many names the paths of a query have.
ghost use Rattle.std.specs.Prelude.{◌≡◌};
ghost use Rattle.std.specs.List.{list_all};
ghost use Rattle.ncq_xmlql.specs.PatternPaths.{all_paths, item_paths, pattern_paths, content_paths};
ghost use Rattle.ncq_xmlql.specs.PatternPaths.{is_few};

use crate::model::{Content, Pattern, QueryItem};
use ncq_path::{Path, names_in};

/// How many names a path may have.
const MAX_NAMES: usize = 32;

/// Whether no path of the items has too many names.
pub(crate) fn all_are_few(items: &[QueryItem]) -> bool
    ensures { result ≡ all_paths is_few items.now }
{
    for item in items {
        if !item_is_few(item) {
            return false;
        }
    }
    true
}

/// Whether no path of the item has too many names.
fn item_is_few(item: &QueryItem) -> bool
    ensures { result ≡ item_paths is_few item.now }
{
    match item {
        QueryItem::Match {
            root: _,
            arms,
            source: _,
        } => patterns_are_few(arms.as_slice()),
        QueryItem::Condition { .. } | QueryItem::Satisfies { .. } => true,
    }
}

/// Whether no path of the patterns has too many names.
#[cycle(few)]
fn patterns_are_few(patterns: &[Pattern]) -> bool
    ensures { result ≡ list_all (pattern_paths is_few) patterns.now }
{
    for pattern in patterns {
        if !pattern_is_few(pattern) {
            return false;
        }
    }
    true
}

/// Whether no path of the pattern, at any depth, has too many names.
#[cycle(few)]
#[tactic(auto, using(crate::proofs::PatternPathLaws::paths_are))]
fn pattern_is_few(pattern: &Pattern) -> bool
    ensures { result ≡ pattern_paths is_few pattern.now }
{
    is_few(&pattern.tag) && content_is_few(&pattern.content)
}

/// Whether no path in the content has too many names.
#[cycle(few)]
#[tactic(auto, using(crate::proofs::PatternPathLaws::paths_are))]
fn content_is_few(content: &Content) -> bool
    ensures { result ≡ content_paths is_few content.now }
{
    match content {
        Content::Parts(parts) => patterns_are_few(parts.as_slice()),
        Content::Value(_) => true,
    }
}

/// Whether the path does not have too many names.
fn is_few(path: &Path) -> bool
    ensures { result ≡ is_few path.now }
{
    names_in(path) <= MAX_NAMES
}
