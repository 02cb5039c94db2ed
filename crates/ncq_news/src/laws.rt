//! The law of what subscribers are told: the function's contract is the law, and it does nothing.
ghost use Rattle.ncq_news.specs.Laws.{NewsTellTheDifference};

/// Law: what the rows since a mark tell is the difference of the answers now and at the mark, and
/// what all rows tell is that of the answer now and of nothing.
pub fn news_tell_the_difference()
    ensures { NewsTellTheDifference }
{}
