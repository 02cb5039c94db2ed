//! How deep the tags of a statement and the round brackets in them nest.
ghost use Rattle.std.specs.Prelude.{◌≡◌, ◌≤◌, ◌<◌, ◌+◌};
ghost use Rattle.ncq_xmlql.specs.Nesting.{nest, depth_after};

use ncq_token::Token;

/// How deep it is behind the token.
fn depth_after(depth: usize, token: &Token) -> usize
    requires { depth < usize.MAX }
    ensures value { result ≡ depth_after depth token.now }
    ensures bound { result ≤ depth + 1 }
{
    match token {
        Token::TagStart | Token::Open => depth + 1,
        Token::EmptyClose | Token::TagEnd | Token::Shut => depth.saturating_sub(1),
        _ => depth,
    }
}

/// The greatest depth at any place.
pub(crate) fn nest(tokens: &[Token]) -> usize
    ensures { result ≡ nest tokens.now }
{
    let mut depth = 0;
    let mut most = 0;
    let mut rest = tokens;
    while let Some((token, after)) = rest.split_first() {
        depth = depth_after(depth, token);
        most = most.max(depth);
        rest = after;
    }
    most
}
