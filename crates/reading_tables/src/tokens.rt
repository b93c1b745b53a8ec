//! The size of a token.
use ec_lex::token::Token;

#[test]
fn tokens_are_small(rt: HostRuntime) {
    assert_eq!(rt; size_of::<Token>(), 32);
}
