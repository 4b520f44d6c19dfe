// Tokens of texts that no filter has.
ghost use Rattle.std.specs.Prelude.{◌<◌, ◌^◌};

use jq_lexer::{Natural, Symbol, Token, lex};
use std::test::Fail;

fn number(value: u64) -> Token
    requires { value < 2 ^ 63 }
{
    Token::Number(Natural { value })
}

// An `e` without digits after it is no exponent, and a text that ends inside an interpolation has tokens.
#[test]
fn tokens_of_no_filter(rt: HostRuntime) -> Result<(), Fail> {
    let alloc = rt.alloc();
    let wanted = vec![in alloc;
        number(1),
        Token::Name(String::from_str(alloc, "e")?),
        Token::Symbol(Symbol::Plus),
        Token::Name(String::from_str(alloc, "x")?),
    ]?;
    assert_eq!(rt; lex(alloc, "1e+x")?, wanted);
    let wanted = vec![in alloc;
        Token::Piece(String::new(alloc)),
        Token::Interpolation,
        number(1),
    ]?;
    assert_eq!(rt; lex(alloc, "\"\\(1")?, wanted);
    Ok(())
}
