//! Tokens of a text, read with the words of the grammar kit.

use std::test::Fail;
use vh_ast::{Binary, NetType, PortType};
use vh_base::Place;
use vh_lex::{Keyword, Kind, Symbol, Token};
use vh_parse_grammar::{Cursor, Stop};
use vh_parse_syntax::tables::{NET, PORT_TYPE};
use vh_parse_syntax::{Class, Group, Lexeme, Rows, Start, Syntax, Word, syntax_laws};

fn token(kind: Kind) -> Token {
    let place = Place {
        file: 1,
        line: 1,
        column: 1,
    };
    Token { kind, place }
}

// `wire ; specify`: the first is a net type, and the last stands in no production.
#[test]
fn words(rt: HostRuntime) -> Result<(), Fail> {
    let tokens = [
        token(Kind::Word(Keyword::Wire)),
        token(Kind::Symbol(Symbol::Semicolon)),
        token(Kind::Word(Keyword::Specify)),
    ];
    let wire = Word { token: &tokens[0] };
    let semicolon = Word { token: &tokens[1] };
    assert!(rt; wire.row(&NET) == Some(NetType::Wire));
    assert!(rt; wire.row(&PORT_TYPE) == Some(PortType::Net(NetType::Wire)));
    assert!(rt; semicolon.operator(1).is_none());
    let at: Cursor<'_, Token, Class> = Cursor::new(&tokens);
    assert!(rt; at.next_is(Class::Begins(Start::Item)));
    assert!(rt; at.next_is(Class::Row(Rows::Net)));
    assert!(rt; !at.next_is(Class::Among(Group::Hidden)));
    let behind = at
        .take(Class::Is(Lexeme::Wire))?
        .take(Class::Is(Lexeme::Semicolon))?;
    assert!(rt; behind.lost() == Stop::LeftOut(1));
    assert!(rt; at.lost() == Stop::Lost(3));
    Ok(())
}

// The laws hold of the language.
#[test]
fn laws() {
    syntax_laws();
    vh_parse_grammar::exact::<Syntax>();
}
