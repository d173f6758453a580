// Names, token by token.
use names::{Name, Token};
use ordered::Key;
use std::test::Fail;

// A name and the same bytes with the end behind them are two names, of which the first begins the second.
#[test]
fn ended_and_not(rt: HostRuntime) -> Result<(), Fail> {
    let plain = Name::new(Key::new(b"A5")?, false);
    let ended = Name::new(Key::new(b"A5")?, true);
    assert!(rt; plain != ended && plain == Name::new(Key::new(b"A5")?, false));
    assert!(rt; plain.is_prefix_of(&ended) && !ended.is_prefix_of(&plain));
    assert!(rt; Name::empty().is_prefix_of(&ended) && ended.is_prefix_of(&ended));
    assert!(rt; ended.is(b"A5", true) && !ended.is(b"A5", false) && !ended.is(b"A", true));
    assert_eq!(rt; plain.len(), 2);
    assert_eq!(rt; ended.len(), 3);
    Ok(())
}

#[test]
fn tokens_and_prefixes(rt: HostRuntime) -> Result<(), Fail> {
    let name = Name::new(Key::new(b"A5")?, true);
    assert_eq!(rt; name.token(0), Some(Token::Byte(b'A')));
    assert_eq!(rt; name.token(1), Some(Token::Byte(b'5')));
    assert_eq!(rt; name.token(2), Some(Token::End));
    assert_eq!(rt; name.token(3), None);
    assert!(rt; name.prefix(0) == Name::empty() && name.prefix(1).is(b"A", false));
    assert!(rt;
        name.prefix(2).is(b"A5", false) && name.prefix(3) == name && name.prefix(9) == name
    );
    Ok(())
}

// A byte of 0 is a byte and not the end.
#[test]
fn zero_is_a_byte(rt: HostRuntime) -> Result<(), Fail> {
    let one = Name::new(Key::new(b"1")?, false);
    let zero = Name::new(Key::new(b"1\0")?, false);
    assert!(rt; one != zero && one.is_prefix_of(&zero) && !zero.is_prefix_of(&one));
    assert_eq!(rt; zero.token(1), Some(Token::Byte(0)));
    Ok(())
}

// Nothing follows the end, and no byte follows the 24th.
#[test]
fn children(rt: HostRuntime) -> Result<(), Fail> {
    let name = Name::new(Key::new(b"A")?, false);
    let child = name.child(Token::Byte(b'5')).ok_or("no name")?;
    let ended = child.child(Token::End).ok_or("no name")?;
    assert!(rt; child.is(b"A5", false) && ended.is(b"A5", true));
    assert!(rt; ended.child(Token::End).is_none() && ended.child(Token::Byte(0)).is_none());
    let long = Name::new(Key::new(&[7; 24])?, false);
    assert!(rt; long.child(Token::Byte(7)).is_none() && long.child(Token::End).is_some());
    Ok(())
}
