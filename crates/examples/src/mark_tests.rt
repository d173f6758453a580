// Marks of tokens in all four words, and the greatest below a byte.
use marks::Marks;
use names::Token;

fn sample() -> Marks {
    let mut marks = Marks::new();
    for byte in [3, 63, 64, 130, 200, 255] {
        marks.mark(Token::Byte(byte));
    }
    marks.unmark(Token::Byte(200));
    marks
}

#[test]
fn reads(rt: HostRuntime) {
    let mut marks = sample();
    assert!(rt; marks.is_marked(Token::Byte(3)) && marks.is_marked(Token::Byte(255)));
    assert!(rt; !marks.is_marked(Token::Byte(200)) && !marks.is_marked(Token::End));
    marks.mark(Token::End);
    assert!(rt; marks.is_marked(Token::End));
    marks.unmark(Token::End);
    assert!(rt; !marks.is_marked(Token::End) && marks.any() && !Marks::new().any());
}

#[test]
fn greatest_below(rt: HostRuntime) {
    let mut marks = sample();
    assert_eq!(rt; marks.greatest_below(255), Some(130));
    assert_eq!(rt; marks.greatest_below(131), Some(130));
    assert_eq!(rt; marks.greatest_below(130), Some(64));
    assert_eq!(rt; marks.greatest_below(64), Some(63));
    assert_eq!(rt; marks.greatest_below(63), Some(3));
    assert_eq!(rt; marks.greatest_below(3), None);
    assert_eq!(rt; marks.lower(64), Some(Token::Byte(63)));
    assert_eq!(rt; marks.lower(3), None);
    marks.mark(Token::End);
    assert_eq!(rt; marks.lower(3), Some(Token::End));
    assert_eq!(rt; marks.lower(0), Some(Token::End));
}
