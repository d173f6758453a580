// Positions over a sorted row.
use ordered::{IndexFault, Key, OrderedIndex};
use positions::{PositionFault, Positions};
use sorted::{Opening, SortedRow};
use std::test::Fail;

// A position grows, turns and closes; closed, it is listed no more.
#[test]
fn grow_and_close(rt: HostRuntime) -> Result<(), Fail> {
    let mut row = [Key::empty(); 2];
    let mut held = [0i64; 2];
    let opening = Opening::check(&mut row, &mut held)?;
    let mut book = Positions::open(SortedRow::new(opening))?;
    assert_eq!(rt; book.post(b"KERN", b"WHT-1", 50), Ok(50));
    assert_eq!(rt; book.post(b"KERN", b"WHT-1", -80), Ok(-30));
    assert_eq!(rt; book.post(b"KERN", b"BAR-1", 5), Ok(5));
    let mut keys = [Key::empty(); 2];
    let mut lots = [0i64; 2];
    assert_eq!(rt; book.list(b"KERN", &mut keys, &mut lots), Ok((2, false)));
    assert_eq!(rt; lots, [5, -30]);
    assert!(rt; keys[1].as_bytes() == b"KERNWHT-1".as_slice());
    assert_eq!(rt; book.post(b"KERN", b"WHT-1", 30), Ok(0));
    assert_eq!(rt; book.list(b"KERN", &mut keys, &mut lots), Ok((1, false)));
    assert_eq!(rt; book.list(b"ARNE", &mut keys, &mut lots), Ok((0, false)));
    Ok(())
}

// Each refusal, in the order in which they come.
#[test]
fn refuse_in_order(rt: HostRuntime) -> Result<(), Fail> {
    let mut row = [Key::empty(); 2];
    let mut held = [0i64; 2];
    let opening = Opening::check(&mut row, &mut held)?;
    let mut book = Positions::open(SortedRow::new(opening))?;
    let index_full = PositionFault::Index(IndexFault::Full);
    let unequal = PositionFault::Index(IndexFault::UnequalRows);
    assert_eq!(rt; book.post(b"kern", b"", 0), Err(PositionFault::BadMember));
    assert_eq!(rt; book.post(b"KERN", b"", 0), Err(PositionFault::BadCode));
    assert_eq!(rt; book.post(b"KERN", b"A", 0), Err(PositionFault::BadLots));
    assert_eq!(rt;
        book.post(b"KERN", b"A", 1_000_000_001),
        Err(PositionFault::BadLots)
    );
    assert_eq!(rt; book.post(b"KERN", b"A", 1), Ok(1));
    assert_eq!(rt;
        book.post(b"KERN", b"B", -1_000_000_000),
        Ok(-1_000_000_000)
    );
    assert_eq!(rt; book.post(b"KERN", b"C", 1), Err(index_full));
    let mut keys = [Key::empty(); 1];
    let short = book.list(b"KER", &mut keys, &mut []);
    assert_eq!(rt; short, Err(PositionFault::BadMember));
    let uneven = book.list(b"KERN", &mut keys, &mut []);
    assert_eq!(rt; uneven, Err(unequal));
    Ok(())
}

// Positions open over nothing but an empty index.
#[test]
fn open_over_a_pair(rt: HostRuntime) -> Result<(), Fail> {
    let mut keys = [Key::empty(); 2];
    let mut lots = [0i64; 2];
    let mut index = SortedRow::new(Opening::check(&mut keys, &mut lots)?);
    assert_eq!(rt; index.put(b"x", 1), Ok(None));
    assert_eq!(rt; Positions::open(index).err(), Some(PositionFault::NotEmpty));
    Ok(())
}
