// The sorted row, call by call.
use ordered::{IndexFault, Key, OrderedIndex};
use sorted::{OpenFault, Opening, SortedRow};
use std::test::Fail;

// An index of limit 1: the second key is refused, the first replaced, and its place used again.
#[test]
fn limit_of_one(rt: HostRuntime) -> Result<(), Fail> {
    let mut keys = [Key::empty(); 1];
    let mut values = [0u32; 1];
    let opening = Opening::check(&mut keys, &mut values)?;
    let mut index = SortedRow::new(opening);
    assert_eq!(rt; index.put(b"a", 1), Ok(None));
    assert_eq!(rt; index.put(b"b", 2), Err(IndexFault::Full));
    assert_eq!(rt; index.put(b"a", 3), Ok(Some(1)));
    assert_eq!(rt; index.get(b"a"), Ok(Some(3)));
    assert_eq!(rt; index.drop(b"a"), Ok(3));
    assert_eq!(rt; index.drop(b"a"), Err(IndexFault::NotHeld));
    assert_eq!(rt; index.put(b"b", 2), Ok(None));
    assert_eq!(rt; index.count(), 1);
    Ok(())
}

// Keys in order: a key before its own extensions, and bytes by their number.
#[test]
fn run_in_order(rt: HostRuntime) -> Result<(), Fail> {
    let mut keys = [Key::empty(); 4];
    let mut values = [0u8; 4];
    let mut index = SortedRow::new(Opening::check(&mut keys, &mut values)?);
    assert_eq!(rt; index.put(b"b", 4), Ok(None));
    assert_eq!(rt; index.put(b"ab", 3), Ok(None));
    assert_eq!(rt; index.put(b"", 1), Ok(None));
    assert_eq!(rt; index.put(b"a", 2), Ok(None));
    let mut out = [Key::empty(); 5];
    let mut got = [9u8; 5];
    assert_eq!(rt; index.run(b"", None, &mut out, &mut got), Ok((4, false)));
    assert_eq!(rt; got, [1, 2, 3, 4, 9]);
    assert!(rt; out[2].as_bytes() == b"ab".as_slice());
    Ok(())
}

// The bounds of a run, and rows that are too short for it.
#[test]
fn run_within_bounds(rt: HostRuntime) -> Result<(), Fail> {
    let mut keys = [Key::empty(); 3];
    let mut values = [0u8; 3];
    let mut index = SortedRow::new(Opening::check(&mut keys, &mut values)?);
    assert_eq!(rt; index.put(b"a", 1), Ok(None));
    assert_eq!(rt; index.put(b"b", 2), Ok(None));
    assert_eq!(rt; index.put(b"c", 3), Ok(None));
    let mut out = [Key::empty(); 1];
    let mut got = [9u8; 1];
    assert_eq!(rt;
        index.run(b"a", Some(b"c"), &mut out, &mut got),
        Ok((1, true))
    );
    assert_eq!(rt;
        index.run(b"b", Some(b"c"), &mut out, &mut got),
        Ok((1, false))
    );
    assert_eq!(rt; got, [2]);
    assert_eq!(rt;
        index.run(b"c", Some(b"a"), &mut out, &mut got),
        Ok((0, false))
    );
    assert_eq!(rt; index.run(b"a", None, &mut [], &mut []), Ok((0, true)));
    let unequal = index.run(b"a", None, &mut out, &mut []);
    assert_eq!(rt; unequal, Err(IndexFault::UnequalRows));
    Ok(())
}

// Keys of 24 bytes are taken, keys of 25 refused by every call, before rows of unequal length.
#[test]
fn long_keys(rt: HostRuntime) -> Result<(), Fail> {
    let mut keys = [Key::empty(); 2];
    let mut values = [0u8; 2];
    let mut index = SortedRow::new(Opening::check(&mut keys, &mut values)?);
    let long = [7u8; 25];
    assert_eq!(rt; index.put(&long[..24], 5), Ok(None));
    assert_eq!(rt; index.get(&long[..24]), Ok(Some(5)));
    assert_eq!(rt; index.get(&long), Err(IndexFault::KeyTooLong));
    assert_eq!(rt; index.put(&long, 6), Err(IndexFault::KeyTooLong));
    assert_eq!(rt; index.drop(&long), Err(IndexFault::KeyTooLong));
    let mut out = [Key::empty(); 1];
    let run = index.run(b"a", Some(&long), &mut out, &mut []);
    assert_eq!(rt; run, Err(IndexFault::KeyTooLong));
    assert!(rt; Key::new(&long).is_err());
    Ok(())
}

// Rows of no place, and rows that differ.
#[test]
fn refused_openings(rt: HostRuntime) {
    let mut no_keys: [Key; 0] = [];
    let mut no_values: [u8; 0] = [];
    assert!(rt; Opening::check(&mut no_keys, &mut no_values).is_err());
    let mut keys = [Key::empty(); 2];
    let mut values = [0u8; 3];
    assert!(rt; Opening::check(&mut keys, &mut values).is_err());
    assert_eq!(rt; OpenFault::BadRows.number(), 1);
}
