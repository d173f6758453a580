// The program: lines from standard input, answers to standard output.
#![tactic(auto)]

use anyhow::anyhow;
use console::{LIMIT, Session};
use ordered::{Key, OrderedIndex};
use positions::Positions;
use sorted::{Opening, SortedRow};
use std::io::Read;

fn main(rt: HostRuntime) -> anyhow::Result<()> {
    let mut keys = [Key::empty(); LIMIT];
    let mut lots = [0; LIMIT];
    let opening = Opening::check(&mut keys, &mut lots).map_err(|_| anyhow!(
        "the rows of the positions were refused"
    ))?;
    let positions = Positions::open(SortedRow::new(opening)).map_err(|_| anyhow!(
        "the index of the positions holds something"
    ))?;
    serve(&rt, Session::new(positions))
}

// Answers the lines of standard input.
fn serve<I: OrderedIndex<i64> + Drop>(
    rt: &HostRuntime,
    mut session: Session<I>,
) -> anyhow::Result<()> {
    let mut input = rt.stdin();
    let mut chunk = [0; 4096];
    // A count, and no `loop`: no proof shows that input ends.
    for _ in 0..u64::MAX {
        let count = input.read(&mut chunk)?;
        if count == 0 {
            break;
        }
        let mut out = String::new(rt.alloc());
        session.take(&chunk[..count], &mut out)?;
        print!(rt; "{out}")?;
    }
    let mut out = String::new(rt.alloc());
    session.finish(&mut out)?;
    print!(rt; "{out}")?;
    Ok(())
}
