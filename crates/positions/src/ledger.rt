// Positions in an ordered index, each under its member and then its code. These are functions on the index alone, so
// they are told by its pairs and its limit.
ghost use Rattle.std.specs.Prelude.{◌≡◌, suc, false, not, ◌||◌, [], ◌∷◌, ◌++◌, map, length, take, ◌+ℤ◌, if◌then◌else◌, Some, None, slice_index};
ghost use Rattle.ordered.specs.Keys.{content};
ghost use Rattle.ordered.specs.Replies.{changed};
ghost use Rattle.codes.specs.Texts.{text};
ghost use Rattle.positions.specs.Posting.{flat, beyond, max_posting, max_position, settled, settle_reply, post_reply, posted};
ghost use Rattle.positions.specs.Listing.{list_reply, list_keys, list_lots};

use crate::fault::PositionFault;
use codes::{Code, Member};
use ordered::{Key, OrderedIndex};

// The most lots of one posting, long or short.
const MAX_POSTING: u64 = 1_000_000_000;

// The most lots of a position, long or short.
const MAX_POSITION: u64 = 1_000_000_000_000;

// Whether a posting may have so many lots.
fn is_posting(lots: i64) -> bool
    ensures { result ≡ not (flat lots || beyond max_posting lots) }
{
    lots != 0 && lots.unsigned_abs() <= MAX_POSTING
}

// What a position of `held` lots comes to, unless that is beyond the bounds.
fn sum_of(held: i64, lots: i64) -> Option<i64>
    ensures { result ≡ (if beyond max_position (held +ℤ lots) then None else Some (held +ℤ lots)) }
{
    held.checked_add(lots)
        .filter(|sum| sum.unsigned_abs() <= MAX_POSITION)
}

// Has the key hold a sum, or lets it go where that is 0: the sum.
fn settle<I: OrderedIndex<i64>>(index: &mut I, key: &[u8], sum: i64) -> Result<i64, PositionFault>
    ensures reply { result ≡ settle_reply (I.pairs index.old) (I.limit index.old) key.now sum }
    ensures after { I.pairs index.new ≡ changed result (I.pairs index.old) (settled (I.pairs index.old) key.now sum) }
    ensures limit { I.limit index.new ≡ I.limit index.old }
{
    if sum == 0 {
        index.drop(key)?;
    } else {
        index.put(key, sum)?;
    }
    Ok(sum)
}

// Adds lots to a position, once all that was given is good: the work of the public `post`, whose own proof is one step.
pub(crate) fn post<I: OrderedIndex<i64>>(
    index: &mut I,
    member: &[u8],
    code: &[u8],
    lots: i64,
) -> Result<i64, PositionFault>
    ensures reply { result ≡ post_reply (I.pairs index.old) (I.limit index.old) member.now code.now lots }
    ensures after { I.pairs index.new ≡ posted (I.pairs index.old) (I.limit index.old) member.now code.now lots }
    ensures limit { I.limit index.new ≡ I.limit index.old }
{
    let member = Member::new(member).ok_or(PositionFault::BadMember)?;
    let code = Code::new(code).ok_or(PositionFault::BadCode)?;
    if !is_posting(lots) {
        return Err(PositionFault::BadLots);
    }
    add(index, member, code, lots)
}

// Adds lots to a position, which is let go where it comes to 0.
fn add<I: OrderedIndex<i64>>(
    index: &mut I,
    member: Member,
    code: Code,
    lots: i64,
) -> Result<i64, PositionFault>
    requires { (flat lots || beyond max_posting lots) ≡ false }
    ensures reply { result ≡ post_reply (I.pairs index.old) (I.limit index.old) (text member) (text code) lots }
    ensures after { I.pairs index.new ≡ posted (I.pairs index.old) (I.limit index.old) (text member) (text code) lots }
    ensures limit { I.limit index.new ≡ I.limit index.old }
{
    let key = Key::joined(member.as_bytes(), code.as_bytes())?;
    let held = index.get(key.as_bytes())?.unwrap_or(0);
    let sum = sum_of(held, lots).ok_or(PositionFault::BeyondBounds)?;
    settle(index, key.as_bytes(), sum)
}

// The first byte string behind all that begin with the member.
fn end_of(member: Member) -> [u8; Member::LEN]
    ensures { result ≡ take 3 (text member) ++ suc (slice_index (text member) 3) ∷ [] }
{
    let bytes = member.as_bytes();
    [bytes[0], bytes[1], bytes[2], bytes[3] + 1]
}

// The run of the index that has a member's positions: the reply is a run's pair.
pub(crate) fn run<I: OrderedIndex<i64>>(
    index: &I,
    member: Member,
    keys: &mut [Key],
    lots: &mut [i64],
) -> Result<(usize, bool), PositionFault>
    ensures reply { result ≡ list_reply (I.pairs index.now) (text member) (length keys.old) (length lots.old) }
    ensures keys { map content keys.new ≡ list_keys result (I.pairs index.now) (text member) (map content keys.old) }
    ensures lots { lots.new ≡ list_lots result (I.pairs index.now) (text member) lots.old }
{
    let end = end_of(member);
    Ok(index.run(member.as_bytes(), Some(&end), keys, lots)?)
}
