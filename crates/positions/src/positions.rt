// The positions of all members, in an index that nothing else uses. They are seen as that index.
ghost use Rattle.std.specs.Prelude.{◌≡◌, map, length, MatchResult, ◌≢◌};
ghost use Rattle.ordered.specs.Keys.{content};
ghost use Rattle.positions.specs.declared.fault.PositionFault.TheVariants.{NotEmpty};
ghost use Rattle.positions.specs.Posting.{post_reply, posted};
ghost use Rattle.positions.specs.Listing.{list_reply, list_keys, list_lots};

use crate::fault::PositionFault;
use crate::ledger;
use codes::Member;
use ordered::{Key, OrderedIndex};
use std::marker::Model;

#[derive(Drop)]
pub struct Positions<I: OrderedIndex<i64> + Drop> {
    index: I,
}

impl<I: OrderedIndex<i64> + Drop> Model for Positions<I> {
    ghost Value = { I };

    ghost view = { λ p. p.index };
}

impl<I: OrderedIndex<i64> + Drop> Positions<I> {
    // Over an index that holds nothing.
    pub fn open(index: I) -> Result<Positions<I>, PositionFault>
        ensures { MatchResult result (λ p. (p ≡ index) × (length (I.pairs index) ≡ 0)) (λ f. (f ≡ NotEmpty) × (length (I.pairs index) ≢ 0)) }
    {
        if index.count() != 0 {
            return Err(PositionFault::NotEmpty);
        }
        Ok(Positions { index })
    }

    // Adds lots to a member's position in a code: what it comes to.
    // Three parameters: a struct of them would be written out at each call, and in a command the lots are a word.
    pub fn post(&mut self, member: &[u8], code: &[u8], lots: i64) -> Result<i64, PositionFault>
        ensures reply { result ≡ post_reply (I.pairs self.old) (I.limit self.old) member.now code.now lots }
        ensures after { I.pairs self.new ≡ posted (I.pairs self.old) (I.limit self.old) member.now code.now lots }
        ensures limit { I.limit self.new ≡ I.limit self.old }
    {
        ledger::post(&mut self.index, member, code, lots)
    }

    // Writes a member's positions by code, as keys and lots, into the rows:
    // how many were written, and whether more remain, as a run replies.
    pub fn list(
        &self,
        member: &[u8],
        keys: &mut [Key],
        lots: &mut [i64],
    ) -> Result<(usize, bool), PositionFault>
        ensures reply { result ≡ list_reply (I.pairs self.now) member.now (length keys.old) (length lots.old) }
        ensures keys { map content keys.new ≡ list_keys result (I.pairs self.now) member.now (map content keys.old) }
        ensures lots { lots.new ≡ list_lots result (I.pairs self.now) member.now lots.old }
    {
        let member = Member::new(member).ok_or(PositionFault::BadMember)?;
        ledger::run(&self.index, member, keys, lots)
    }
}
