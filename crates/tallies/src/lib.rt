// Tallies of candidates: how many listed sets lead to a packet that passes the second check, and the earliest of them in the list. They
// are taken in the order in which a cursor meets the sets, and do not depend on it.
#![tactic(auto)]

ghost use Rattle.std.specs.Prelude.{◌≡◌, List, ◌∷◌, [], ◌++◌, ℕ, ◌+◌, ◌^◌, ◌<◌, ◌≤◌, length};
ghost use Rattle.base.specs.Lists.{In};
ghost use Rattle.patterns.specs.Patterns.{most_positions};
ghost use Rattle.patterns.specs.Order.{before};
ghost use Rattle.patterns.specs.Listing.{in_order};
ghost use Rattle.patterns.specs.Walk.{by_positions};
ghost use Rattle.cursor.specs.Cursors.{FoundFits, ahead_of};
ghost use Rattle.tallies.specs.Tallies.{Candidates, Tallied, passing, met_by, listed_by};

use cursor::Cursor;
use patterns::{MOST_POSITIONS, Pattern};
use weighing::Weighed;

// How many candidates pass so far, and the earliest of them in the list, in whatever order they were met.
#[derive(Clone, Copy)]
pub struct Tally {
    pub count: u64,
    pub earliest: Option<Pattern>,
}

impl Tally {
    // The tally with one candidate more that passes.
    fn and(self, pos: &[u16]) -> Tally
        requires { (self.count + 1 < 2 ^ 64) × (length pos.now ≤ most_positions) }
        ensures { (kept : List (List ℕ)) → (In pos.now kept → ⊥) → Tallied (in_order before kept) self → Tallied (in_order before (kept ++ pos.now ∷ [])) result }
    {
        let count = self.count + 1;
        match self.earliest {
            Some(p) if !patterns::is_before(pos, p) => Tally {
                count,
                earliest: Some(p),
            },
            _ => Tally {
                count,
                earliest: Some(patterns::from_positions(pos)),
            },
        }
    }
}

// Tallies the candidates from the set found on.
fn tally_from(cursor: Cursor, found: Option<usize>, pos: &mut [u16], weighed: Weighed) -> Tally
    requires { Candidates cursor weighed × FoundFits (length cursor.powers.powers.now) found pos.old × (length pos.old ≤ most_positions) × (length (ahead_of by_positions (met_by cursor (length pos.old)) found pos.old) < 2 ^ 64) }
    ensures { Tallied (in_order before (passing weighed.entry (ahead_of by_positions (met_by cursor.entry (length pos.old)) found pos.old))) result }
{
    let mut tally = Tally {
        count: 0,
        earliest: None,
    };
    let mut ahead = found;
    while let Some(k) = ahead {
        if weighed.passes_flipped(&pos[..k]) {
            tally = tally.and(&pos[..k]);
        }
        ahead = cursor::meet_next(cursor, pos, k);
    }
    tally
}

// Tallies all candidates: `pos` has room for as many positions as the limit.
fn tally_by(cursor: Cursor, pos: &mut [u16], weighed: Weighed) -> Tally
    requires { Candidates cursor weighed × (length pos.old ≤ most_positions) }
    ensures { Tallied (passing weighed.entry (listed_by cursor.entry (length pos.old))) result }
{
    let found = cursor::meet_first(cursor, pos);
    tally_from(cursor, found, pos, weighed)
}

// The same with room for the positions.
pub fn tally_all(cursor: Cursor, limit: usize, weighed: Weighed) -> Tally
    requires { Candidates cursor weighed × (limit ≤ most_positions) }
    ensures { Tallied (passing weighed.entry (listed_by cursor.entry limit)) result }
{
    let mut pos = [0u16; MOST_POSITIONS];
    tally_by(cursor, &mut pos[..limit], weighed)
}
