// The list of error patterns in its order: begun at a mark, and advanced from pattern to pattern. The positions of the pattern at
// hand stand in front of a lent slice, and nothing else is kept between two patterns.
#![tactic(auto)]

ghost use Rattle.std.specs.Prelude.{◌≤◌, length, take};
ghost use Rattle.base.specs.Lists.{Ascending};
ghost use Rattle.patterns.specs.Patterns.{positions, point_of};
ghost use Rattle.patterns.specs.Order.{before};
ghost use Rattle.patterns.specs.Listing.{sift};
ghost use Rattle.patterns.specs.Marks.{remaining};
ghost use Rattle.cursor.specs.Cursors.{Prepared, InFront};
ghost use Rattle.listing.specs.Listings.{listed_by, ListTold, Marked};

use cursor::Cursor;
use patterns::{Mark, Pattern};

// The first listed pattern.
fn first_listed(cursor: Cursor, pos: &mut [u16]) -> Option<usize>
    requires { Prepared cursor }
    ensures { ListTold cursor.entry (length pos.old) (listed_by cursor.entry (length pos.old)) result pos.new }
{
    let g = cursor.generator.coefficients;
    ordered::order_first(g, cursor.powers, cursor.syndrome as usize, pos)
}

// The first listed pattern that follows the one in front of `pos`, which need not be listed.
pub fn advance(cursor: Cursor, pos: &mut [u16], count: usize) -> Option<usize>
    requires { Prepared cursor × InFront (length cursor.powers.powers.now) count pos.old }
    ensures { ListTold cursor.entry (length pos.old) (sift (before (take count pos.old)) (listed_by cursor.entry (length pos.old))) result pos.new }
{
    let g = cursor.generator.coefficients;
    ordered::order_next(g, cursor.powers, cursor.syndrome as usize, pos, count)
}

// The same for a pattern.
fn go_on(cursor: Cursor, p: Pattern, pos: &mut [u16]) -> Option<usize>
    requires { Prepared cursor × Ascending (length cursor.powers.powers.now) 0 (positions p) × (length (positions p) ≤ length pos.old) }
    ensures { ListTold cursor.entry (length pos.old) (sift (before (positions p)) (listed_by cursor.entry (length pos.old))) result pos.new }
{
    let count = patterns::put_positions(p, pos);
    advance(cursor, pos, count)
}

// The first listed pattern that follows a mark.
pub fn begin(cursor: Cursor, mark: Mark, pos: &mut [u16]) -> Option<usize>
    requires { Prepared cursor × Marked (length cursor.powers.powers.now) (length pos.old) (point_of mark) }
    ensures { ListTold cursor.entry (length pos.old) (remaining (listed_by cursor.entry (length pos.old)) (point_of mark)) result pos.new }
{
    match mark {
        Mark::Start => first_listed(cursor, pos),
        Mark::Ended => None,
        Mark::After(p) => go_on(cursor, p, pos),
    }
}
