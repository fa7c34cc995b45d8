// The channel: positions of a packet are drawn from the stream, each once.
#![tactic(auto)]

ghost use Rattle.std.specs.Prelude.{◌≡◌, ◌++◌, ◌∷◌, ℕ, ◌+◌, ◌-◌, ◌<◌, ◌≤◌, ltb, length, get_or, take, drop};
ghost use Rattle.base.specs.Lists.{Ascending};
ghost use Rattle.patterns.specs.Listing.{inserted};
ghost use Rattle.maker.specs.Stream.{state_after};
ghost use Rattle.channel.specs.Channel.{untaken, drawn};
ghost use Rattle.channel.specs.Taking.{Gap};

// How many of the positions taken lie below the one that is at a place among all others: of ascending ones as many as stand in front of
// the first that is higher than the place and they together.
fn below(taken: &[u16], place: usize) -> usize
    requires { place + length taken.now < 65536 }
    ensures within { result ≤ length taken.now }
    ensures gap { (l : ℕ) → Ascending l 0 taken.now → Gap place result taken.now }
{
    for (i, p) in taken.iter().enumerate() {
        let due = place + i;
        if due < *p as usize {
            return i;
        }
    }
    taken.len()
}

// Puts a position in at an index. Those from there on move up by one, over the last, each by itself: the library's `rotate_right` would have
// an archive for C ask for memmove.
fn insert(pos: &mut [u16], at: usize, p: u16)
    requires { at < length pos.old }
    ensures { let kept = take (length pos.old - 1) pos.old in pos.new ≡ take at kept ++ p ∷ drop at kept }
{
    for i in (at + 1..pos.len()).rev() {
        pos[i] = pos[i - 1];
    }
    pos[at] = p;
}

// Takes the position at a place among those not yet taken. The ones taken are all of the slice but its last element, ascending.
fn take_at(pos: &mut [u16], place: usize)
    requires { (0 < length pos.old) × (place + length pos.old < 65536) }
    ensures { let taken = take (length pos.old - 1) pos.old in (l : ℕ) → Ascending l 0 taken → place + length pos.old ≤ l → pos.new ≡ inserted ltb (get_or (untaken taken l 0) place 0) taken }
{
    let last = pos.len() - 1;
    let at = below(&pos[..last], place);
    insert(pos, at, (place + at) as u16);
}

// Draws as many positions below `bits` as the slice has room for, and tells the state that it has come to.
pub fn draw(seed: u32, bits: usize, pos: &mut [u16]) -> u32
    requires { (length pos.old ≤ bits) × (bits ≤ 4096) }
    ensures state { result ≡ state_after (length pos.old) seed }
    ensures positions { pos.new ≡ drawn bits (length pos.old) seed }
{
    let mut state = seed;
    for i in 0..pos.len() {
        let next = maker::next_state(state);
        take_at(&mut pos[..i + 1], next as usize % (bits - i));
        state = next;
    }
    state
}
