// Positions placed one after the other, so that their powers have a given sum: all but the last are forced, and the last is looked
// up. Contracts hold for any powers that the two tables describe. There is no heap: what is found is left in a lent slice, `pos`, and
// the answer is a flag that says whether anything is.
#![tactic(auto)]

ghost use Rattle.std.specs.Prelude.{◌≡◌, ◌≤◌, length};
ghost use Rattle.base.specs.Lists.{Ascending};
ghost use Rattle.placing.specs.Placing.{
  Below,
  Resumed,
  NearestFound,
  Placed,
  ReadyFor,
};

// The powers of x at the positions below a length, the first position of each remainder, and the period.
#[derive(Clone, Copy)]
pub struct Powers<'a> {
    pub powers: &'a [u32],
    pub firsts: &'a [u16],
    pub period: usize,
}

impl<'a> Powers<'a> {
    // The same tables with the powers below `end` alone.
    pub fn below(self, end: usize) -> Powers<'a>
        requires { end ≤ length self.powers.now }
        ensures { Below self.entry end result }
    {
        Powers {
            powers: &self.powers[..end],
            ..self
        }
    }

    // The least position at or past `lo` and below `end` whose power is `u`, by the first one and the period. The first test asks
    // whether the first position is at or past `lo` and below `end`, both at once: nearly every trial fails it, and a second test
    // would be a gamble. The second test is about the length of the powers, and not about `end`, so that a loop in which `end`
    // moves can ask it once.
    pub fn nearest_below(self, lo: usize, end: usize, u: usize) -> Option<usize>
        requires { ReadyFor self lo u × (lo ≤ end) × (end ≤ length self.powers.now) }
        ensures { NearestFound self.entry end lo u result }
    {
        let f = self.firsts[u] as usize;
        if (f + 65536 - lo) % 65536 < end - lo {
            return Some(f);
        }
        if self.powers.len() <= self.period || lo <= f {
            return None;
        }
        let p = f + (lo - f + self.period - 1) / self.period * self.period;
        if p < end { Some(p) } else { None }
    }

    // The same, for a loop in which `end` moves. It asks first whether the first position is at or past `end`, as it mostly is: the
    // compiler finds no test so short in `nearest_below`.
    #[inline(always)]
    pub fn seldom_below(self, lo: usize, end: usize, u: usize) -> Option<usize>
        requires { ReadyFor self lo u × (lo ≤ end) × (end ≤ length self.powers.now) }
        ensures { NearestFound self.entry end lo u result }
    {
        let f = self.firsts[u] as usize;
        if end <= f {
            return None;
        }
        self.nearest_below(lo, end, u)
    }

    // The same as `nearest_below`, below the length of the powers.
    pub fn nearest(self, lo: usize, u: usize) -> Option<usize>
        requires { ReadyFor self lo u }
        ensures { NearestFound self.entry (length self.entry.powers.now) lo u result }
    {
        self.nearest_below(lo, self.powers.len(), u)
    }

    // Places one position.
    fn single(self, lo: usize, u: usize, pos: &mut [u16]) -> bool
        requires { ReadyFor self lo u × (length pos.old ≡ 1) }
        ensures { Placed self.entry 1 lo u result pos.new }
    {
        match self.nearest(lo, u) {
            Some(p) => {
                pos[0] = p as u16;
                true
            }
            None => false,
        }
    }

    // Places two positions: the first goes through the positions, and the second is looked up. Its loop is where a search spends its
    // time, and inside `place` it would lack registers.
    #[inline(never)]
    fn pair(self, lo: usize, u: usize, pos: &mut [u16]) -> bool
        requires { ReadyFor self lo u × (length pos.old ≡ 2) }
        ensures { Placed self.entry 2 lo u result pos.new }
    {
        for a in lo..self.powers.len() {
            if let Some(b) = self.nearest(a + 1, u ^ (self.powers[a] as usize)) {
                pos[0] = a as u16;
                pos[1] = b as u16;
                return true;
            }
        }
        false
    }

    // Places as many positions as `pos` has room for: the first goes through the positions, and the others are placed
    // behind it.
    #[tactic(auto, using(crate::proofs::HeadLaws::first_from_empty))]
    pub fn place(self, lo: usize, u: usize, pos: &mut [u16]) -> bool
        requires { ReadyFor self lo u }
        ensures { Placed self.entry (length pos.old) lo u result pos.new }
    {
        match pos.len() {
            0 => u == 0,
            1 => self.single(lo, u, pos),
            2 => self.pair(lo, u, pos),
            _ => {
                for a in lo..self.powers.len() {
                    let v = u ^ (self.powers[a] as usize);
                    if self.place(a + 1, v, &mut pos[1..]) {
                        pos[0] = a as u16;
                        return true;
                    }
                }
                false
            }
        }
    }

    // Goes on from two positions. It is `resume` for two, and spelt out since a repair does it for each set: where a list is dense, a
    // call for each would take a third more time.
    #[inline(always)]
    #[tactic(auto, using(crate::proofs::TailLaws::head_below, crate::proofs::TailLaws::second_below))]
    pub fn resume_pair(self, u: usize, pos: &mut [u16]) -> bool
        requires { ReadyFor self 0 u × (length pos.old ≡ 2) × Ascending (length self.powers.now) 0 pos.old }
        ensures { Resumed self.entry u pos.old result pos.new }
    {
        let p = pos[0] as usize;
        let q = pos[1] as usize;
        if let Some(b) = self.nearest(q + 1, u ^ (self.powers[p] as usize)) {
            pos[1] = b as u16;
            return true;
        }
        self.pair(p + 1, u, pos)
    }

    // Goes on from the positions in `pos`, which need not have the sum `u`: to the first set of as many positions that
    // comes after them.
    #[tactic(auto, using(crate::proofs::TailLaws::head_below, crate::proofs::HeadLaws::first_after_empty))]
    pub fn resume(&self, u: usize, pos: &mut [u16]) -> bool
        requires { ReadyFor self.now 0 u × Ascending (length self.now.powers.now) 0 pos.old }
        ensures { Resumed self.now u pos.old result pos.new }
    {
        match pos.len() {
            0 => false,
            2 => self.resume_pair(u, pos),
            _ => {
                let p = pos[0] as usize;
                let v = u ^ (self.powers[p] as usize);
                self.resume(v, &mut pos[1..]) || self.place(p + 1, u, pos)
            }
        }
    }
}
