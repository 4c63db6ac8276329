// The parts of a list of samples that are detrended, one revolution each.
ghost use Rattle.std.specs.Prelude.{◌≡◌, ◌<◌, length};
ghost use Rattle.detrend.specs.Ranges.{range_fits, ranges_fit};

// Where each part begins and ends, the time of its node, and its period.
#[derive(Clone, Copy)]
pub struct Parts<'a> {
    pub firsts: &'a [usize],
    pub ends: &'a [usize],
    pub starts: &'a [f64],
    pub periods: &'a [f64],
}

impl<'a> Parts<'a> {
    #[tactic(auto, unfolding(crate::specs::Ranges::range_fits))]
    fn fits(self, k: usize, n: usize) -> bool
        requires { k < length self.firsts.now }
        ensures { result ≡ range_fits self.entry.firsts.now self.entry.ends.now k n }
    {
        k >= self.ends.len() || (self.firsts[k] <= self.ends[k] && self.ends[k] <= n)
    }

    // Whether each ends no earlier than it begins, within n samples.
    #[tactic(auto, using(crate::proofs::Ranges::ranges_go, crate::proofs::Ranges::ranges_stop, crate::proofs::Ranges::ranges_done))]
    pub fn all_fit(self, n: usize) -> bool
        ensures { result ≡ ranges_fit self.entry.firsts.now self.entry.ends.now n }
    {
        for k in 0..self.firsts.len() {
            if !self.fits(k, n) {
                return false;
            }
        }
        true
    }
}
