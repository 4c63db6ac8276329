// States of an orbit at rising whole seconds, and where it crosses the equator between two of them.
ghost use Rattle.std.specs.Prelude.{◌≡◌, ◌+◌, ◌*◌, ◌<◌, length};
ghost use Rattle.ascending_nodes.specs.Nodes.{second_at, height_at, rises_of, crosses_at, crossing_at, NodesIn};

// The states lie end to end, six numbers a key.
#[derive(Clone, Copy)]
pub struct Orbit<'a> {
    pub keys: &'a [i64],
    pub states: &'a [f64],
    ghost full: { length states.now ≡ 6 * length keys.now },
}

#[tactic(auto, unfolding(crate::specs::Nodes::rises_of))]
fn rises(z0: f64, z1: f64) -> bool
    ensures { result ≡ rises_of z0 z1 }
{
    z0 < 0.0 && 0.0 <= z1
}

impl<'a> Orbit<'a> {
    fn second_at(self, k: usize) -> f64
        requires { k < length self.keys.now }
        ensures { result ≡ second_at self.entry.keys.now k }
    {
        let key = self.keys[k];
        std::num::nearest_i64_to_f64(key)
    }

    fn height_at(self, k: usize) -> f64
        requires { k < length self.keys.now }
        ensures { result ≡ height_at self.entry.states.now k }
    {
        self.states[6 * k + 2]
    }

    // Whether it rises through the equator between keys that are one second apart.
    #[tactic(auto, unfolding(crate::specs::Nodes::crosses_at))]
    fn crosses(self, k: usize) -> bool
        requires { k + 1 < length self.keys.now }
        ensures { result ≡ crosses_at self.entry.keys.now self.entry.states.now k }
    {
        self.second_at(k + 1) - self.second_at(k) == 1.0
            && rises(self.height_at(k), self.height_at(k + 1))
    }

    #[tactic(auto, unfolding(crate::specs::Nodes::crossing_at))]
    fn crossing(self, k: usize) -> f64
        requires { k + 1 < length self.keys.now }
        ensures { result ≡ crossing_at self.entry.keys.now self.entry.states.now k }
    {
        let z0 = self.height_at(k);
        let z1 = self.height_at(k + 1);
        self.second_at(k) + z0 / (z0 - z1)
    }

    // The nodes go to the head of out, +0.0 behind them; how many there are.
    #[tactic(auto, unfolding(crate::specs::Nodes::nodes_of))]
    pub fn fill_nodes(self, out: &mut [f64]) -> usize
        requires { length out.old ≡ length self.keys.now }
        ensures { NodesIn self.entry.keys.now self.entry.states.now result out.new }
    {
        slices::clear(out);
        let mut count = 0;
        for k in 0..self.keys.len().saturating_sub(1) {
            if self.crosses(k) {
                out[count] = self.crossing(k);
                count += 1;
            }
        }
        count
    }
}
