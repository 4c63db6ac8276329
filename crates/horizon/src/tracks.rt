// The lists that the horizon looks at besides the nodes, and what is tested of them.
ghost use Rattle.std.specs.Prelude.{◌≡◌, length};
ghost use Rattle.laws.specs.Times.{end, reaches as reaches_end, second_time};
ghost use Rattle.finality.specs.Stages.{reach, other_reach};
ghost use Rattle.finality.specs.Sheet.{reached_by};
ghost use Rattle.horizon.specs.Calls.{counts_within, given_fine, given_rise};
ghost use Rattle.horizon.specs.Lent.{ends_in, given_in};

// The keys of both satellites' states and accelerometer values, and the times of fields and of observations.
#[derive(Clone, Copy)]
pub struct Tracks<'a> {
    pub states_c: &'a [i64],
    pub states_d: &'a [i64],
    pub acc_c: &'a [i64],
    pub acc_d: &'a [i64],
    pub fields: &'a [f64],
    pub observed: &'a [f64],
}

fn last_time(times: &[f64]) -> Option<f64>
    ensures { result ≡ end (λ t. t) times.now }
{
    times.last().copied()
}

fn last_second(keys: &[i64]) -> Option<f64>
    ensures { result ≡ end second_time keys.now }
{
    let last = keys.last().copied()?;
    Some(std::num::nearest_i64_to_f64(last))
}

// Whether a list that ends there goes on at least to x.
fn reaches(x: f64, last: Option<f64>) -> bool
    ensures { result ≡ reaches_end x last }
{
    match last {
        Some(y) => x <= y,
        None => false,
    }
}

// How far each list must go on beyond a node.
fn reach(z: f64) -> f64
    ensures { (result ≡ reach z) × (result ≡ other_reach z) }
{
    z + 1804.0
}

impl<'a> Tracks<'a> {
    // Whether every list goes on far enough beyond a node.
    pub fn reach_beyond(self, z: f64) -> bool
        ensures { result ≡ reached_by (ends_in self.entry) z }
    {
        let far = reach(z);
        let times = reaches(far, last_time(self.fields)) && reaches(far, last_time(self.observed));
        let accs = reaches(far, last_second(self.acc_c))
            && (reaches(far, last_second(self.acc_d)) && times);
        reaches(far, last_second(self.states_c))
            && (reaches(far, last_second(self.states_d)) && accs)
    }

    // Whether there are not too many of each, so many nodes and kept epochs included.
    pub fn are_counted(self, nodes: usize, kept: usize) -> bool
        ensures { result ≡ counts_within nodes (length self.entry.states_c.now) (length self.entry.states_d.now)
            (length self.entry.acc_c.now) (length self.entry.acc_d.now) (length self.entry.fields.now)
            (length self.entry.observed.now) kept }
    {
        crate::counts_within(
            nodes,
            self.states_c.len(),
            self.states_d.len(),
            self.acc_c.len(),
            self.acc_d.len(),
            self.fields.len(),
            self.observed.len(),
            kept,
        )
    }

    // Times and keys from 0 to 2^31, those of nodes and kept epochs included.
    #[tactic(auto, unfolding(crate::specs::Calls::given_fine))]
    pub fn are_fine(self, nodes: &[f64], kept: &[f64]) -> bool
        ensures { result ≡ given_fine (given_in nodes.now self.entry) kept.now }
    {
        let times = (slices::all_times(nodes) && slices::all_times(self.fields))
            && (slices::all_times(self.observed) && slices::all_times(kept));
        let states = slices::all_keys(self.states_c) && slices::all_keys(self.states_d);
        let accs = slices::all_keys(self.acc_c) && slices::all_keys(self.acc_d);
        times && (states && accs)
    }

    // Each entry of a list below the next, in the nodes and the kept epochs too.
    #[tactic(auto, unfolding(crate::specs::Calls::given_rise, inputs::specs::Inputs::rise))]
    pub fn rise(self, nodes: &[f64], kept: &[f64]) -> bool
        ensures { result ≡ given_rise (given_in nodes.now self.entry) kept.now }
    {
        let times = slices::rising(nodes)
            && (slices::rising(self.observed) && slices::rising(kept));
        let states = slices::rising_keys(self.states_c) && slices::rising_keys(self.states_d);
        let accs = slices::rising_keys(self.acc_c) && slices::rising_keys(self.acc_d);
        times && (slices::rising(self.fields) && (states && accs))
    }
}
