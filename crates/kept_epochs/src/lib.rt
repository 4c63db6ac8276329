// The kept epochs of the whole path: their times and residuals, from the fitted states in the slots of both satellites.
#![tactic(auto)]

ghost use Rattle.std.specs.Prelude.{◌≡◌, true, List, ◌+◌, ◌≤◌, ◌<◌, Float, length};
ghost use Rattle.laws.specs.Checks.{rising_seconds};
ghost use Rattle.inputs.specs.Inputs.{front_size};
ghost use Rattle.inputs.specs.Lent.{pair_of};
ghost use Rattle.kept_epochs.specs.Lent.{given_of, serves_of};
ghost use Rattle.kept_epochs.specs.KeptEpochs.{Found, Added, Able, SoFar, Done, Gathered, Counted};

// What an epoch is made from beside the slots: the model, both satellites' accelerometer values, how many windows there are, and the observations.
#[derive(Clone, Copy)]
pub struct Given<'a> {
    pub model: inputs::Model<'a>,
    pub accs: inputs::Pair<'a>,
    pub windows: usize,
    pub observed: inputs::Observed<'a>,
}

// Both satellites' states and accelerometer values at the whole part of t; `first` is the slot of C's first window.
#[tactic(auto, using(crate::proofs::LookUps::found))]
fn look(
    s: &[f64],
    first: usize,
    windows: usize,
    accs: inputs::Pair<'_>,
    t: f64,
) -> Option<epoch::Sighting>
    requires { (first ≤ 281768) × (rising_seconds accs.c.keys.now ≡ true) × (rising_seconds accs.d.keys.now ≡ true) }
    ensures { Found first windows (pair_of accs.entry) s.now t result }
{
    let second = numbers::whole_second(numbers::GpsTime(t));
    let c = slots::held(s, first, windows, second);
    let d = slots::held(s, first + inputs::SLOT_ROOM, windows, second);
    let axc = integrate::rows::number_at(accs.c, second);
    let axd = integrate::rows::number_at(accs.d, second);
    epoch::sighted(c, d, axc, axd)
}

// Stores time and residual at the next place, where the epoch is kept.
#[tactic(auto, using(crate::proofs::Turns::added_kept, crate::proofs::Turns::added_not))]
fn add(
    made: Option<epoch_record::Epoch>,
    count: usize,
    outtimes: &mut [f64],
    outraws: &mut [f64],
) -> usize
    requires { (count < length outtimes.old) × (count < length outraws.old) }
    ensures { Added made count result outtimes.old outraws.old outtimes.new outraws.new }
{
    match made {
        Some(e) => {
            outtimes[count] = e.t;
            outraws[count] = e.residual;
            count + 1
        }
        None => count,
    }
}

// Observation i.
#[tactic(auto, using(crate::proofs::Turns::room_left))]
fn turn(
    given: Given<'_>,
    i: usize,
    count: usize,
    base: usize,
    outtimes: &mut [f64],
    outraws: &mut [f64],
    s: &mut [f64],
) -> usize
    requires { Able (given_of given) base outtimes.old outraws.old s.old × (i < length given.observed.times.now) × (count ≤ i) }
    ensures { (s₀ : List Float) → SoFar (given_of given.entry) base i s₀ outtimes.old outraws.old s.old count
        → SoFar (given_of given.entry) base (i + 1) s₀ outtimes.new outraws.new s.new result }
{
    let t = integrate::kernel::element(given.observed.times, i);
    let value = integrate::kernel::element(given.observed.values, i);
    let byte = given.observed.good[i];
    let found = look(
        &s[..],
        base + inputs::FIT_ROOM,
        given.windows,
        given.accs,
        t,
    );
    let made = epoch::try_seen(given.model, found, t, value, byte, base, s);
    add(made, count, outtimes, outraws)
}

// From an empty beginning.
fn gather_from(
    given: Given<'_>,
    base: usize,
    outtimes: &mut [f64],
    outraws: &mut [f64],
    s: &mut [f64],
) -> usize
    requires { SoFar (given_of given) base 0 s.old outtimes.old outraws.old s.old 0 }
    ensures { Done (given_of given.entry) base s.old s.new outtimes.new outraws.new result }
{
    let mut count: usize = 0;
    for i in 0..given.observed.times.len() {
        count = turn(given, i, count, base, outtimes, outraws, s);
    }
    count
}

fn gather_all(given: Given<'_>, outtimes: &mut [f64], outraws: &mut [f64], s: &mut [f64]) -> usize
    requires { serves_of given (length outtimes.old) (length outraws.old) (length s.old) ≡ true }
    ensures { Done (given_of given.entry) (front_size given.entry.model.degree) s.old s.new outtimes.new outraws.new result }
{
    let base = inputs::front_size(given.model.degree);
    slices::clear(outtimes);
    slices::clear(outraws);
    epoch::open(given.model.degree, base, s);
    gather_from(given, base, outtimes, outraws, s)
}

#[tactic(auto, unfolding(crate::specs::KeptEpochs::gather_serves))]
fn serves(given: Given<'_>, outtimes: usize, outraws: usize, room: usize) -> bool
    ensures { result ≡ serves_of given.entry outtimes outraws room }
{
    let degree = given.model.degree;
    let m = given.observed.times.len();
    let front = degree <= 180 && inputs::front_size(degree) <= room;
    let keys = slices::rising_keys(given.accs.c.keys) && slices::rising_keys(given.accs.d.keys);
    let lengths = (given.observed.values.len() == m && given.observed.good.len() == m)
        && (outtimes == m && outraws == m);
    (front && keys) && (slices::all_times(given.observed.times) && lengths)
}

// Times and residuals of the kept epochs, in order, +0.0 after the last, and how many there are. None, and nothing is done, where the slices do not serve.
#[tactic(auto, using(crate::proofs::GatherGuard::gathered, crate::proofs::GatherGuard::not_gathered))]
pub fn try_gather(
    given: Given<'_>,
    outtimes: &mut [f64],
    outraws: &mut [f64],
    s: &mut [f64],
) -> Option<usize>
    ensures { Gathered (given_of given.entry)
        (serves_of given.entry (length outtimes.old) (length outraws.old) (length s.old)) outtimes.old
        outraws.old s.old outtimes.new outraws.new s.new result }
{
    if serves(given, outtimes.len(), outraws.len(), s.len()) {
        return Some(gather_all(given, outtimes, outraws, s));
    }
    None
}

// The same, but 0 where the slices do not serve.
#[tactic(auto, using(crate::proofs::GatherGuard::counted))]
pub fn gather(given: Given<'_>, outtimes: &mut [f64], outraws: &mut [f64], s: &mut [f64]) -> usize
    ensures { Counted (given_of given.entry)
        (serves_of given.entry (length outtimes.old) (length outraws.old) (length s.old)) outtimes.old
        outraws.old s.old outtimes.new outraws.new s.new result }
{
    try_gather(given, outtimes, outraws, s).unwrap_or(0)
}
