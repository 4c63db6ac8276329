// One epoch over lent lists: its look-ups, and its record.
ghost use Rattle.std.specs.Prelude.{◌≡◌, ◌≤◌, true, length, take};
ghost use Rattle.laws.specs.Checks.{rising_seconds};
ghost use Rattle.inputs.specs.Lent.{model_of, keyed_of, inputs_of};
ghost use Rattle.numbers.specs.Seconds.{whole_second};
ghost use Rattle.finality.specs.Tables.{find as find_in};
ghost use Rattle.integrate.specs.RowsBySecond.{states_in, values_in};
ghost use Rattle.epoch.specs.Kept.{observation};
ghost use Rattle.epoch.specs.Work.{sighting_of, Usable};
ghost use Rattle.residuals.specs.Work.{Tried};

// What the epochs read, with keys that rise.
#[derive(Clone, Copy)]
pub(crate) struct Rows<'a> {
    pub inputs: inputs::Inputs<'a>,
    pub ghost states_c: { rising_seconds inputs.states.c.keys.now ≡ true },
    pub ghost states_d: { rising_seconds inputs.states.d.keys.now ≡ true },
    pub ghost accs_c: { rising_seconds inputs.accs.c.keys.now ≡ true },
    pub ghost accs_d: { rising_seconds inputs.accs.d.keys.now ≡ true },
}

// Both states and both accelerometer values at the whole part of t.
fn look(rows: Rows<'_>, t: f64) -> Option<epoch::Sighting>
    ensures { result ≡ sighting_of (find_in (whole_second t) (states_in (keyed_of rows.entry.inputs.states.c)))
        (find_in (whole_second t) (states_in (keyed_of rows.entry.inputs.states.d)))
        (find_in (whole_second t) (values_in (keyed_of rows.entry.inputs.accs.c)))
        (find_in (whole_second t) (values_in (keyed_of rows.entry.inputs.accs.d))) }
{
    let second = numbers::whole_second(numbers::GpsTime(t));
    let states = rows.inputs.states;
    let accs = rows.inputs.accs;
    epoch::sighted(
        integrate::rows::state_at(states.c, second),
        integrate::rows::state_at(states.d, second),
        integrate::rows::number_at(accs.c, second),
        integrate::rows::number_at(accs.d, second),
    )
}

// An observation's record, if it is kept.
pub(crate) fn try_epoch(
    rows: Rows<'_>,
    t: f64,
    observed: f64,
    good: u8,
    base: usize,
    w: &mut [f64],
) -> Option<epoch_record::Epoch>
    requires { (base ≤ length w.old) × Usable (model_of rows.inputs.model) (take base w.old) }
    ensures { Tried (inputs_of rows.entry.inputs) (observation t observed good) base w.old w.new result }
{
    let found = look(rows, t);
    epoch::try_seen(rows.inputs.model, found, t, observed, good, base, w)
}
