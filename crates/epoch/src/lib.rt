// One epoch from what was found at its second: the field at its time, and its record.
#![tactic(auto)]

pub mod kernel;

ghost use Rattle.std.specs.Prelude.{◌≡◌, ◌&&◌, ◌≤◌, length};
ghost use Rattle.laws.specs.Loops.{cleared};
ghost use Rattle.legendre.specs.Prepared.{prepared};
ghost use Rattle.finality.specs.Brackets.{covers as covers_of};
ghost use Rattle.inputs.specs.Lent.{model_of};
ghost use Rattle.epoch.specs.Kept.{is_good, observation, record_at};
ghost use Rattle.epoch.specs.Work.{sighting_of, Recorded, Tried, Opened};

// What four look-ups found.
#[derive(Clone, Copy)]
pub struct Sighting {
    pub c: integrate::kernel::State,
    pub d: integrate::kernel::State,
    pub axc: f64,
    pub axd: f64,
}

// Two states and two accelerometer values, where all are found.
pub fn sighted(
    c: Option<integrate::kernel::State>,
    d: Option<integrate::kernel::State>,
    axc: Option<f64>,
    axd: Option<f64>,
) -> Option<Sighting>
    ensures { result ≡ sighting_of c d axc axd }
{
    Some(Sighting {
        c: c?,
        d: d?,
        axc: axc?,
        axd: axd?,
    })
}

// Good and covered.
fn is_kept(good: u8, times: &[f64], t: f64) -> bool
    ensures { result ≡ is_good good && covers_of times.now t }
{
    0 < good && model::kernel::covers(times, t)
}

// The record, over the field at t in the first `base` numbers of the work slice.
fn make(
    model: inputs::Model<'_>,
    found: Sighting,
    t: f64,
    observed: f64,
    base: usize,
    w: &mut [f64],
) -> epoch_record::Epoch
    requires { base ≤ length w.old }
    ensures { Recorded (model_of model.entry) base w.old w.new
        (record_at (model_of model.entry) t observed found.c found.d found.axc found.axd) result }
{
    model::kernel::at(model, t, &mut w[0..base]);
    crate::kernel::epoch_at(
        model.degree,
        integrate::kernel::element(model.static_field, 0),
        integrate::kernel::element(model.static_field, 1),
        model.table_a,
        model.table_b,
        &w[0..base],
        t,
        observed,
        found.c.position,
        found.c.velocity,
        found.d.position,
        found.d.velocity,
        found.axc,
        found.axd,
    )
}

// The record of an observation for which this was found, if it is kept; the first `base` numbers of the work slice are prepared.
pub fn try_seen(
    model: inputs::Model<'_>,
    found: Option<Sighting>,
    t: f64,
    observed: f64,
    good: u8,
    base: usize,
    w: &mut [f64],
) -> Option<epoch_record::Epoch>
    ensures { Tried (model_of model.entry) (observation t observed good) base found w.old w.new result }
{
    let found = found?;
    if base <= w.len() && is_kept(good, model.field_times, t) {
        return Some(make(model, found, t, observed, base, w));
    }
    None
}

fn prepare(degree: usize, front: &mut [f64])
    ensures { front.new ≡ prepared degree (cleared front.old) }
{
    slices::clear(front);
    fields::kernel::prepare(degree, front);
}

// Makes the first `base` numbers of a work slice usable for any time.
pub fn open(degree: usize, base: usize, w: &mut [f64])
    ensures { Opened degree base w.old w.new }
{
    if base <= w.len() {
        prepare(degree, &mut w[0..base]);
    }
}
