// The time-variable gravity model (module 3 of document 01): the static field with each added field, blended linearly in time.
#![tactic(auto)]

pub mod kernel;

ghost use Rattle.std.specs.Prelude.{◌≡◌, [], ◌∷◌, ◌+◌, ◌≤◌, length};
ghost use Rattle.laws.specs.Tables.{tri};
ghost use Rattle.slices.specs.Calls.{left};
ghost use Rattle.inputs.specs.Lent.{model_of};
ghost use Rattle.fields.specs.Calls.{handed_two};
ghost use Rattle.model.specs.Field.{sines as sines_from};
ghost use Rattle.model.specs.Model.{kind_at};
ghost use Rattle.model.specs.Calls.{times_fine, cover_refusal, cover_call, values_fine, at_refusal, KindRoom, at_work, at_call};

use fields;
use slices;
use slices::Refusal;

// ---- what is refused

#[tactic(auto, unfolding(crate::specs::Calls::times_fine))]
fn times_fine(times: &[f64], t: f64) -> bool
    ensures { result ≡ times_fine times.now t }
{
    slices::all_times(times) && slices::is_time(t)
}

#[tactic(auto, unfolding(crate::specs::Calls::values_fine))]
fn values_fine(field: &[f64], added: &[f64]) -> bool
    ensures { result ≡ values_fine field.now added.now }
{
    slices::all_finite(field) && slices::all_finite(added)
}

#[tactic(auto, unfolding(crate::specs::Calls::cover_refusal))]
fn cover_refusal(times: &[f64], t: f64) -> Result<(), Refusal>
    ensures { result ≡ cover_refusal times.now t }
{
    slices::tested(inputs::fields_fine(times.len()), Refusal::Count)?;
    slices::tested(times_fine(times, t), Refusal::Value)?;
    slices::tested(slices::rising(times), Refusal::Order)?;
    Ok(())
}

// The outputs have the lengths that `inputs::lengths_fit` asks of the tables, which are not read.
#[tactic(auto, unfolding(crate::specs::Calls::at_refusal))]
fn at_refusal(
    model: inputs::Model<'_>,
    t: f64,
    cosines: usize,
    sines: usize,
    scratch: usize,
) -> Result<(), Refusal>
    ensures { result ≡ at_refusal (model_of model.entry) t cosines sines scratch }
{
    let fields = model.field_times.len();
    let lengths = inputs::lengths_fit(
        model.degree,
        fields,
        model.static_field.len(),
        model.added.len(),
        cosines,
        sines,
        scratch,
    );
    let values = values_fine(model.static_field, model.added) && times_fine(model.field_times, t);
    inputs::first_of(
        inputs::degree_fine(model.degree),
        inputs::fields_fine(fields),
        lengths,
        values,
        slices::rising(model.field_times),
        Ok(()),
    )
}

// ---- the work

// A model of whole fields: the static field and one for each of two times or more, as long as its degree asks.
#[derive(Clone, Copy)]
struct Whole<'a> {
    model: inputs::Model<'a>,
    ghost room: { KindRoom (model_of model) },
}

// kept: `t` beside the model: one model is asked at many times, so a struct of both would be made for each call and taken apart in it.
impl<'a> Whole<'a> {
    // The coefficients of one kind at t.
    fn kind_at(self, kind: kernel::Kind, t: f64, out: &mut [f64])
        requires same_degree { kind.degree ≡ self.model.degree }
        requires room { length out.old ≡ tri (self.model.degree + 1) }
        ensures { out.new ≡ kind_at kind.start (model_of self.entry.model) t }
    {
        let model = self.model;
        let j = kernel::bracket(model.field_times, t);
        let w = kernel::weight(model.field_times, t, j);
        kind.blend(model.static_field, model.added, w, j, out);
    }

    fn both_at(self, t: f64, cosines: &mut [f64], sines: &mut [f64]) -> Result<(), Refusal>
        requires cosine_room { length cosines.old ≡ tri (self.model.degree + 1) }
        requires sine_room { length sines.old ≡ tri (self.model.degree + 1) }
        ensures { left result (cosines.new ∷ sines.new ∷ []) [] ≡ handed_two (kind_at 2 (model_of self.entry.model) t)
            (kind_at (sines_from self.entry.model.degree) (model_of self.entry.model) t) }
    {
        let degree = self.model.degree;
        let cosine = kernel::Kind { degree, start: 2 };
        let sine = kernel::Kind {
            degree,
            start: 2 + inputs::places(degree),
        };
        self.kind_at(cosine, t, cosines);
        self.kind_at(sine, t, sines);
        fields::hand_two(cosines, sines)
    }

    // The field at t, where it is covered.
    fn work(self, t: f64, cosines: &mut [f64], sines: &mut [f64]) -> Result<(), Refusal>
        requires cosine_room { length cosines.old ≡ tri (self.model.degree + 1) }
        requires sine_room { length sines.old ≡ tri (self.model.degree + 1) }
        ensures { left result (cosines.new ∷ sines.new ∷ []) [] ≡ at_work (model_of self.entry.model) t cosines.old sines.old }
    {
        if kernel::covers(self.model.field_times, t) {
            return self.both_at(t, cosines, sines);
        }
        slices::clear(cosines);
        slices::clear(sines);
        Err(Refusal::Uncovered)
    }
}

// ---- the calls

// Whether the model covers t: first field time ≤ t < last.
pub fn covers(times: &[f64], t: f64) -> Result<bool, Refusal>
    ensures { result ≡ cover_call times.now t }
{
    cover_refusal(times, t)?;
    Ok(kernel::covers(times, t))
}

// The field at t: the static field with the added fields on both sides of t, blended. The Legendre tables are not read.
pub fn at(
    model: inputs::Model<'_>,
    t: f64,
    cosines: &mut [f64],
    sines: &mut [f64],
    scratch: &mut [f64],
) -> Result<(), Refusal>
    ensures { left result (cosines.new ∷ sines.new ∷ []) scratch.new ≡ at_call (model_of model.entry) t
        cosines.old sines.old scratch.old }
{
    at_refusal(model, t, cosines.len(), sines.len(), scratch.len())?;
    slices::clear(scratch);
    let whole = Whole { model };
    whole.work(t, cosines, sines)
}
