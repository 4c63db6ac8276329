// The lists that the calls of modules 3 to 5 and the whole path are lent, and the tests of them.
#![tactic(auto)]

ghost use Rattle.std.specs.Prelude.{◌≡◌, ◌&&◌, ℕ, Err, ◌+◌, ◌-◌, ◌*◌, ◌≤◌, ◌<◌, length, leb, eqb};
ghost use Rattle.laws.specs.Checks.{degree_fine};
ghost use Rattle.slices.specs.Answers.{number_of};
ghost use Rattle.slices.specs.declared.refusal.Refusal.{Refusal};
ghost use Rattle.inputs.specs.Inputs.{field_size, first_said, fields_fine, counts_fine, model_fits, states_fit, tables_fit, front_size, least_scratch};
ghost use Rattle.inputs.specs.Inputs.{scratch_fits, lengths_fit, whole_scratch_fits, keyed_fine, rise, window_room, kind};

use slices::Refusal;

pub mod lent;

pub use lent::{Inputs, Keyed, Model, Observed, Pair, Submission};

// The numbers of one fit's work.
pub const FIT_ROOM: usize = 150_000;

// The numbers of a slot, one window of one satellite.
pub const SLOT_ROOM: usize = 24_600;

// Those of a pair of neighbouring nodes, which has a slot for each satellite.
pub const WINDOW_ROOM: usize = 2 * SLOT_ROOM;

// Places for the coefficients of one kind; none for a degree above 180.
pub fn places(degree: usize) -> usize
    ensures { (degree ≤ 180 → result ≡ kind degree) × (result ≤ 16471) × (180 < degree → result ≡ 0) }
{
    if degree <= 180 {
        numbers::triangle(degree + 1)
    } else {
        0
    }
}

pub fn degree_fine(degree: usize) -> bool
    ensures { result ≡ degree_fine degree }
{
    2 <= degree && degree <= 180
}

// What a call may answer: each refusal, and what else it says.
pub trait Outcome: Copy {
    ghost refused_by: { Refusal → Self };

    fn refused(refusal: Refusal) -> Self
        ensures { result ≡ refused_by refusal };
}

impl Outcome for Result<(), Refusal> {
    ghost refused_by = { Err };

    fn refused(refusal: Refusal) -> Self {
        Err(refusal)
    }
}

// Document 01's number of a refusal, where any other number says something else.
impl Outcome for u8 {
    ghost refused_by = { number_of };

    fn refused(refusal: Refusal) -> Self {
        u8::from(refusal)
    }
}

// What is said of the first test that fails; `rest` is what the tests behind these say.
pub fn first_of<A: Outcome>(
    degree: bool,
    counts: bool,
    lengths: bool,
    values: bool,
    order: bool,
    rest: A,
) -> A
    ensures { result ≡ first_said A.refused_by degree counts lengths values order rest }
{
    if !degree {
        A::refused(Refusal::Degree)
    } else if !counts {
        A::refused(Refusal::Count)
    } else if !lengths {
        A::refused(Refusal::Length)
    } else if !values {
        A::refused(Refusal::Value)
    } else if !order {
        A::refused(Refusal::Order)
    } else {
        rest
    }
}

// How many numbers stand before a run's states; none for a degree above 180.
pub fn front_size(degree: usize) -> usize
    ensures { (degree ≤ 180 → result ≡ front_size degree) × (result ≤ 131768) × (180 < degree → result ≡ 0) }
{
    8 * places(degree)
}

pub fn fields_fine(fields: usize) -> bool
    ensures { result ≡ fields_fine fields }
{
    2 <= fields && fields <= 32
}

// Counts of fields, states and accelerometer values.
#[tactic(auto, unfolding(crate::specs::Inputs::counts_fine))]
pub fn counts_fine(fields: usize, c: usize, d: usize, cacc: usize, dacc: usize) -> bool
    ensures { result ≡ counts_fine fields c d cacc dacc }
{
    fields_fine(fields) && ((c <= 200000 && d <= 200000) && (cacc <= 200000 && dacc <= 200000))
}

// A degree and a number of added fields, both within their bounds.
#[derive(Clone, Copy)]
struct Size {
    degree: usize,
    fields: usize,
    ghost within: { degree ≤ 180 },
    ghost few: { fields ≤ 32 },
}

impl Size {
    // Whether the static field, the added fields and the Legendre tables have the lengths that these ask for.
    fn lists_fit(self, field: usize, added: usize, a: usize, b: usize) -> bool
        ensures { result ≡ (eqb field (field_size self.degree) && eqb added (self.fields * field_size self.degree))
            && (eqb a (kind self.degree) && eqb b (kind self.degree)) }
    {
        let l = places(self.degree);
        let one = 2 + 2 * l;
        let all = self.fields * one;
        (field == one && added == all) && (a == l && b == l)
    }

    fn least_scratch(self, count: usize) -> usize
        requires { count ≤ 100000 }
        ensures { (result ≡ least_scratch self.degree self.fields count) × (result ≤ 4000000) }
    {
        let l = places(self.degree);
        2 * (self.fields * l) + 8 * l + FIT_ROOM + 10 * count
    }

    // That of the whole path.
    fn whole_scratch(self, nodes: usize, count: usize) -> usize
        requires { (nodes ≤ 64) × (count ≤ 100000) }
        ensures { result ≡ least_scratch self.degree self.fields count + window_room * (nodes - 1) }
    {
        self.least_scratch(count) + WINDOW_ROOM * nodes.saturating_sub(1)
    }
}

// Lengths of the static field, the added fields and the Legendre tables.
#[tactic(auto, unfolding(crate::specs::Inputs::model_fits))]
pub fn model_fits(
    degree: usize,
    fields: usize,
    field: usize,
    added: usize,
    a: usize,
    b: usize,
) -> bool
    ensures { result ≡ model_fits degree fields field added a b }
{
    degree <= 180 && (fields <= 32 && Size { degree, fields }.lists_fit(field, added, a, b))
}

// Six numbers for each of n states.
#[tactic(auto, unfolding(crate::specs::Inputs::states_fit))]
pub fn states_fit(n: usize, values: usize) -> bool
    ensures { result ≡ states_fit n values }
{
    n <= 200000 && values == 6 * n
}

// Lengths of the states and accelerometer values, each beside its count.
#[tactic(auto, unfolding(crate::specs::Inputs::tables_fit))]
pub fn tables_fit(
    c: usize,
    cstates: usize,
    d: usize,
    dstates: usize,
    cacc: usize,
    caccs: usize,
    dacc: usize,
    daccs: usize,
) -> bool
    ensures { result ≡ tables_fit c cstates d dstates cacc caccs dacc daccs }
{
    (states_fit(c, cstates) && states_fit(d, dstates)) && (caccs == cacc && daccs == dacc)
}

#[tactic(auto, unfolding(crate::specs::Inputs::scratch_fits))]
pub fn scratch_fits(degree: usize, fields: usize, count: usize, scratch: usize) -> bool
    ensures { result ≡ scratch_fits degree fields count scratch }
{
    degree <= 180
        && (fields <= 32
            && (count <= 100000 && Size { degree, fields }.least_scratch(count) <= scratch))
}

// Lengths of the model's slices and of the scratch, for a call on the model alone.
#[tactic(auto, unfolding(crate::specs::Inputs::lengths_fit))]
pub fn lengths_fit(
    degree: usize,
    fields: usize,
    field: usize,
    added: usize,
    a: usize,
    b: usize,
    scratch: usize,
) -> bool
    ensures { result ≡ lengths_fit degree fields field added a b scratch }
{
    model_fits(degree, fields, field, added, a, b) && scratch_fits(degree, fields, 0, scratch)
}

// The scratch of the whole path.
#[tactic(auto, unfolding(crate::specs::Inputs::whole_scratch_fits))]
pub fn whole_scratch_fits(
    degree: usize,
    fields: usize,
    nodes: usize,
    count: usize,
    scratch: usize,
) -> bool
    ensures { result ≡ whole_scratch_fits degree fields nodes count scratch }
{
    degree <= 180
        && (fields <= 32
            && (nodes <= 64
                && (count <= 100000
                    && Size { degree, fields }.whole_scratch(nodes, count) <= scratch)))
}

#[tactic(auto, unfolding(crate::specs::Inputs::keyed_fine))]
pub fn keyed_fine(keys: &[i64], values: &[f64]) -> bool
    ensures { result ≡ keyed_fine keys.now values.now }
{
    slices::all_keys(keys) && slices::all_finite(values)
}
