// The lists that C lends one by one, each with those that it comes with.
// kept: the five lists of `model` and the six of `tracks`, for the C interface lends each list alone.
ghost use Rattle.std.specs.Prelude.{◌≡◌, List, Float};
ghost use Rattle.horizon.specs.Calls.{given};
ghost use Rattle.horizon.specs.Lent.{given_in};
ghost use Rattle.inputs.specs.Inputs.{model_with, pair_with, observed_with};
ghost use Rattle.inputs.specs.Lent.{model_of, pair_of, observed_of};

use inputs::{Keyed, Model, Observed, Pair};

pub(crate) fn model<'a>(
    degree: usize,
    static_field: &'a [f64],
    table_a: &'a [f64],
    table_b: &'a [f64],
    field_times: &'a [f64],
    added: &'a [f64],
) -> Model<'a>
    ensures { model_of result ≡ model_with degree static_field.now table_a.now table_b.now field_times.now added.now }
{
    Model {
        degree,
        static_field,
        table_a,
        table_b,
        field_times,
        added,
    }
}

// C's keys and numbers, then D's.
pub(crate) fn pair<'a>(
    ckeys: &'a [i64],
    cvalues: &'a [f64],
    dkeys: &'a [i64],
    dvalues: &'a [f64],
) -> Pair<'a>
    ensures { pair_of result ≡ pair_with ckeys.now cvalues.now dkeys.now dvalues.now }
{
    Pair {
        c: Keyed {
            keys: ckeys,
            values: cvalues,
        },
        d: Keyed {
            keys: dkeys,
            values: dvalues,
        },
    }
}

pub(crate) fn observed<'a>(times: &'a [f64], values: &'a [f64], good: &'a [u8]) -> Observed<'a>
    ensures { observed_of result ≡ observed_with times.now values.now good.now }
{
    Observed {
        times,
        values,
        good,
    }
}

pub(crate) fn tracks<'a>(
    states_c: &'a [i64],
    states_d: &'a [i64],
    acc_c: &'a [i64],
    acc_d: &'a [i64],
    fields: &'a [f64],
    observed: &'a [f64],
) -> horizon::Tracks<'a>
    ensures { (nodes : List Float) → given_in nodes result ≡ given nodes states_c.now states_d.now acc_c.now acc_d.now fields.now observed.now }
{
    horizon::Tracks {
        states_c,
        states_d,
        acc_c,
        acc_d,
        fields,
        observed,
    }
}
