// Replays the oracle's list of module 5: each call is its number and its arguments, a word a line; a slice is preceded by
// its length. Scratch and outputs stand at 7.0 before a call.
#![tactic(auto)]

use epoch_record::Epoch;
use inputs::{Inputs, Keyed, Model, Observed, Pair};
use replay::Said;
use slices::Refusal;

// The refusal's number, whether it is kept, and the record, all +0.0 where none is kept.
fn say_answer(answer: Result<Option<Epoch>, Refusal>) {
    replay::say(match answer {
        Ok(_) => 0,
        Err(refusal) => u64::from(u8::from(refusal)),
    });
    let kept = answer.unwrap_or(None);
    kept.is_some().say();
    let none = Epoch {
        t: 0.0,
        residual: 0.0,
        terms: [0.0; 5],
        mid: [0.0; 3],
        vel: [0.0; 3],
    };
    let e = kept.unwrap_or(none);
    e.t.say();
    e.residual.say();
    e.terms.say();
    e.mid.say();
    e.vel.say();
}

// The time, the observed value and the good byte come next.
fn run_epoch(inputs: Inputs<'_>, scratch: &mut [f64]) {
    let t = replay::float();
    let observed = replay::float();
    let good = replay::byte();
    say_answer(residuals::epoch(inputs, t, observed, good, scratch));
    replay::say_left(scratch, 7.0);
}

// The observations' times, values and bytes come next, and then the lengths of the five outputs.
fn run_list(inputs: Inputs<'_>, scratch: &mut [f64]) {
    let mut t = [0.0; 20];
    let mut d = [0.0; 20];
    let mut g = [0u8; 20];
    let mut x = [7.0; 20];
    let mut y = [7.0; 20];
    let mut z = [[7.0; 5]; 20];
    let mut m = [[7.0; 3]; 20];
    let mut v = [[7.0; 3]; 20];
    let observed = Observed {
        times: replay::full_list(&mut t),
        values: replay::full_list(&mut d),
        good: replay::full_list(&mut g),
    };
    let times = replay::front(&mut x);
    let residuals = replay::front(&mut y);
    let terms = replay::front(&mut z);
    let mids = replay::front(&mut m);
    let vels = replay::front(&mut v);
    replay::say_counted(residuals::residuals(
        inputs, observed, times, residuals, terms, mids, vels, scratch,
    ));
    replay::say_all(times);
    replay::say_all(residuals);
    replay::say_all(terms);
    replay::say_all(mids);
    replay::say_all(vels);
    replay::say_left(scratch, 7.0);
}

// The length of the scratch comes next.
fn with_inputs(call: u64, inputs: Inputs<'_>) {
    let mut w = [7.0; 160000];
    let scratch = replay::front(&mut w);
    match call {
        0 => run_epoch(inputs, scratch),
        _ => run_list(inputs, scratch),
    }
}

fn keyed<'a>(keys: &'a mut [i64], values: &'a mut [f64]) -> Keyed<'a> {
    Keyed {
        keys: replay::full_list(keys),
        values: replay::full_list(values),
    }
}

// The states and the accelerometer values come next.
fn with_model(call: u64, model: Model<'_>) {
    let mut ck = [0i64; 32];
    let mut cs = [0.0; 200];
    let mut dk = [0i64; 32];
    let mut ds = [0.0; 200];
    let mut ak = [0i64; 32];
    let mut av = [0.0; 32];
    let mut bk = [0i64; 32];
    let mut bv = [0.0; 32];
    let states = Pair {
        c: keyed(&mut ck, &mut cs),
        d: keyed(&mut dk, &mut ds),
    };
    let accs = Pair {
        c: keyed(&mut ak, &mut av),
        d: keyed(&mut bk, &mut bv),
    };
    let inputs = Inputs {
        model,
        states,
        accs,
    };
    with_inputs(call, inputs);
}

// The model comes next.
fn answer(call: u64) {
    let mut f = [0.0; 80];
    let mut x = [0.0; 40];
    let mut y = [0.0; 40];
    let mut t = [0.0; 40];
    let mut g = [0.0; 700];
    let model = Model {
        degree: replay::count(1000000),
        static_field: replay::full_list(&mut f),
        table_a: replay::full_list(&mut x),
        table_b: replay::full_list(&mut y),
        field_times: replay::full_list(&mut t),
        added: replay::full_list(&mut g),
    };
    with_model(call, model);
}

fn main() {
    for call in replay::each_call() {
        answer(call);
    }
}
