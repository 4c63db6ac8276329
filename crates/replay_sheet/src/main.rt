// Replays the oracle's list of the whole path: each call is its number and its arguments, a word a line. A slice is its length, how many of its numbers
// are given, and these; the others are 0. Outputs stand at 3.0 and scratch at 7.0 before a call.
#![tactic(auto)]

ghost use Rattle.std.specs.Prelude.{◌≤◌, ◌-◌, length};

use inputs::{Inputs, Keyed, Model, Observed, Pair, Submission};
use replay::{Said, Word};

// How many keys there are from a place on, as in replay::list.
fn key_list(out: &mut [i64], from: usize) -> usize
    ensures { result ≤ length out.new - from }
{
    let end = out.len();
    if from > end {
        return 0;
    }
    let n = replay::count(end - from);
    let given = replay::count(end - from);
    replay::fill(&mut out[from..end], given);
    n
}

// A part of a list, empty where the list does not reach.
fn part(all: &[i64], from: usize, to: usize) -> &[i64] {
    all.get(from..to).unwrap_or(&[])
}

// The keys of C and those of D, which stand in one array, as each list may be long.
#[derive(Clone, Copy)]
struct Keys<'a> {
    c: &'a [i64],
    d: &'a [i64],
}

fn key_lists<'a>(room: &'a mut [i64]) -> Keys<'a> {
    let first = key_list(room, 0);
    let more = key_list(room, first);
    let both = first.saturating_add(more);
    Keys {
        c: part(room, 0, first),
        d: part(room, first, both),
    }
}

// The kept entries, and what is left after them.
fn say_column(values: &[f64], kept: usize) {
    let (entries, rest) = values.split_at(kept.min(values.len()));
    replay::say_all(entries);
    replay::say_left(rest, 3.0);
}

// The refusal's number, the kept count and F, the four outputs and what is left in the scratch; the lengths of these come next.
fn sheet(submission: Submission<'_>) {
    let mut t = [3.0; 1000];
    let mut x = [3.0; 1000];
    let mut y = [3.0; 1000];
    let mut z = [3.0; 1000];
    let mut w = [7.0; 310000];
    let times = replay::front(&mut t);
    let raws = replay::front(&mut x);
    let detrended = replay::front(&mut y);
    let passed = replay::front(&mut z);
    let scratch = replay::front(&mut w);
    let answer = sheet::sheet(submission, times, raws, detrended, passed, scratch);
    answer.map(|_| ()).say();
    let (kept, finals) = answer.map_or((0, 0), |counts| (counts.kept, counts.finals));
    kept.say();
    finals.say();
    say_column(times, kept);
    say_column(raws, kept);
    say_column(detrended, kept);
    say_column(passed, kept);
    replay::say_left(scratch, 7.0);
}

// The nodes and the observations come next.
fn observed(inputs: Inputs<'_>) {
    let mut n = [0.0; 70];
    let mut t = [0.0; 100010];
    let mut v = [0.0; 1000];
    let mut g = [0u8; 1000];
    sheet(Submission {
        inputs,
        nodes: replay::list(&mut n),
        observed: Observed {
            times: replay::list(&mut t),
            values: replay::list(&mut v),
            good: replay::list(&mut g),
        },
    });
}

// The numbers behind the keys come next, those of the states first.
fn with_values(model: Model<'_>, states: Keys<'_>, accs: Keys<'_>) {
    let mut cs = [0.0; 6000];
    let mut ds = [0.0; 6000];
    let mut av = [0.0; 1000];
    let mut bv = [0.0; 1000];
    let states = Pair {
        c: Keyed {
            keys: states.c,
            values: replay::list(&mut cs),
        },
        d: Keyed {
            keys: states.d,
            values: replay::list(&mut ds),
        },
    };
    let accs = Pair {
        c: Keyed {
            keys: accs.c,
            values: replay::list(&mut av),
        },
        d: Keyed {
            keys: accs.d,
            values: replay::list(&mut bv),
        },
    };
    observed(Inputs {
        model,
        states,
        accs,
    });
}

// The keys of the states come next, and then those of the accelerometer values.
fn with_keys(model: Model<'_>) {
    let mut states = [0i64; 202000];
    let mut accs = [0i64; 202000];
    with_values(model, key_lists(&mut states), key_lists(&mut accs));
}

// All lists but nodes and observations come next.
fn answer() {
    let mut f = [0.0; 200];
    let mut x = [0.0; 100];
    let mut y = [0.0; 100];
    let mut t = [0.0; 40];
    let mut g = [0.0; 1200];
    with_keys(Model {
        degree: usize::read(),
        static_field: replay::list(&mut f),
        table_a: replay::list(&mut x),
        table_b: replay::list(&mut y),
        field_times: replay::list(&mut t),
        added: replay::list(&mut g),
    });
}

fn main() {
    for _ in replay::each_call() {
        answer();
    }
}
