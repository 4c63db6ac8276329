// Replays the oracle's list of the filter: each call is its number and its arguments, a word a line. A slice is its length, how many values are given, and
// these; behind them stands +0.0. An output or a scratch is its length alone, and 7.0 stands in each place. A call's answer is its refusal or 0, what it
// handed out or else the state of the output, and the state of the scratch.
#![tactic(auto)]

use replay::{Said, Word};
use slices::Refusal;

// What the call handed out, or the state of the output after a refusal; and the state of the scratch.
fn say_answer(answer: Result<(), Refusal>, out: &[f64], scratch: &[f64]) {
    answer.say();
    match answer {
        Ok(()) => replay::say_all(out),
        Err(_) => replay::say_left(out, 7.0),
    }
    replay::say_left(scratch, 7.0);
}

// After a refusal the sections are told as +0.0.
fn band() {
    let low = replay::float();
    let high = replay::float();
    let dt = replay::float();
    let answer = filter::butterworth_band(low, high, dt);
    answer.map(|_| ()).say();
    answer.unwrap_or([0.0; 20]).say();
}

// The samples that were given are told in any case.
fn run() {
    let mut s = [0.0; 100001];
    let mut x = [0.0; 100001];
    let mut w = [7.0; 16384];
    let sections = replay::list(&mut s);
    let n = replay::count(100001);
    let given = replay::count(n);
    replay::fill(&mut x, given);
    let scratch = replay::front(&mut w);
    let samples = &mut x[..n];
    filter::run(sections, samples, scratch).say();
    replay::say_all(&samples[..given]);
    replay::say_left(scratch, 7.0);
}

fn filtfilt() {
    let mut s = [0.0; 100001];
    let mut v = [0.0; 100001];
    let mut y = [7.0; 2000];
    let mut w = [7.0; 16384];
    let sections = replay::list(&mut s);
    let x = replay::list(&mut v);
    let pad = usize::read();
    let out = replay::front(&mut y);
    let scratch = replay::front(&mut w);
    let answer = filter::filtfilt(sections, x, pad, out, scratch);
    say_answer(answer, out, scratch);
}

fn band_pass() {
    let mut t = [0.0; 100001];
    let mut v = [0.0; 100001];
    let mut y = [7.0; 2000];
    let mut w = [7.0; 16384];
    let times = replay::list(&mut t);
    let x = replay::list(&mut v);
    let out = replay::front(&mut y);
    let scratch = replay::front(&mut w);
    let answer = filter::band_pass(times, x, out, scratch);
    say_answer(answer, out, scratch);
}

fn answer(call: u64) {
    match call {
        0 => band(),
        1 => run(),
        2 => filtfilt(),
        _ => band_pass(),
    }
}

fn main() {
    for call in replay::each_call() {
        answer(call);
    }
}
