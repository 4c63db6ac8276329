// Replays the oracle's list of elementary numbers: each call is its number and its arguments, a word a line.
#![tactic(auto)]

use replay::Said;

fn sine_cosine() {
    let both = numbers::sine_cosine(replay::float());
    both.sine.say();
    both.cosine.say();
}

fn arctangent() {
    let y = replay::float();
    let x = replay::float();
    numbers::arctangent(y, x).say();
}

fn power() {
    let a = replay::float();
    let n = replay::number();
    let c = replay::float();
    if let Ok(n) = u32::try_from(n) {
        numbers::carried(a, n, c).say();
    }
}

fn answer(call: u64) {
    match call {
        0 => root::root(replay::float()).say(),
        1 => numbers::sine(replay::float()).say(),
        2 => numbers::cosine(replay::float()).say(),
        3 => sine_cosine(),
        4 => arctangent(),
        5 => numbers::arcsine(replay::float()).say(),
        6 => power(),
        _ => numbers::is_finite(replay::float()).say(),
    }
}

fn main() {
    for call in replay::each_call() {
        answer(call);
    }
}
