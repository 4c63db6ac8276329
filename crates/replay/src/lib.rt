// What the replaying programs share. A replay reads standard input and writes standard output as lines of 17 bytes: 16
// uppercase hexadecimal digits, most significant first, and a line feed. A line is one u64: a count or a number as
// itself, a key in two's complement, a double by its bits. A NaN is printed as 7FF8000000000000, and each pattern of a
// NaN is read as one. The expected output is the oracle's answers in the same form (oracle/README.md). Where the input
// ends, or a line is malformed, there is no more to read.
#![tactic(auto)]

ghost use Rattle.std.specs.Prelude.{◌≡◌, ◌≤◌, ℕ, nat_eq, length, take, drop};
ghost use Rattle.std.specs.Float.{binary64};
ghost use Rattle.std.specs.Float.Ieee.{to_bits};
ghost use Rattle.std.specs.Int.{w64};
ghost use Rattle.std.proofs.Common.{to_z, of_z};
ghost use Rattle.std.specs.List.{list_all};
ghost use Rattle.std.specs.Iterator.{at_most};

use slices::Refusal;

// The word of the next line.
pub fn next() -> Option<u64> {
    let mut line = [0u8; 17];
    if io::read_full(0, &mut line) < 17 || line[16] != b'\n' {
        return None;
    }
    hexadecimal::word(&line, 0)
}

// The calls of a list by their numbers, until it ends. No list has more than `left` of them.
#[derive(Drop)]
pub struct Calls {
    pub left: u32,
}

impl Iterator for Calls {
    type Item = u64;

    ghost remaining = { λ calls. at_most calls.left };

    fn next(&mut self) -> Option<u64> {
        self.left = self.left.checked_sub(1)?;
        next()
    }
}

// kept: each program has its own loop over these: a function that runs it would be handed the answer, and would have to ask that it may be called.
pub fn each_call() -> Calls
    ensures { result.left ≡ 100000 }
{
    Calls { left: 100000 }
}

// What one word says.
pub trait Word: Copy {
    ghost word_of: { Self → ℕ };

    // The value of the next word, and of 0 where there is none.
    fn read() -> Self;

    fn word(self) -> u64
        ensures { result ≡ word_of self };
}

impl Word for u64 {
    ghost word_of = { λ n. n };

    fn read() -> u64 {
        next().unwrap_or(0)
    }

    fn word(self) -> u64 {
        self
    }
}

impl Word for usize {
    ghost word_of = { λ n. n };

    fn read() -> usize {
        number() as usize
    }

    fn word(self) -> u64 {
        self as u64
    }
}

// 255 for all words above.
impl Word for u8 {
    ghost word_of = { λ n. n };

    fn read() -> u8 {
        number().min(255) as u8
    }

    fn word(self) -> u64 {
        u64::from(self)
    }
}

impl Word for i64 {
    ghost word_of = { λ k. of_z w64 k };

    fn read() -> i64 {
        signed(number())
    }

    fn word(self) -> u64 {
        unsigned(self)
    }
}

// Each NaN has the word 7FF8000000000000.
impl Word for f64 {
    ghost word_of = { λ x. to_bits binary64 x };

    fn read() -> f64 {
        hexadecimal::float(number())
    }

    fn word(self) -> u64 {
        hexadecimal::pattern(self)
    }
}

// The next word, 0 where there is none.
pub fn number() -> u64 {
    u64::read()
}

// The next double, +0.0 where there is none.
pub fn float() -> f64 {
    f64::read()
}

// The next word as a byte, 255 for all above.
pub fn byte() -> u8 {
    u8::read()
}

// The next word, at most the limit.
pub fn count(limit: usize) -> usize
    ensures { result ≤ limit }
{
    usize::read().min(limit)
}

// A word read as two's complement.
pub fn signed(bits: u64) -> i64
    ensures { result ≡ to_z w64 bits }
{
    bits.cast_signed()
}

// A key as a word, in two's complement.
pub fn unsigned(key: i64) -> u64
    ensures { result ≡ of_z w64 key }
{
    key.cast_unsigned()
}

// The next words in the first count places; what stands after them is kept.
pub fn fill<T: Word>(out: &mut [T], count: usize)
    ensures { drop count out.new ≡ drop count out.old }
{
    let n = count.min(out.len());
    for place in out[..n].iter_mut() {
        *place = T::read();
    }
}

// A list: its length, how many of its numbers are given, and these; the others are as they stand in the room.
pub fn list<'a, T: Word>(room: &'a mut [T]) -> &'a [T]
    ensures { length result.now ≤ length room.old }
{
    let n = count(room.len());
    let given = count(room.len());
    fill(room, given);
    &room[..n]
}

// A list whose numbers are all given: its length, and they.
pub fn full_list<'a, T: Word>(room: &'a mut [T]) -> &'a [T]
    ensures { length result.now ≤ length room.old }
{
    let n = count(room.len());
    fill(room, n);
    &room[..n]
}

// The first places of a room, as many as the next word says: an output or a scratch of that length.
pub fn front<'a, T>(room: &'a mut [T]) -> &'a mut [T]
    ensures { result.now ≡ take (length result.now) room.old }
{
    let n = count(room.len());
    &mut room[..n]
}

// What is written as lines.
// kept: `say`, not `Display`: a line is a word of 16 digits, which `hexadecimal::put_word` writes with a promise; `Display` promises none.
pub trait Said {
    fn say(&self);
}

impl Said for u64 {
    fn say(&self) {
        let mut line = [b'\n'; 17];
        hexadecimal::put_word(*self, &mut line, 0);
        io::write_all(1, &line);
    }
}

impl Said for usize {
    fn say(&self) {
        say(self.word());
    }
}

impl Said for i64 {
    fn say(&self) {
        say(self.word());
    }
}

impl Said for f64 {
    fn say(&self) {
        say(self.word());
    }
}

impl Said for bool {
    fn say(&self) {
        say(u64::from(*self));
    }
}

// Nothing beside the 0 of acceptance.
impl Said for () {
    fn say(&self) {}
}

// The refusal's number.
impl Said for Refusal {
    fn say(&self) {
        say(u64::from(u8::from(*self)));
    }
}

// 0 and the value, or the refusal's number.
impl<T: Said> Said for Result<T, Refusal> {
    fn say(&self) {
        match self {
            Ok(value) => {
                say(0);
                value.say();
            }
            Err(refusal) => refusal.say(),
        }
    }
}

// 1 and the value, or 0.
impl<T: Said> Said for Option<T> {
    fn say(&self) {
        match self {
            Some(value) => {
                say(1);
                value.say();
            }
            None => say(0),
        }
    }
}

impl<T: Said, const N: usize> Said for [T; N] {
    fn say(&self) {
        say_all(self);
    }
}

// Writes a word as a line.
pub fn say(value: u64) {
    value.say();
}

pub fn say_float(x: f64) {
    x.say();
}

pub fn say_all<T: Said>(values: &[T]) {
    for value in values {
        value.say();
    }
}

// Writes 0 and the count, or the refusal's number and 0.
// kept: without a contract, as all here that writes: no clause can say what was written.
pub fn say_counted(answer: Result<usize, Refusal>) {
    match answer {
        Ok(count) => {
            say(0);
            count.say();
        }
        Err(refusal) => {
            refusal.say();
            say(0);
        }
    }
}

// Whether each value has this word.
fn all_are<T: Word>(values: &[T], word: u64) -> bool
    ensures { result ≡ list_all (λ x. nat_eq (T.word_of x) word) values.now }
{
    values.iter().all(|x| x.word() == word)
}

// Writes 0 where each value has the word 0, 1 where each is the one that stood there, and 2 otherwise.
pub fn say_left<T: Word>(values: &[T], stood: T) {
    if all_are(values, 0) {
        say(0);
    } else if all_are(values, stood.word()) {
        say(1);
    } else {
        say(2);
    }
}

// Writes every so many numbers, by the count of those between.
pub fn say_some<T: Said>(values: &[T], between: u64) {
    let mut left = 0;
    for value in values {
        if left == 0 {
            value.say();
            left = between;
        } else {
            left -= 1;
        }
    }
}
