//! The lines of a trace.
ghost use Rattle.std.specs.Prelude.{◌≡◌};
ghost use Rattle.bw_text.specs.Words.{words};
ghost use Rattle.dispatch.specs.Input.{seen, number_in, number_at, is_over, one_number};
ghost use Rattle.dispatch.specs.Input.{last_or_zero, leaf_numbers};
ghost use Rattle.dispatch.specs.Input.{two_numbers, three_numbers, input_of, remains_in};
ghost use Rattle.dispatch.specs.Input.{step_of, rare_step};

use crate::fault::InputFault;
use crate::reservation::Step;
use bw_text::{next_word, read_number};

/// A line of a trace.
#[derive(Clone, Copy, Debug, PartialEq)]
pub enum Input {
    /// `processors P` makes P processors.
    Processors(u64),
    /// `slice NS` sets the slice in nanoseconds.
    Slice(u64),
    /// `terms QUANTUM SLACK CREDIT` sets these, in nanoseconds.
    Terms {
        quantum: u64,
        slack: u64,
        credit: u64,
    },
    /// `leaf ID AMOUNT GUARANTEE` adds a leaf. The numbers of leaves are 0, 1, 2 and so on. A
    /// guarantee is in 2^-20 of a processor, and 0 if it is not there. `member` in the place of
    /// `leaf` adds one inside the group with a limit.
    Leaf {
        leaf: u64,
        amount: u64,
        guarantee: u64,
        is_inside: bool,
    },
    /// `group LIMIT BURST` makes the group with a limit, in nanoseconds.
    Group {
        limit: u64,
        burst: u64,
    },
    /// `pass NS`, `wake ID N`, `pick CPU ID`, `end CPU USED REMAINS`, `level`,
    /// `give ID AMOUNT GUARANTEE`, `leave ID`, `cut ID`, `stop ID STOPS` or `refill`.
    Event(Step),
}

fn number_in(word: &[u8]) -> Result<u64, InputFault>
    ensures { result ≡ number_in word.now }
{
    match read_number(word) {
        Ok(n) => Ok(n),
        Err(_) => Err(InputFault::BadNumber),
    }
}

// The first word as a number, and the text after it.
fn take_number(text: &[u8]) -> Result<(u64, &[u8]), InputFault>
    ensures { seen (λ p. (p.0, words p.1.now)) result ≡ number_at (words text.now) }
{
    let Some((word, rest)) = next_word(text) else {
        return Err(InputFault::BadLine);
    };
    let n = number_in(word)?;
    Ok((n, rest))
}

// Refuses a text that has a word.
fn is_over(text: &[u8]) -> Result<(), InputFault>
    ensures { result ≡ is_over (words text.now) }
{
    match next_word(text) {
        None => Ok(()),
        Some(_) => Err(InputFault::BadLine),
    }
}

fn one_number(text: &[u8]) -> Result<u64, InputFault>
    ensures { result ≡ one_number (words text.now) }
{
    let (n, rest) = take_number(text)?;
    is_over(rest)?;
    Ok(n)
}

fn two_numbers(text: &[u8]) -> Result<(u64, u64), InputFault>
    ensures { result ≡ two_numbers (words text.now) }
{
    let (one, rest) = take_number(text)?;
    let (two, rest) = take_number(rest)?;
    is_over(rest)?;
    Ok((one, two))
}

fn three_numbers(text: &[u8]) -> Result<(u64, u64, u64), InputFault>
    ensures { result ≡ three_numbers (words text.now) }
{
    let (one, rest) = take_number(text)?;
    let (two, rest) = take_number(rest)?;
    let (three, rest) = take_number(rest)?;
    is_over(rest)?;
    Ok((one, two, three))
}

// The only word as a number, or 0 if there is none.
fn last_or_zero(text: &[u8]) -> Result<u64, InputFault>
    ensures { result ≡ last_or_zero (words text.now) }
{
    match next_word(text) {
        None => Ok(0),
        Some(_) => one_number(text),
    }
}

// Number, amount and guarantee of a leaf.
fn leaf_numbers(text: &[u8]) -> Result<(u64, u64, u64), InputFault>
    ensures { result ≡ leaf_numbers (words text.now) }
{
    let (leaf, rest) = take_number(text)?;
    let (amount, rest) = take_number(rest)?;
    let guarantee = last_or_zero(rest)?;
    Ok((leaf, amount, guarantee))
}

// Whether the task waits again, or the limit stops the leaf: 1 or 0.
fn remains_in(n: u64) -> Result<bool, InputFault>
    ensures { result ≡ remains_in n }
{
    match n {
        0 => Ok(false),
        1 => Ok(true),
        _ => Err(InputFault::BadField),
    }
}

// The event of a line, by its first word and the text behind it: one of a plan or a limit.
fn rare_step(verb: &[u8], rest: &[u8]) -> Result<Step, InputFault>
    ensures { result ≡ rare_step verb.now (words rest.now) }
{
    if verb == b"level".as_slice() {
        is_over(rest)?;
        return Ok(Step::Level);
    }
    if verb == b"give".as_slice() {
        let (leaf, amount, guarantee) = three_numbers(rest)?;
        return Ok(Step::Give {
            leaf,
            amount,
            guarantee,
        });
    }
    if verb == b"leave".as_slice() {
        return Ok(Step::Leave(one_number(rest)?));
    }
    if verb == b"cut".as_slice() {
        return Ok(Step::Cut(one_number(rest)?));
    }
    if verb == b"stop".as_slice() {
        let (leaf, stops) = two_numbers(rest)?;
        let stops = remains_in(stops)?;
        return Ok(Step::Stop { leaf, stops });
    }
    if verb == b"refill".as_slice() {
        is_over(rest)?;
        return Ok(Step::Refill);
    }
    Err(InputFault::BadLine)
}

// The event of a line, by its first word and the text behind it.
fn step_of(verb: &[u8], rest: &[u8]) -> Result<Step, InputFault>
    ensures { result ≡ step_of verb.now (words rest.now) }
{
    if verb == b"pass".as_slice() {
        return Ok(Step::Pass(one_number(rest)?));
    }
    if verb == b"wake".as_slice() {
        let (leaf, tasks) = two_numbers(rest)?;
        return Ok(Step::Wake { leaf, tasks });
    }
    if verb == b"pick".as_slice() {
        let (processor, leaf) = two_numbers(rest)?;
        return Ok(Step::Pick { processor, leaf });
    }
    if verb == b"end".as_slice() {
        let (processor, used, remains) = three_numbers(rest)?;
        let remains = remains_in(remains)?;
        return Ok(Step::End {
            processor,
            used,
            remains,
        });
    }
    rare_step(verb, rest)
}

// The leaf of these numbers.
fn leaf_of(is_inside: bool, numbers: (u64, u64, u64)) -> Input
    ensures { result ≡ Input.Leaf numbers.0 numbers.1 numbers.2 is_inside }
{
    let (leaf, amount, guarantee) = numbers;
    Input::Leaf {
        leaf,
        amount,
        guarantee,
        is_inside,
    }
}

impl Input {
    /// Reads a line without its newline.
    ///
    /// # Errors
    ///
    /// The first that applies, from the first word to the last:
    /// - [`InputFault::BadLine`] if the first word is none of these, or the words are too few.
    /// - [`InputFault::BadNumber`] if a word behind it is no number of 64 bits.
    /// - [`InputFault::BadLine`] if the words are too many.
    /// - [`InputFault::BadField`] if REMAINS is neither 0 nor 1.
    pub fn of_line(line: &[u8]) -> Result<Input, InputFault>
        ensures { result ≡ input_of (words line.now) }
    {
        let Some((verb, rest)) = next_word(line) else {
            return Err(InputFault::BadLine);
        };
        if verb == b"processors".as_slice() {
            return Ok(Input::Processors(one_number(rest)?));
        }
        if verb == b"slice".as_slice() {
            return Ok(Input::Slice(one_number(rest)?));
        }
        if verb == b"terms".as_slice() {
            let (quantum, slack, credit) = three_numbers(rest)?;
            return Ok(Input::Terms {
                quantum,
                slack,
                credit,
            });
        }
        if verb == b"leaf".as_slice() {
            return Ok(leaf_of(false, leaf_numbers(rest)?));
        }
        if verb == b"member".as_slice() {
            return Ok(leaf_of(true, leaf_numbers(rest)?));
        }
        if verb == b"group".as_slice() {
            let (limit, burst) = two_numbers(rest)?;
            return Ok(Input::Group { limit, burst });
        }
        Ok(Input::Event(step_of(verb, rest)?))
    }
}
