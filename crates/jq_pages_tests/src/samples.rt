// Three sample folds.
ghost use Rattle.std.specs.Prelude.{◌≡◌, ℕ, true, false, IfOk};
ghost use Rattle.jv_data.specs.View.{view};
ghost use Rattle.jq_pages.specs.Pieces.{piece_view};
ghost use Rattle.jq_pages_tests.specs.private.Samples.{amount, compared, digit, digits, failure, halted, larger, largest, no_output, opening, sums, written};

use jq_pages::{Last, Piece, Steps};
use jv_data::{NoMemory, Val};
use std::alloc::Global;

fn amount_of(value: &Val) -> u64
    ensures { result ≡ amount (view value.now) }
{
    match value {
        Val::Num(n) => { if *n < 0 { 0 } else { n.unsigned_abs() } }
        _ => 0,
    }
}

#[tactic(auto, unfolding(jq_pages::specs::Pieces::piece_view))]
fn silence(alloc: Global) -> Piece
    ensures { piece_view result ≡ no_output }
{
    Piece {
        out: Vec::new(alloc),
        err: Vec::new(alloc),
        last: Last::Nothing,
        failed: false,
        halt: None,
    }
}

#[tactic(auto, unfolding(jq_pages::specs::Pieces::piece_view))]
fn last_digit(alloc: Global, n: u64) -> Result<Piece, NoMemory>
    ensures { IfOk result (λ p. piece_view p ≡ digit n) }
{
    let mut out = Vec::new(alloc);
    out.push(48 + (n % 10) as u8)?;
    Ok(Piece {
        out,
        err: Vec::new(alloc),
        last: Last::Truthy,
        failed: false,
        halt: None,
    })
}

// A number from 100 on is the status of a halt.
#[tactic(auto, unfolding(jq_pages::specs::Pieces::piece_view))]
fn halted_with(alloc: Global, n: u64) -> Piece
    ensures { piece_view result ≡ halted n }
{
    Piece {
        out: Vec::new(alloc),
        err: Vec::new(alloc),
        last: Last::Nothing,
        failed: false,
        halt: Some((n % 256) as u8),
    }
}

// What a value by itself writes.
fn written_by(alloc: Global, value: &Val) -> Result<Piece, NoMemory>
    ensures { IfOk result (λ p. piece_view p ≡ written (view value.now)) }
{
    match value {
        Val::Num(n) => {
            if *n < 0 {
                Ok(silence(alloc))
            } else if *n < 100 {
                last_digit(alloc, n.unsigned_abs())
            } else {
                Ok(halted_with(alloc, n.unsigned_abs()))
            }
        }
        _ => Ok(silence(alloc)),
    }
}

/// Adds up the inputs. The piece of an input is the last digit of the sum so far, and each step counts one.
#[derive(Drop)]
pub struct Sums {
    pub alloc: Global,
    pub count: u64,
}

impl Steps for Sums {
    type State = u64;

    ghost Seen = { ℕ };

    ghost seen = { λ s. s };

    ghost fold = { λ _. sums };

    ghost starts = { λ s. s.count };

    fn plain(&self) -> bool {
        false
    }

    fn count(&self) -> u64 {
        self.count
    }

    fn begin(&mut self) -> Result<(Piece, u64), NoMemory> {
        Ok((silence(self.alloc), 0))
    }

    fn step(&mut self, state: &u64, input: &Val) -> Result<(Piece, u64), NoMemory> {
        self.count = self.count.saturating_add(1);
        let next = state.wrapping_add(amount_of(input));
        Ok((last_digit(self.alloc, next)?, next))
    }

    fn close(&mut self, _state: &u64) -> Result<Piece, NoMemory> {
        Ok(silence(self.alloc))
    }

    fn meets(&self, one: &u64, other: &u64) -> bool {
        *one == *other
    }

    fn copy(&self, state: &u64) -> Result<u64, NoMemory> {
        Ok(*state)
    }
}

/// The piece of a number from 0 to 99 is its last digit, a larger number halts, and that of another value is empty. Each step counts
/// one.
#[derive(Drop)]
pub struct Digits {
    pub alloc: Global,
    pub count: u64,
}

impl Steps for Digits {
    type State = ();

    ghost Seen = { Unit {0} };

    ghost seen = { λ _. tt };

    ghost fold = { λ _. digits };

    ghost starts = { λ s. s.count };

    fn plain(&self) -> bool {
        true
    }

    fn count(&self) -> u64 {
        self.count
    }

    fn begin(&mut self) -> Result<(Piece, ()), NoMemory> {
        Ok((silence(self.alloc), ()))
    }

    fn step(&mut self, _state: &(), input: &Val) -> Result<(Piece, ()), NoMemory> {
        self.count = self.count.saturating_add(1);
        Ok((written_by(self.alloc, input)?, ()))
    }

    fn close(&mut self, _state: &()) -> Result<Piece, NoMemory> {
        Ok(silence(self.alloc))
    }

    fn meets(&self, _one: &(), _other: &()) -> bool {
        true
    }

    fn copy(&self, _state: &()) -> Result<(), NoMemory> {
        Ok(())
    }
}

#[tactic(auto, unfolding(jq_pages::specs::Pieces::piece_view))]
fn left_bracket(alloc: Global) -> Result<Piece, NoMemory>
    ensures { IfOk result (λ p. piece_view p ≡ opening) }
{
    let mut out = Vec::new(alloc);
    out.push(91)?;
    Ok(Piece {
        out,
        err: Vec::new(alloc),
        last: Last::Falsy,
        failed: false,
        halt: None,
    })
}

#[tactic(auto, unfolding(jq_pages::specs::Pieces::piece_view))]
fn error_line(alloc: Global) -> Result<Piece, NoMemory>
    ensures { IfOk result (λ p. piece_view p ≡ failure) }
{
    let mut err = Vec::new(alloc);
    err.push(33)?;
    err.push(10)?;
    Ok(Piece {
        out: Vec::new(alloc),
        err,
        last: Last::Nothing,
        failed: true,
        halt: None,
    })
}

fn larger_of(s: u64, n: u64) -> u64
    ensures { result ≡ larger s n }
{
    if s < n { n } else { s }
}

// What a value writes after inputs of which this is the largest.
fn compared_with(alloc: Global, s: u64, value: &Val) -> Result<Piece, NoMemory>
    ensures { IfOk result (λ p. piece_view p ≡ compared s (view value.now)) }
{
    match value {
        Val::Num(n) => {
            if *n < 0 {
                error_line(alloc)
            } else {
                last_digit(alloc, larger_of(s, n.unsigned_abs()))
            }
        }
        _ => last_digit(alloc, s),
    }
}

/// The largest number so far. The piece of an input is its last digit, and a negative number fails. `begin` writes a left bracket,
/// `close` the last digit of the largest number, and each of the three counts one.
#[derive(Drop)]
pub struct Largest {
    pub alloc: Global,
    pub count: u64,
}

impl Steps for Largest {
    type State = u64;

    ghost Seen = { ℕ };

    ghost seen = { λ s. s };

    ghost fold = { λ _. largest };

    ghost starts = { λ s. s.count };

    fn plain(&self) -> bool {
        false
    }

    fn count(&self) -> u64 {
        self.count
    }

    fn begin(&mut self) -> Result<(Piece, u64), NoMemory> {
        self.count = self.count.saturating_add(1);
        Ok((left_bracket(self.alloc)?, 0))
    }

    fn step(&mut self, state: &u64, input: &Val) -> Result<(Piece, u64), NoMemory> {
        self.count = self.count.saturating_add(1);
        let next = larger_of(*state, amount_of(input));
        Ok((compared_with(self.alloc, *state, input)?, next))
    }

    fn close(&mut self, state: &u64) -> Result<Piece, NoMemory> {
        self.count = self.count.saturating_add(1);
        last_digit(self.alloc, *state)
    }

    fn meets(&self, one: &u64, other: &u64) -> bool {
        *one == *other
    }

    fn copy(&self, state: &u64) -> Result<u64, NoMemory> {
        Ok(*state)
    }
}
