// Damaged texts in pieces of random sizes: what a run writes does not depend on the pieces.
use crate::fakes::{Bytes, Kept};
use crate::starting::compile_under;
use jq_devices::{Read, StreamFault};
use jq_filters::Filter;
use jq_starts::Starts;
use jq_stream::{Outputs, Streams, run_stream};
use std::alloc::Global;
use std::process::Abort;
use std::test::Fail;
use std::{env, io};

// How many texts are tried, if no argument of the test program after the name of the test says so. One in eight is random bytes, some
// 20 of them, and the others have three changes for every two texts: more than a million random bytes and a million changes in all.
const COUNT: u64 = 1_000_000;

static TEXTS: [&[u8]; 12] = [
    b"{\"a\":[1,\"x\\u0041\"]} [2]",
    b"[1,2.0,-3e2,{\"b\":null,\"a\":{\"c\":[true,false]}}]",
    b"1 2 3 null true false \"a\" [] {}",
    b"{\"name\":\"J\\u00fcrgen \xc3\xa4\xe2\x82\xac\\ud83d\\ude00\",\"tags\":[\"a\\n\",\"\\\\\"]}\n",
    b"\xef\xbb\xbf[9223372036854775807,-9223372036854775808]",
    b"[[[[[[[[[[]]]]]]]]]] [[[{\"a\":[[[0]]]}]]]",
    b"12345678 1e3 10e-1 0e999 -0 1.5",
    b"\"\\\"\\\\\\/\\b\\f\\n\\r\\t\" \"\\u0000\" \"\"",
    b"[1}{\"a\":1,}01\xff\"\\ud800\"",
    b"{\"a\":1,\"a\":2,\"b\":{\"a\":3}}\n{\"a\":4}\n",
    b"  \t\r\n  [ 1 , 2 ]  \n { \"k\" : \"v\" }  ",
    b"",
];

const BYTES: &[u8] = b"{}[]\",:\\ \t\n019-+.eEtfnux\x00\x1f\x7f\x80\xbf\xc3\xed\xef\xf4\xff";

// Numbers that look random: a shift register of 64 bits.
#[derive(Drop)]
struct Random {
    state: u64,
}

impl Random {
    fn next(&mut self) -> u64 {
        let mut state = self.state;
        state ^= state << 13;
        state ^= state >> 7;
        state ^= state << 17;
        self.state = state;
        state.wrapping_mul(0x2545_f491_4f6c_dd1d) >> 11
    }

    // A number below the limit, 0 if there is none.
    fn below(&mut self, limit: usize) -> usize {
        if limit == 0 {
            return 0;
        }
        (self.next() % limit as u64) as usize
    }

    fn byte_of(&mut self, bytes: &[u8]) -> u8 {
        let at = self.below(bytes.len());
        bytes.get(at).copied().unwrap_or(0)
    }
}

// A reader that returns up to `most` bytes in a call, and how many is random.
#[derive(Drop)]
struct Pieces<'a> {
    left: &'a [u8],
    most: usize,
    random: Random,
}

impl Read for Pieces<'_> {
    fn read(&mut self, buf: &mut [u8]) -> io::Result<usize> {
        let most = self.random.below(self.most).saturating_add(1);
        let len = buf.len().min(self.left.len()).min(most);
        buf[..len].copy_from_slice(&self.left[..len]);
        self.left = &self.left[len..];
        Ok(len)
    }
}

// The text with one change at a random place: a byte less, twice, another one, one more, or the end.
fn changed(alloc: Global, random: &mut Random, text: &[u8]) -> Result<Vec<u8>, Fail> {
    let place = random.below(text.len().saturating_add(1));
    let kind = random.below(11);
    let other = random.byte_of(BYTES);
    let mut new = Vec::with_capacity(alloc, text.len())?;
    for (i, byte) in text.iter().enumerate() {
        if i != place {
            new.push(*byte)?;
            continue;
        }
        match kind {
            0 => break,
            1 | 2 => {}
            3 | 4 => {
                new.push(*byte)?;
                new.push(*byte)?;
            }
            5..=7 => new.push(other)?,
            _ => {
                new.push(other)?;
                new.push(*byte)?;
            }
        }
    }
    if place == text.len() {
        new.push(other)?;
    }
    Ok(new)
}

// One of the texts, or two, with up to three changes; or bytes that are no text.
fn damaged(alloc: Global, random: &mut Random) -> Result<Vec<u8>, Fail> {
    let mut text = Vec::new(alloc);
    if random.below(8) == 0 {
        for _ in 0..random.below(40) {
            text.push(random.byte_of(BYTES))?;
        }
        return Ok(text);
    }
    for _ in 0..random.below(2).saturating_add(1) {
        let place = random.below(TEXTS.len());
        if let Some(other) = TEXTS.get(place) {
            text.extend_from_slice(*other)?;
        }
    }
    for _ in 0..random.below(4) {
        text = changed(alloc, random, text.as_slice())?;
    }
    Ok(text)
}

// What a run wrote, and how it ended.
#[derive(Drop)]
struct Ran {
    result: Result<u8, StreamFault>,
    outputs: Outputs<Kept, Kept>,
}

fn run<R: Read + Drop>(alloc: Global, starts: &mut Starts, compiled: &Filter, input: R) -> Ran {
    let output = Kept::new(alloc, usize::MAX, 0);
    let outputs = Outputs::new(output, Kept::new(alloc, usize::MAX, 0));
    let mut streams = Streams::new(input, outputs);
    let result = run_stream(
        alloc,
        &compiled.runner(),
        compiled.settings(),
        starts,
        &mut streams,
    );
    Ran {
        result,
        outputs: streams.outputs,
    }
}

fn check(
    rt: &(impl Abort + AllocGlobal),
    starts: &mut Starts,
    compiled: &Filter,
    random: &mut Random,
) -> Result<(), Fail> {
    let alloc = rt.alloc();
    let text = damaged(alloc, random)?;
    let whole = Bytes::new(text.as_slice(), usize::MAX, 0);
    let whole = run(alloc, starts, compiled, whole);
    assert!(rt; matches!(&whole.result, Ok(0 | 2)), "{text:?}");
    let most = random.below(9).saturating_add(1);
    let pieces = Pieces {
        left: text.as_slice(),
        most,
        random: Random {
            state: random.next() | 1,
        },
    };
    let cut = run(alloc, starts, compiled, pieces);
    check_same(rt, &text, (&cut, &whole));
    Ok(())
}

fn check_same(rt: &(impl Abort + AllocGlobal), text: &[u8], (cut, whole): (&Ran, &Ran)) {
    assert_eq!(rt; cut.result, whole.result, "{text:?} in pieces");
    let (found, wanted) = (cut.outputs.output.device(), whole.outputs.output.device());
    assert_eq!(rt; found.bytes(), wanted.bytes(), "{text:?} in pieces");
    let (found, wanted) = (cut.outputs.errors.device(), whole.outputs.errors.device());
    assert_eq!(rt; found.bytes(), wanted.bytes(), "{text:?} in pieces");
}

#[test]
fn damaged_texts(rt: HostRuntime) -> Result<(), Fail> {
    let mut count = COUNT;
    for (i, word) in env::args(&rt)?.enumerate() {
        if i == 2 {
            count = word.as_str().parse()?;
        }
    }
    let mut starts = Starts::new(&rt);
    let compiled = compile_under(rt.alloc(), "", ".")?;
    let mut random = Random { state: 1 };
    for _ in 0..count {
        check(&rt, &mut starts, &compiled, &mut random)?;
    }
    Ok(())
}
