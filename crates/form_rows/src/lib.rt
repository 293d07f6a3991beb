//! The rows whose calls take a vector or coefficients: the call made, and what it answers and leaves written.
#![tactic(auto)]

use answers::left::Left;
use answers::row;
use kronecker::choice;
use polarity::{choose, form, transform, vector};
use rows::call::BitsCall;
use rows::given::Given;
use std::io;
use std::io::Write;
use trees::tree;

fn tree<W: Write>(out: &mut W, n: usize, bits: &[u8], bytes: &mut [u8]) -> io::Result<()> {
    let result = tree::write_tree(n, bits, bytes);
    let count = result.ok().map(|tree| tree.products);
    row::with_cubes(out, result, Left { n, count, bytes })
}

fn kronecker<W: Write>(out: &mut W, n: usize, bits: &[u8], bytes: &mut [u8]) -> io::Result<()> {
    let result = choice::write_kronecker(n, bits, bytes);
    let count = result.ok().map(|list| list.products);
    row::with_cubes(out, result, Left { n, count, bytes })
}

fn form<W: Write>(
    out: &mut W,
    n: usize,
    bits: &[u8],
    polarity: u64,
    bytes: &mut [u8],
) -> io::Result<()> {
    let result = form::write_form(n, bits, polarity, bytes);
    let count = result.ok();
    row::with_cubes(out, result, Left { n, count, bytes })
}

/// A call on a vector or on coefficients, in a lent buffer.
pub fn on_bits<W: Write>(
    out: &mut W,
    call: BitsCall,
    given: Given<'_>,
    lent: &mut [u8],
) -> io::Result<()> {
    let n = given.head.n;
    let bits = given.first;
    let polarity = given.head.given as u64;
    match call {
        BitsCall::Test => row::answer(out, vector::check_vector(n, bits)),
        BitsCall::Best => row::answer(out, choose::best_polarity(n, bits)),
        BitsCall::Form => form(out, n, bits, polarity, lent),
        BitsCall::Coefficients => {
            let result = transform::coefficients(n, bits, polarity, lent);
            row::with_bytes(out, result, lent)
        }
        BitsCall::Back => {
            let result = transform::vector_back(n, bits, polarity, lent);
            row::with_bytes(out, result, lent)
        }
        BitsCall::Tree => tree(out, n, bits, lent),
        BitsCall::Kronecker => kronecker(out, n, bits, lent),
    }
}
