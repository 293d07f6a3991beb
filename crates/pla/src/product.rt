//! A line with a product.
ghost use Rattle.std.specs.Prelude.{◌≡◌, ◌≤◌, ◌<◌};
ghost use Rattle.cube.specs.Cubes.{one};
ghost use Rattle.text.specs.Cubes.{known};
ghost use Rattle.pla.specs.Header.{unsaid};
ghost use Rattle.pla.specs.Products.{output_of, spelt as products_spelt, lacks, lacking as products_lacking, product as products_product};
ghost use Rattle.pla.specs.Pla.{line_is};

use crate::names::MOST_OUTPUTS;
use crate::{Header, Line};
use cube::Cube;
use records::Reason;
use shared::Shared;
use text::{cubes, place};

/// Whether a character puts a product into its output, by 1 or 0, if it is an output's character.
fn output_of(b: u8) -> Option<u32>
    ensures { result ≡ known 2 (output_of b) }
{
    match b {
        b'1' => Some(1),
        b'0' | b'-' | b'~' => Some(0),
        _ => None,
    }
}

/// The product that a line spells, of n inputs and m outputs.
fn spelt(n: usize, m: usize, line: &[u8]) -> Option<Shared>
    requires { (n ≤ 32) × (m ≤ 32) }
    ensures { result ≡ products_spelt n m 0 one 0 line.now }
{
    let mut cube = Cube::ONE;
    let mut outputs: u32 = 0;
    let mut k = 0;
    for b in line {
        if place::is_blank(*b) {
            continue;
        }
        if k < n {
            cube = cube.with_code(k as u32, cubes::code_of(*b)?);
        } else if k < n + m {
            outputs += output_of(*b)? << (k - n);
        } else {
            return None;
        }
        k += 1;
    }
    (k == n + m).then_some(Shared { cube, outputs })
}

/// What has to be said before a product and at the end: the reason for the first that is not, by 27, 28 or 29.
#[tactic(auto, unfolding(crate::specs::Products::lacking))]
pub fn lacking(h: Header) -> Result<(), Reason>
    ensures { lacks result ≡ products_lacking h }
{
    if cube::list::MOST_VARIABLES < h.inputs {
        return Err(Reason::NoInputs);
    }
    if MOST_OUTPUTS < h.outputs {
        return Err(Reason::NoOutputs);
    }
    if !h.esop {
        return Err(Reason::NotEsop);
    }
    Ok(())
}

/// A line with a product, or one that should be.
#[tactic(auto, unfolding(crate::specs::Products::product))]
pub(crate) fn product(h: Header, line: &[u8]) -> Result<Line, Reason>
    requires { h.products < unsaid }
    ensures { line_is result ≡ products_product h line.now }
{
    lacking(h)?;
    let Some(product) = spelt(h.inputs, h.outputs, line) else {
        return Err(Reason::NoProduct);
    };
    let products = h.products + 1;
    Ok(Line::Has(Header { products, ..h }, product))
}
