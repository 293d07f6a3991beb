//! Answers: a value after an equals sign, or a refusal.
ghost use Rattle.std.specs.Prelude.{ℕ, ◌++◌, List, Some, codes};
ghost use Rattle.std.specs.Fmt.{DisplaysOnOk, decimal};
ghost use Rattle.answers.specs.Texts.{refused_text, answer_text, two, three, flag, counts_text, fixed_text, settlement_text};

use cube::ValueAt;
use kronecker::WrittenKronecker;
use polarity::BestPolarity;
use reasons::TrueProducts;
use records::Refusal;
use script::Peaked;
use settling::Settlement;
use shared_run::SharedSettlement;
use std::fmt;
use trees::WrittenTree;
use writer::Written;

/// A value as a row shows it.
// Stays: a trait beside `Display`, which types of other crates can't be given here.
pub trait Shown {
    ghost text: { Self → List ℕ };

    fn show<W: fmt::Write>(&self, f: &mut fmt::Formatter<W>) -> fmt::Result
        ensures { DisplaysOnOk W.write_str_gives f.old result (Some (text self.now)) f.new };
}

/// What a call answers: the value, or why it is refused, with the refusal's number, its place and its third answer.
#[derive(Clone, Copy, Debug)]
pub struct Answer<T> {
    pub result: Result<T, Refusal>,
}

impl<T: Shown> fmt::Display for Answer<T> {
    ghost output = { λ a. Some (answer_text T.text a.result) };

    fn fmt<W: fmt::Write>(&self, f: &mut fmt::Formatter<W>) -> fmt::Result {
        match &self.result {
            Ok(value) => {
                f.write_str("= ")?;
                value.show(f)
            }
            Err(refusal) => write!(f, "{}", Refused { refusal: *refusal }),
        }
    }
}

/// A refusal as a row shows it.
#[derive(Clone, Copy, Debug)]
pub struct Refused {
    pub refusal: Refusal,
}

impl fmt::Display for Refused {
    ghost output = { λ r. Some (refused_text r.refusal) };

    fn fmt<W: fmt::Write>(&self, f: &mut fmt::Formatter<W>) -> fmt::Result {
        write!(
            f,
            "= refused {} at {} differing {}",
            self.refusal.number, self.refusal.place, self.refusal.differing
        )
    }
}

/// A count.
impl Shown for usize {
    ghost text = { decimal };

    fn show<W: fmt::Write>(&self, f: &mut fmt::Formatter<W>) -> fmt::Result {
        write!(f, "{self}")
    }
}

/// The word of all outputs' values.
impl Shown for u32 {
    ghost text = { decimal };

    fn show<W: fmt::Write>(&self, f: &mut fmt::Formatter<W>) -> fmt::Result {
        write!(f, "{self}")
    }
}

impl Shown for ValueAt {
    ghost text = { λ v. decimal v.bit ++ codes " trues " ++ decimal v.trues };

    fn show<W: fmt::Write>(&self, f: &mut fmt::Formatter<W>) -> fmt::Result {
        write!(f, "{} trues {}", self.bit, self.trues)
    }
}

impl Shown for TrueProducts {
    ghost text = { λ v. decimal v.count ++ codes " bit " ++ decimal v.bit };

    fn show<W: fmt::Write>(&self, f: &mut fmt::Formatter<W>) -> fmt::Result {
        write!(f, "{} bit {}", self.count, self.bit)
    }
}

impl Shown for Written {
    ghost text = { λ v. decimal v.steps ++ codes " finished " ++ decimal (flag v.finished) };

    fn show<W: fmt::Write>(&self, f: &mut fmt::Formatter<W>) -> fmt::Result {
        write!(f, "{} finished {}", self.steps, u8::from(self.finished))
    }
}

impl Shown for Peaked {
    ghost text = { λ v. decimal v.count ++ codes " peak " ++ decimal v.peak };

    fn show<W: fmt::Write>(&self, f: &mut fmt::Formatter<W>) -> fmt::Result {
        write!(f, "{} peak {}", self.count, self.peak)
    }
}

impl Shown for BestPolarity {
    ghost text = { λ v. two v.polarity v.products };

    fn show<W: fmt::Write>(&self, f: &mut fmt::Formatter<W>) -> fmt::Result {
        write!(f, "{} {}", self.polarity, self.products)
    }
}

impl Shown for WrittenTree {
    ghost text = { λ v. two v.products v.cost };

    fn show<W: fmt::Write>(&self, f: &mut fmt::Formatter<W>) -> fmt::Result {
        write!(f, "{} {}", self.products, self.cost)
    }
}

impl Shown for WrittenKronecker {
    ghost text = { λ v. three v.cost v.choice v.products };

    fn show<W: fmt::Write>(&self, f: &mut fmt::Formatter<W>) -> fmt::Result {
        write!(f, "{} {} {}", self.cost, self.choice, self.products)
    }
}

/// The best polarity and its size, with a stroke for each where there is none.
#[derive(Clone, Copy)]
struct BestForm {
    fixed: Option<BestPolarity>,
}

impl fmt::Display for BestForm {
    ghost output = { λ b. Some (fixed_text b.fixed) };

    fn fmt<W: fmt::Write>(&self, f: &mut fmt::Formatter<W>) -> fmt::Result {
        match self.fixed {
            Some(best) => best.show(f),
            None => f.write_str("- -"),
        }
    }
}

impl Shown for Settlement {
    ghost text = { settlement_text };

    fn show<W: fmt::Write>(&self, f: &mut fmt::Formatter<W>) -> fmt::Result {
        write!(
            f,
            "given {} peak {} script {} fixed {} burned {}",
            self.given,
            self.peak,
            self.script,
            BestForm { fixed: self.fixed },
            self.burned
        )
    }
}

impl Shown for SharedSettlement {
    ghost text = { λ s. counts_text s.given s.peak s.script ++ codes " burned " ++ decimal s.burned };

    fn show<W: fmt::Write>(&self, f: &mut fmt::Formatter<W>) -> fmt::Result {
        write!(
            f,
            "given {} peak {} script {} burned {}",
            self.given, self.peak, self.script, self.burned
        )
    }
}
