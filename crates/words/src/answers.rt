//! What the calls answer, as values in the order of their words.
ghost use Rattle.std.specs.Prelude.{◌≡◌, ℕ, List, [], ◌∷◌};
ghost use Rattle.bits.specs.Sums.{one_if};
ghost use Rattle.words.specs.Words.{six, settlement_values};

use cube::ValueAt;
use kronecker::WrittenKronecker;
use polarity::BestPolarity;
use reasons::TrueProducts;
use script::Peaked;
use settling::Settlement;
use shared_run::SharedSettlement;
use trees::WrittenTree;
use writer::Written;

/// What an accepted call answers: values, at most six.
pub trait Answer: Copy {
    ghost values: { Self → List ℕ };

    /// The values as six words, 0 for each that is missing.
    fn words(self) -> [u64; 6]
        ensures { result ≡ six (values self) };
}

/// What stands for the best polarity and for its size where there is none.
const ABSENT: u64 = u64::MAX;

/// A count.
impl Answer for usize {
    ghost values = { λ n. n ∷ [] };

    fn words(self) -> [u64; 6] {
        [self as u64, 0, 0, 0, 0, 0]
    }
}

/// The values of all outputs, as one word.
impl Answer for u32 {
    ghost values = { λ w. w ∷ [] };

    fn words(self) -> [u64; 6] {
        [u64::from(self), 0, 0, 0, 0, 0]
    }
}

/// The bit and the number of true products.
impl Answer for ValueAt {
    ghost values = { λ v. v.bit ∷ v.trues ∷ [] };

    fn words(self) -> [u64; 6] {
        [self.bit as u64, self.trues as u64, 0, 0, 0, 0]
    }
}

/// The number of true products and the bit.
impl Answer for TrueProducts {
    ghost values = { λ t. t.count ∷ t.bit ∷ [] };

    fn words(self) -> [u64; 6] {
        [self.count as u64, self.bit as u64, 0, 0, 0, 0]
    }
}

/// The best polarity and its size.
impl Answer for BestPolarity {
    ghost values = { λ b. b.polarity ∷ b.products ∷ [] };

    fn words(self) -> [u64; 6] {
        [self.polarity as u64, self.products as u64, 0, 0, 0, 0]
    }
}

/// The products and the cost of a tree's list.
impl Answer for WrittenTree {
    ghost values = { λ t. t.products ∷ t.cost ∷ [] };

    fn words(self) -> [u64; 6] {
        [self.products as u64, self.cost as u64, 0, 0, 0, 0]
    }
}

/// The cost, the choice and the products of a Kronecker list.
impl Answer for WrittenKronecker {
    ghost values = { λ k. k.cost ∷ k.choice ∷ k.products ∷ [] };

    fn words(self) -> [u64; 6] {
        let cost = self.cost as u64;
        let choice = self.choice as u64;
        let products = self.products as u64;
        [cost, choice, products, 0, 0, 0]
    }
}

/// The count and the peak of a run.
impl Answer for Peaked {
    ghost values = { λ p. p.count ∷ p.peak ∷ [] };

    fn words(self) -> [u64; 6] {
        [self.count as u64, self.peak as u64, 0, 0, 0, 0]
    }
}

/// The number of steps that are written, and whether no pair is left.
impl Answer for Written {
    ghost values = { λ w. w.steps ∷ one_if w.finished ∷ [] };

    fn words(self) -> [u64; 6] {
        [self.steps as u64, self.finished as u64, 0, 0, 0, 0]
    }
}

/// How many entries a group of an index has, and the one that it begins at.
#[derive(Clone, Copy, Debug, PartialEq, Eq)]
pub struct Group {
    pub entries: usize,
    pub start: usize,
}

impl Answer for Group {
    ghost values = { λ g. g.entries ∷ g.start ∷ [] };

    fn words(self) -> [u64; 6] {
        [self.entries as u64, self.start as u64, 0, 0, 0, 0]
    }
}

/// The counts of a settled map.
impl Answer for Settlement {
    ghost values = { settlement_values };

    fn words(self) -> [u64; 6] {
        let given = self.given as u64;
        let peak = self.peak as u64;
        let script = self.script as u64;
        let burned = self.burned as u64;
        match self.fixed {
            Some(best) => {
                let polarity = best.polarity as u64;
                let size = best.products as u64;
                [given, peak, script, polarity, size, burned]
            }
            None => [given, peak, script, ABSENT, ABSENT, burned],
        }
    }
}

/// The counts of a settled list of shared products.
impl Answer for SharedSettlement {
    ghost values = { λ s. s.given ∷ s.peak ∷ s.script ∷ s.burned ∷ [] };

    fn words(self) -> [u64; 6] {
        let given = self.given as u64;
        let peak = self.peak as u64;
        let script = self.script as u64;
        let burned = self.burned as u64;
        [given, peak, script, burned, 0, 0]
    }
}
