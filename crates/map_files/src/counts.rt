//! The line of counts that `settle` prints.
use settling::Settlement;
use std::fmt;

/// A settlement as its line of counts.
#[derive(Clone, Copy)]
pub struct Counts(pub Settlement);

impl fmt::Display for Counts {
    fn fmt<W: fmt::Write>(&self, f: &mut fmt::Formatter<W>) -> fmt::Result {
        let s = self.0;
        write!(f, "in {} peak {} script {}", s.given, s.peak, s.script)?;
        match s.fixed {
            Some(best) => write!(f, " fixed {} {}", best.polarity, best.products)?,
            None => write!(f, " fixed - -")?,
        }
        write!(f, " out {}", s.burned)
    }
}
