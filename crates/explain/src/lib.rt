//! What a refusal says, in words.
#![tactic(auto)]

use records::{Reason, Refusal};
use std::fmt;

/// A refusal in words: its number and what that says; and in how many variables two cubes differ that do not differ as a step needs it.
#[derive(Clone, Copy, Debug, PartialEq, Eq)]
pub struct InWords(pub Refusal);

impl fmt::Display for InWords {
    fn fmt<W: fmt::Write>(&self, f: &mut fmt::Formatter<W>) -> fmt::Result {
        let InWords(refusal) = *self;
        write!(f, "refused {}: ", refusal.number)?;
        match Reason::try_from(refusal.number) {
            // No command is refused for another index, and none has words for it.
            Ok(Reason::OtherIndex) | Err(_) => {}
            Ok(reason) => write!(f, "{reason}")?,
        }
        if 16 <= refusal.number && refusal.number <= 19 {
            write!(f, "; these differ in {}", refusal.differing)?;
        }
        Ok(())
    }
}
