//! The commands by their names.
use std::str::FromStr;

/// What the program is asked for.
#[derive(Clone, Copy, Debug, PartialEq, Eq)]
pub enum Verb {
    Settle,
    Check,
    Why,
    Slot,
    Easy,
    Compact,
    Tree,
    Best,
    Pack,
    PackNarrow,
    Unpack,
    UnpackNarrow,
    UnpackShared,
    Sheet,
    Help,
}

/// A word that names no command.
#[derive(Clone, Copy, Debug, PartialEq, Eq)]
pub struct UnknownVerb;

impl FromStr for Verb {
    type Err = UnknownVerb;

    fn from_str(word: &str) -> Result<Verb, UnknownVerb> {
        match word {
            "settle" => Ok(Verb::Settle),
            "sheet" => Ok(Verb::Sheet),
            "check" => Ok(Verb::Check),
            "why" => Ok(Verb::Why),
            "slot" => Ok(Verb::Slot),
            "easy" => Ok(Verb::Easy),
            "compact" => Ok(Verb::Compact),
            "tree" => Ok(Verb::Tree),
            "best" => Ok(Verb::Best),
            "pack" => Ok(Verb::Pack),
            "unpack" => Ok(Verb::Unpack),
            "--help" => Ok(Verb::Help),
            _ => Err(UnknownVerb),
        }
    }
}

impl Verb {
    /// The command of a name, which need not be text.
    pub fn of_word(word: &[u8]) -> Option<Verb> {
        str::from_utf8(word).ok()?.parse().ok()
    }

    /// The command that an option after it makes of it, if the word is one: `--narrow` of both ways to and from records, `--shared` of the way from them.
    pub fn with_option(self, word: &[u8]) -> Option<Verb> {
        match (self, str::from_utf8(word).ok()?) {
            (Verb::Pack, "--narrow") => Some(Verb::PackNarrow),
            (Verb::Unpack, "--narrow") => Some(Verb::UnpackNarrow),
            (Verb::Unpack, "--shared") => Some(Verb::UnpackShared),
            _ => None,
        }
    }

    /// Whether a command takes so many words after it.
    pub fn takes(self, words: usize) -> bool {
        match self {
            Verb::Settle | Verb::Sheet => words == 1 || words == 2,
            Verb::Check | Verb::Easy | Verb::Tree | Verb::Best => words == 1,
            Verb::Help => true,
            Verb::Why | Verb::Slot | Verb::Compact | Verb::Pack | Verb::PackNarrow => words == 2,
            Verb::Unpack | Verb::UnpackNarrow | Verb::UnpackShared => words == 2,
        }
    }
}
