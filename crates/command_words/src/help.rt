//! What `--help` prints, and what is printed where a command is not understood.

/// The commands, as `--help` lists them.
pub const COMMANDS: &str = "\
druthmoy: maps and scripts as text

  druthmoy settle A.pla [A.steps]     the list to burn, as ESOP-PLA; the counts go to standard error
  druthmoy sheet A.pla [A.steps]      one page about it, to sign
  druthmoy check A.pla                inputs, outputs, products and cost
  druthmoy why A.pla LABEL            the products that are true at a label (decimal)
  druthmoy slot A.pla LABEL           the slot of a label; bit k is output k
  druthmoy easy A.pla                 the script of joins and drops that needs no search
  druthmoy compact A.pla A.steps      the script without steps that undo each other
  druthmoy tree A.pla                 the list of the cheapest expansion tree, at most 8 inputs
  druthmoy best A.pla                 the form of the best polarity, at most 8 inputs
  druthmoy pack [--narrow] A.pla OUT.cub         the list as records
  druthmoy unpack [--narrow|--shared] N IN.cub   records as ESOP-PLA, of N inputs

A map is ESOP-PLA: .i .o .type esop, then a line a product, as 01- 1. A script has a step a line:
drop I J, join I J, split xV I, turn xV I J, L xV LITERAL, and merge I J where there are several outputs.
A line that begins with druthmoy: on standard error is a refusal. README.md explains each.
";

/// A command that there is not, or with other words than it takes.
pub const MISUSED: &str =
    "druthmoy: no such command, or not with these words; druthmoy --help lists them";

/// A word that can't be read.
pub const BAD_WORD: &str = "druthmoy: a word is empty, or longer than 4,096 bytes";
