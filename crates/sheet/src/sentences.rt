//! The sentences of the sheet that are proved, and how its checksums are worked out again.

/// How the checksums are worked out again.
pub(crate) const SUMS: &str = "
The checksums are those of the tool cksum, each with its number of bytes, of the list as records:
  druthmoy pack MAP given.cub; cksum given.cub
  druthmoy settle MAP [SCRIPT] >burned.pla; druthmoy pack burned.pla burned.cub; cksum burned.cub
";

/// What is proved of every settled map of one output.
pub(crate) const OF_ONE: &str = "
Proved, for every list and every script (docs/PROMISES.md):
  The burned list has the value of the given list at every label.
  It costs no more than the given list, and no more than the list that the script ends in.
  It has no more products than the given list, and no more than the list that the script ends in.
";

/// What is proved too where there are at most 8 inputs.
pub(crate) const OF_FEW: &str = "  No fixed-polarity form of the function costs less.
  No expansion tree of it, in the order of the inputs, has a list that costs less.
";

/// What is proved of every settled map of shared products.
pub(crate) const OF_SHARED: &str = "
Proved, for every list and every script (docs/PROMISES.md):
  Every output of the burned list has the value of that output of the given list at every label.
  It has no more products than the given list, and no more than the list that the script ends in.
";

/// What is proved of the texts, and the line to sign on.
pub(crate) const OF_TEXT: &str =
    "  The burned list, printed as text and read again, is the same list.

Signed ______________________________   Date ______________
";
