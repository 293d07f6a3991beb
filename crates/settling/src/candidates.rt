//! The candidates, and the choice among them.
ghost use Rattle.std.specs.Prelude.{◌≡◌, ◌^◌, ◌<◌, ◌≤◌, length};
ghost use Rattle.cube.specs.Lists.{cubes_of, most_records, most_variables, truth_vector, vector_variables};
ghost use Rattle.cube.specs.Calls.{check_list};
ghost use Rattle.polarity.specs.Ranks.{counts_of};
ghost use Rattle.settling.specs.Candidates.{burned_list};
ghost use Rattle.settling.specs.Choice.{candidate_of, better_of, StandsFor, FormCounts, FormsAre, FormIs, Choosable};
ghost use Rattle.records.specs.Answers.{Accepts};

use crate::{BestForm, Candidate, Forms, Origin};
use polarity::{BestPolarity, Counts, form};

/// The better of two candidates: the later one where it ranks lower, else the earlier.
fn better(earlier: Candidate, later: Candidate) -> Candidate
    ensures { result ≡ better_of earlier later }
{
    if later.rank < earlier.rank {
        return later;
    }
    earlier
}

/// The candidate of a list that has these counts.
fn candidate(counts: Counts, origin: Origin) -> Candidate
    ensures { result ≡ candidate_of counts origin }
{
    Candidate {
        rank: form::rank(counts),
        origin,
    }
}

/// The products of a list, and whether one of them has no literal.
pub fn count_list(list: &[u8]) -> Counts
    requires { length (cubes_of list.now) ≤ most_records }
    ensures { result ≡ counts_of (cubes_of list.now) }
{
    let count = list.len() / cube::list::RECORD_WIDTH;
    let mut bare: u32 = 0;
    for i in 0..count {
        bare += cube::list::bare_at(list, i) as u32;
    }
    let products = count as u32;
    Counts {
        products,
        constant: 0 < bare,
    }
}

/// The products of a vector's form under p, and whether one of them has no literal: its coefficient is the byte at p.
fn count_form(vector: [u8; 256], p: usize, size: usize) -> Counts
    requires { (p < 256) × (size ≤ 256) }
    ensures { FormCounts vector p size result }
{
    let bare = vector[p];
    let products = size as u32;
    Counts {
        products,
        constant: bare != 0,
    }
}

/// The candidate that is burned: each in turn against the best before it.
pub(crate) fn choose(n: usize, list: &[u8], res: &[u8], best: BestForm) -> Candidate
    requires { Choosable n list.now res.now best }
    ensures { StandsFor n (cubes_of res.now) (cubes_of list.now) (burned_list n (cubes_of res.now) (cubes_of list.now)) result }
{
    let script = candidate(count_list(res), Origin::Script);
    let given = candidate(count_list(list), Origin::Given);
    let two = better(script, given);
    let fixed = best.fixed;
    let vector = best.vector;
    match fixed {
        None => two,
        Some(
            BestPolarity {
                polarity: p,
                products: size,
            },
        ) => {
            let form = candidate(count_form(vector, p, size), Origin::Form(p));
            let tree = candidate(best.tree, Origin::Tree);
            better(better(two, form), tree)
        }
    }
}

/// The best polarity of the given list's function, whose truth vector is written, and what the tree's list counts.
fn best_of(n: usize, list: &[u8], vector: &mut [u8]) -> Forms
    requires accepts { Accepts (check_list vector_variables n list.now) }
    requires vector_len { length vector.old ≡ 2 ^ n }
    ensures forms_are { FormsAre n (cubes_of list.now) result }
    ensures vector_after { vector.new ≡ truth_vector n (cubes_of list.now) }
{
    let _ = cube::value::truth_vector(n, list, vector);
    let tree = trees::tree::count_tree(n, vector);
    let fixed = polarity::choose::best_polarity(n, vector).ok();
    Forms { fixed, tree }
}

/// The best polarity of the given list's function and what the tree's list counts, with the truth vector, where there are at most 8 variables.
pub(crate) fn best_form(n: usize, list: &[u8]) -> BestForm
    requires { Accepts (check_list most_variables n list.now) }
    ensures { FormIs n (cubes_of list.now) result }
{
    let mut vector = [0u8; 256];
    if cube::value::VECTOR_VARIABLES < n {
        return BestForm {
            fixed: None,
            tree: Counts {
                products: 0,
                constant: false,
            },
            vector,
        };
    }
    let assignments: usize = 1 << n;
    let forms = best_of(n, list, &mut vector[..assignments]);
    let fixed = forms.fixed;
    let tree = forms.tree;
    BestForm {
        fixed,
        tree,
        vector,
    }
}
