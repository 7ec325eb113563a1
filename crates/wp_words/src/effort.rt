ghost use Rattle.std.specs.Prelude.{IfOk, IfErr};
ghost use Rattle.clap.specs.Words.{found_of, rows_of};
ghost use Rattle.wp_words.specs.Reading.{IsFaultOf};
ghost use Rattle.wp_words.specs.Words.{IsEffort, said_once};

use crate::fault::WordsFault;
use crate::options::long_if_given;
use clap::ArgMatches;

/// The budget of each wave where the words say none.
const USUAL_BUDGET: u64 = 2_000_000;

/// How much the search for better batches may do: the work of a budget, or in its place for how many nodes it may work.
#[derive(Clone, Copy)]
pub struct Effort {
    pub budget: u64,
    pub nodes: Option<u64>,
}

/// How much the search may do by the words. They say it once: where they give both a budget and nodes, they are
/// refused.
pub fn effort_of(matches: &ArgMatches<'_>) -> Result<Effort, WordsFault>
    ensures said { IfOk result (λ effort. IsEffort
        (rows_of (found_of matches.now)) effort.budget effort.nodes) }
    ensures fault { IfErr result (IsFaultOf (said_once (rows_of (found_of matches.now)))) }
{
    let budget = long_if_given(matches, "budget")?;
    let nodes = long_if_given(matches, "nodes")?;
    match (budget, nodes) {
        (Some(_), Some(_)) => Err(WordsFault::BadWords),
        (Some(budget), None) => Ok(Effort { budget, nodes }),
        (None, nodes) => Ok(Effort {
            budget: USUAL_BUDGET,
            nodes,
        }),
    }
}
