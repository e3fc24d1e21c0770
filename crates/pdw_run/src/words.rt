//! The words of the command line.

ghost use Rattle.std.specs.Prelude.{◌≡◌, ◌≢◌, ℕ, ◌≤◌, MatchOption};
ghost use Rattle.std.specs.Fmt.{decimal};
ghost use Rattle.pdw_run.specs.Words.{AskRun, HaveNoForm};

use itoa::Buffer;
use pdw_base::{MOST_NODES, NodeCount, Str};

// The number of nodes that a word writes in digits.
fn node_count(word: &Str) -> Option<NodeCount>
    ensures { MatchOption result ((nodes : ℕ) → 1 ≤ nodes → nodes ≤ 16 → word.now ≢ decimal nodes) (λ nodes. (1 ≤ nodes) × (nodes ≤ 16) × (word.now ≡ decimal nodes)) }
{
    for nodes in 1..MOST_NODES + 1 {
        if Buffer::new().format(nodes) == word.text() {
            return NodeCount::new(nodes);
        }
    }
    None
}

/// What the words `run N SCRIPT` ask for.
#[derive(Clone, Copy)]
pub struct RunWords<'a> {
    pub nodes: NodeCount,
    /// The name of the script's file.
    pub script: &'a Str,
}

/// What the words ask for, or None where they have another form.
pub fn parse(words: &[Str]) -> Option<RunWords<'_>>
    ensures { MatchOption result (HaveNoForm words.now) (λ asked. AskRun words.now asked.nodes asked.script.now) }
{
    let [word, count, script] = words else {
        return None;
    };
    if word.text() != "run" {
        return None;
    }
    let nodes = node_count(count)?;
    Some(RunWords { nodes, script })
}
