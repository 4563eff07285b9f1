// The roots of a table by number.
ghost use Rattle.std.specs.Prelude.{◌≡◌, ◌<◌, ◌≤◌, length};
ghost use Rattle.std.proofs.Math.Option.{none};
ghost use Rattle.diagram.specs.Table.{table_of};
ghost use Rattle.diagram.specs.Checks.{heading_fault, root_fault};
ghost use Rattle.decoding.specs.Decoding.{pad_to, root_at, root_nodes, root_rewards};

use crate::heading::{record_count, root_word_count, variable_count};
use terms::{Node, field_q, field_r, word_at};

// A root: the node that its walk starts at, and its reward.
#[derive(Clone, Copy)]
pub struct Root {
    pub node: Node,
    pub reward: u64,
}

// How many roots there are, and by number the node and the reward of each; the cells after the last root are 0.
#[derive(Clone, Copy)]
pub struct RootEntries {
    pub count: usize,
    pub nodes: [u8; 16],
    pub rewards: [u64; 16],
}

// The roots of a file. The checks 12 and 26 have passed.
pub fn roots_of(file: &[u8]) -> RootEntries
    requires { (heading_fault file.now ≡ none) × (root_fault file.now ≡ none) }
    ensures count { result.count ≡ length (table_of file.now).roots }
    ensures nodes { result.nodes ≡ pad_to 16 (root_nodes (table_of file.now).roots) }
    ensures rewards { result.rewards ≡ pad_to 16 (root_rewards (table_of file.now).roots) }
{
    let count = root_count(file);
    let mut nodes = [0; 16];
    let mut rewards = [0; 16];
    for i in 0..count {
        let root = root_at(file, i);
        nodes[i] = root.node.byte();
        rewards[i] = root.reward;
    }
    RootEntries {
        count,
        nodes,
        rewards,
    }
}

// How many roots a table has: one for each root word, and one where there is none.
pub fn root_count(file: &[u8]) -> usize
    ensures count { result ≡ length (table_of file.now).roots }
    ensures some { (1 ≤ result) × (result < 2048) }
{
    let count = root_word_count(file);
    if count == 0 {
        return 1;
    }
    count
}

// A root: that of a root word, or the last record with reward 1 where there is none. The checks 12 and 26 have passed.
pub fn root_at(file: &[u8], i: usize) -> Root
    requires { (heading_fault file.now ≡ none) × (root_fault file.now ≡ none) × (i < length (table_of file.now).roots) }
    ensures node { result.node.0 ≡ (root_at (table_of file.now).roots i).node }
    ensures reward { result.reward ≡ (root_at (table_of file.now).roots i).reward }
{
    let n = record_count(file);
    if root_word_count(file) == 0 {
        return Root {
            node: Node::of_record(n - 1),
            reward: 1,
        };
    }
    let w = word_at(file, 1 + usize::from(variable_count(file)) + n + i);
    Root {
        node: Node::new(field_r(w) as u8),
        reward: u64::from(field_q(w)),
    }
}
