// The drops, summed up from the losses of the nodes and their path weights.
ghost use Rattle.std.specs.Prelude.{◌≡◌, ℕ, ◌+◌, ◌≤◌, ◌<◌, length, get_or, replicate};
ghost use Rattle.diagram.specs.Table.{sequence};
ghost use Rattle.arrays.specs.Arrays.{over};
ghost use Rattle.valuing.specs.Passes.{LossFits};
ghost use Rattle.derivatives.specs.Drops.{lossy_of, loss_sums, Losing};

use decoding::{Decoded, position_of};
use terms::{Node, Plan};
use valuing::{PlanValue, loss_of, mark_at};

// What leaving each open line would lose, by position, and 0 at every other position: the losses of its nodes, each times the
// node's path weight. No loss is below zero, and the sums fit: `two_passes` hands in the values and the path weights of an accepted
// table with all open lines taken, so that each sum is a drop, and no more than the top.
pub fn drops_by_position(table: &Decoded, valued: &PlanValue, paths: &[u64; 256]) -> [u64; 64]
    requires losses { (k : ℕ) → k < table.now.records → LossFits table.now.low valued.now.arcs valued.now.values (k + 2) }
    requires sums { Losing (lossy_of table.now valued.now paths.now) table.now.records }
    ensures { result ≡ loss_sums (lossy_of table.now valued.now paths.now) table.now.records }
{
    let mut drops = [0; 64];
    for k in 0..table.records {
        let node = Node::of_record(k);
        let at = position_of(&table.positions, node);
        if mark_at(&valued.marks, at) == Plan::OPEN {
            let lost = loss_of(&table.low, &valued.arcs, &valued.values, node);
            drops[at.number()] += paths[node.number()] * lost;
        }
    }
    drops
}

// The cells of the choices' positions, by choice number; the cells after the last choice are 0. `two_passes` hands in the choices of
// an accepted table: at most 20, at positions below 64.
pub fn by_choice(positions: &[u8], cells: &[u64; 64]) -> [u64; 20]
    requires { (length positions.now ≤ 20) × ((i : ℕ) → i < length positions.now → get_or positions.now i 0 < 64) }
    ensures { result ≡ over (sequence (λ (i : ℕ). get_or cells.now (get_or positions.now i 0) 0) 0 (length positions.now)) (replicate 20 0) }
{
    let mut numbers = [0; 20];
    for (i, at) in positions.iter().enumerate() {
        numbers[i] = cells[usize::from(*at)];
    }
    numbers
}
