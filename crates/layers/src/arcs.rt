// The arcs of a table laid out, and what they bring to its nodes.
ghost use Rattle.std.specs.Prelude.{◌≡◌, ℕ, ◌+◌, ◌≤◌, ◌<◌, ◌^◌, get_or};
ghost use Rattle.layers.specs.Layers.{Sized, flow_sum, inflow};

use crate::ranks::Rank;

// By rank where the arcs into the node begin in the list of all arcs, and by index in this list the cell that the arc starts from, and
// its weight.
#[derive(Clone, Copy)]
pub struct LaidArcs {
    pub starts: [u16; 256],
    pub sources: [u16; 1040],
    pub arcs: [u64; 1040],
}

impl LaidArcs {
    // What all arcs into the node at a rank bring. They are pairs, one or more.
    pub(crate) fn inflow(&self, cells: &[u64; 512], rank: Rank) -> u64
        requires sized { ((n : ℕ) × Sized self.now n × (rank.0 < n)) }
        requires fits { inflow self.now cells.now rank.0 ≤ 2 ^ 56 }
        ensures { result ≡ inflow self.now cells.now rank.0 }
    {
        let i = rank.number();
        let from = usize::from(self.starts[i]);
        let to = usize::from(self.starts[i + 1]);
        let mut w = self.pair(cells, from);
        for j in (from + 2..to).step_by(2) {
            w += self.pair(cells, j);
        }
        w
    }

    // What the arc at an index of the list and the one after it bring.
    fn pair(&self, cells: &[u64; 512], j: usize) -> u64
        requires { (j + 2 ≤ 1040) × ((i : ℕ) → get_or self.now.sources i 0 < 512) × (flow_sum self.now.sources self.now.arcs cells.now j 2 ≤ 2 ^ 56) }
        ensures { result ≡ flow_sum self.now.sources self.now.arcs cells.now j 2 }
    {
        let a = usize::from(self.sources[j]);
        let b = usize::from(self.sources[j + 1]);
        cells[a] * self.arcs[j] + cells[b] * self.arcs[j + 1]
    }
}
