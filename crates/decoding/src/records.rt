// The records of a table in arrays by node number, one for each part of a record.
ghost use Rattle.std.specs.Prelude.{◌≡◌, ◌+◌, ◌≤◌, ◌<◌, length, get_or, set, take};
ghost use Rattle.diagram.specs.Table.{table_of, variable_count};
ghost use Rattle.decoding.specs.Nodes.{position_column, high_column, low_column, Shaped};
ghost use Rattle.decoding.specs.Decoding.{pad_to};

use crate::heading::{record_count, variable_count};
use terms::{Node, Position, field_p, field_q, field_r, word_at};

// By node number, the position and the two children of each node, the ends first; the cells after the last record are 0.
#[derive(Clone, Copy)]
pub(crate) struct Columns {
    pub positions: [u8; 256],
    pub high: [u8; 256],
    pub low: [u8; 256],
}

// The records of a file that the checks 12 and 17 let through.
pub(crate) fn records_of(file: &[u8]) -> Columns
    requires { Shaped file.now }
    ensures positions { result.positions ≡ position_column (variable_count file.now) (table_of file.now).records }
    ensures high { result.high ≡ high_column (table_of file.now).records }
    ensures low { result.low ≡ low_column (table_of file.now).records }
{
    let v = variable_count(file);
    let mut columns = Columns {
        positions: [0; 256],
        high: [0; 256],
        low: [0; 256],
    };
    columns.positions[0] = v;
    columns.positions[1] = v;
    for k in 0..record_count(file) {
        let w = word_at(file, 1 + usize::from(v) + k);
        store(&mut columns.positions, k, field_p(w));
        store(&mut columns.high, k, field_q(w));
        store(&mut columns.low, k, field_r(w));
    }
    columns
}

// Writes the cell of record k's node. Whoever calls has one of at most 254 records, and a position, or a child that check 17 has
// let through.
pub fn store(cells: &mut [u8; 256], k: usize, x: u32)
    requires { (k < 254) × (x < 256) }
    ensures { cells.new ≡ set cells.old (k + 2) x }
{
    cells[k + 2] = x as u8;
}

// The position of a node.
pub fn position_of(positions: &[u8; 256], node: Node) -> Position
    ensures { result.0 ≡ get_or positions.now node.0 0 }
{
    Position::new(positions[node.number()])
}

// The child of a node by one of its arcs.
pub fn child_of(children: &[u8; 256], node: Node) -> Node
    ensures { result.0 ≡ get_or children.now node.0 0 }
{
    Node::new(children[node.number()])
}
