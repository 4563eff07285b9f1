// The open lines of a plan as a visit reads them.
ghost use Rattle.std.specs.Prelude.{◌≡◌, ◌≤◌, ◌<◌, get_or, length, set, take};
ghost use Rattle.lines.specs.Open.{rows, open_lines};
ghost use Rattle.lines.specs.Laid.{listing_of, listing_of_plan, Positioned, lines_laid, no_line};

use crate::open::{OpenLines, open_lines};
use layers::{Layer, Rank};
use terms::{Choice, Plan, Position};

// An open line: the ranks of its layer, its number and its kits.
#[derive(Clone, Copy)]
pub struct Line {
    pub layer: Layer,
    pub choice: Choice,
    pub kits: u64,
}

// The open lines of a plan, the lowest first: the first `count` of them are in use.
#[derive(Clone, Copy)]
pub struct Lines {
    lines: [Line; 20],
    count: usize,
}

impl Lines {
    // The open lines of a plan, which has at most 20 lines, as `Plan::of_marks` leaves it, as `of_open` lays them out. The positions are
    // a table's.
    pub fn of_plan(plan: Plan, positions: &[u8; 20], ends: &[u16; 256], kits: &[u16; 20]) -> Lines
        requires few { plan.count ≤ 20 }
        requires positions { Positioned (listing_of_plan plan positions.now ends.now kits.now) (length (open_lines (rows plan))) }
        ensures lines { result.lines ≡ lines_laid (listing_of_plan plan positions.now ends.now kits.now) (length (open_lines (rows plan))) }
        ensures count { result.count ≡ length (open_lines (rows plan)) }
    {
        Lines::of_open(open_lines(plan), positions, ends, kits)
    }

    // The lines of these numbers, in their order, at most 20 of them. The first layer begins at rank 0, each other where the one before
    // ends. `ends` has how many nodes stand before each position. The positions are a table's, and the numbers those of its choices.
    pub fn of_open(
        listed: OpenLines,
        positions: &[u8; 20],
        ends: &[u16; 256],
        kits: &[u16; 20],
    ) -> Lines
        requires few { listed.count ≤ 20 }
        requires positions { Positioned (listing_of listed.numbers positions.now ends.now kits.now) listed.count }
        ensures lines { result.lines ≡ lines_laid (listing_of listed.numbers positions.now ends.now kits.now) listed.count }
        ensures count { result.count ≡ listed.count }
    {
        let count = listed.count;
        let mut first = Rank::new(0);
        let mut lines = [no_line(); 20];
        for i in 0..count {
            let choice = Choice::new(listed.numbers[i]);
            let x = position_at(positions, choice).number();
            let next = Rank::new(usize::from(ends[x + 1]));
            let layer = Layer {
                first,
                own: Rank::new(usize::from(ends[x])),
                next,
            };
            let kits = u64::from(kits[choice.number()]);
            lines[i] = Line {
                layer,
                choice,
                kits,
            };
            first = next;
        }
        Lines { lines, count }
    }

    // The lines in use: at most 20, as `of_plan` and `of_open` leave them.
    pub fn as_slice(&self) -> &[Line]
        requires { self.now.count ≤ 20 }
        ensures { result.now ≡ take self.now.count self.now.lines }
    {
        &self.lines[..self.count]
    }
}

// Marks a line of a plan. Its number is below 20, as that of each line that `Lines` lays out.
pub fn mark_line(line: &Line, marks: &mut [u8; 20], mark: u8)
    requires { line.now.choice.0 < 20 }
    ensures { marks.new ≡ set marks.old line.now.choice.0 mark }
{
    marks[line.choice.number()] = mark;
}

// What stands where no line does.
fn no_line() -> Line
    ensures { result ≡ no_line }
{
    let first = Rank::new(0);
    Line {
        layer: Layer {
            first,
            own: first,
            next: first,
        },
        choice: Choice::new(0),
        kits: 0,
    }
}

// The position of a choice. The positions are a table's, and so below 64.
fn position_at(positions: &[u8; 20], choice: Choice) -> Position
    requires { (choice.0 < 20) × (get_or positions.now choice.0 0 < 64) }
    ensures { result.0 ≡ get_or positions.now choice.0 0 }
{
    Position::new(positions[choice.number()])
}
