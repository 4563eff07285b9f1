// The open lines of a plan.
ghost use Rattle.std.specs.Prelude.{◌≡◌, ◌≤◌, length};
ghost use Rattle.decoding.specs.Decoding.{pad_to};
ghost use Rattle.lines.specs.Open.{rows, open_lines};

use terms::Plan;

// The numbers of the open lines, the lowest first.
#[derive(Clone, Copy)]
pub struct OpenLines {
    pub numbers: [u8; 20],
    pub count: usize,
}

// The open lines of a plan, which has at most 20 lines, as `Plan::of_marks` leaves it.
pub fn open_lines(plan: Plan) -> OpenLines
    requires { plan.count ≤ 20 }
    ensures numbers { result.numbers ≡ pad_to 20 (open_lines (rows plan)) }
    ensures count { result.count ≡ length (open_lines (rows plan)) }
{
    let mut numbers = [0u8; 20];
    let mut count = 0;
    for i in 0..plan.count {
        if plan.marks[i] == Plan::OPEN {
            numbers[count] = i as u8;
            count += 1;
        }
    }
    OpenLines { numbers, count }
}
