// What a line says.
ghost use Rattle.std.specs.Prelude.{◌≡◌, ◌↔◌, IsTrue};
ghost use Rattle.case_lines.specs.declared.line.Part.TheVariants.{Label};

use crate::buffers::Buffers;

// What the next byte of a line belongs to.
#[derive(Clone, Copy, PartialEq, Eq)]
enum Part {
    Label,
    Service,
    File,
    Plan,
    Size,
    Percent,
    Kits,
}

// A line of the input, as far as it has come: the letter of the service and the numbers. The file and the plan are in the buffers.
#[derive(Clone, Copy)]
pub struct Line {
    part: Part,
    pub service: u8,
    // The upper half of the file's next byte.
    half: Option<u8>,
    pub size: u32,
    pub percent: u32,
    pub kits: u32,
}

impl Line {
    pub fn new() -> Line {
        Line {
            part: Part::Label,
            service: 0,
            half: None,
            size: 0,
            percent: 0,
            kits: 0,
        }
    }

    // Whether the label has not ended yet.
    pub fn in_label(&self) -> bool
        ensures { IsTrue result ↔ self.now.part ≡ Label }
    {
        self.part == Part::Label
    }

    // Takes a byte. What it says of the file or the plan goes to the buffers. In the loop over the input's bytes a call took longer by a
    // fifth.
    #[inline(always)]
    pub fn push(&mut self, b: u8, buffers: &mut Buffers) {
        match self.part {
            Part::Label => if b == b':' {
                self.part = Part::Service;
            },
            Part::Service => if b != b' ' {
                self.service = b;
                self.part = Part::File;
            },
            Part::File => self.push_half(b, buffers),
            Part::Plan => self.push_mark(b, buffers),
            Part::Size => self.push_digit(b, Part::Percent),
            Part::Percent | Part::Kits => self.push_digit(b, Part::Kits),
        }
    }

    // A digit of the file, a space, or the bar before the plan.
    fn push_half(&mut self, b: u8, buffers: &mut Buffers) {
        if b == b'|' {
            self.part = Part::Plan;
        } else if let Some(lower) = digit(b) {
            match self.half {
                Some(upper) => {
                    buffers.push_byte(upper << 4 | lower);
                    self.half = None;
                }
                None => self.half = Some(lower),
            }
        }
    }

    // A mark of the plan, a space, or the bar before the numbers.
    fn push_mark(&mut self, b: u8, buffers: &mut Buffers) {
        if b == b'|' {
            self.part = Part::Size;
        } else if let Some(mark) = digit(b) {
            buffers.push_mark(mark);
        }
    }

    // A digit of a number, a space, or the comma before the next part.
    fn push_digit(&mut self, b: u8, next: Part) {
        if b == b',' {
            self.part = next;
        } else if let Some(d) = char::from(b).to_digit(10) {
            match self.part {
                Part::Size => self.size = append(self.size, d),
                Part::Percent => self.percent = append(self.percent, d),
                _ => self.kits = append(self.kits, d),
            }
        }
    }
}

// A number with one more decimal digit, as long as it has 32 bits.
fn append(n: u32, d: u32) -> u32 {
    n.checked_mul(10)
        .and_then(|tens| tens.checked_add(d))
        .unwrap_or(n)
}

// The value of a hexadecimal digit.
fn digit(b: u8) -> Option<u8> {
    char::from(b).to_digit(16).map(|d| d as u8)
}
