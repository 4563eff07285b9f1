// What reading answers.
ghost use Rattle.std.specs.Prelude.{◌≡◌};
ghost use Rattle.reading.specs.Answer.{numbers, numbers_in};

use decoding::Decoded;

// V, N, the number of choices and B of a table.
#[derive(Clone, Copy)]
pub struct Summary {
    pub variables: usize,
    pub records: usize,
    pub choices: usize,
    pub scale: u64,
}

impl Summary {
    // Those of a decoded table.
    pub fn of(table: &Decoded) -> Summary
        ensures { numbers result ≡ numbers_in table.now }
    {
        Summary {
            variables: usize::from(table.variables),
            records: table.records,
            choices: table.choices,
            scale: table.scale,
        }
    }
}
