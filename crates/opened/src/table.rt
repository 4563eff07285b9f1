// An opened table.
ghost use Rattle.std.specs.Prelude.{◌≡◌};
ghost use Rattle.opened.specs.Numbers.{numbers_of};

use reading::Summary;
use terms::Refusal;

// The bytes as they were handed in, with what reading finds in them: V, N, the number of choices and B, or why they are turned away.
#[derive(Clone, Copy)]
pub struct Table<'a> {
    pub bytes: &'a [u8],
    pub found: Result<Summary, Refusal>,
}

impl<'a> Table<'a> {
    // V, N, the number of choices and B, each 0 where the bytes are turned away.
    #[tactic(auto, unfolding(crate::specs::Numbers::numbers_of))]
    pub fn numbers(self) -> Summary
        ensures { result ≡ numbers_of self.entry.found }
    {
        match self.found {
            Ok(numbers) => numbers,
            Err(_) => Summary {
                variables: 0,
                records: 0,
                choices: 0,
                scale: 0,
            },
        }
    }
}
