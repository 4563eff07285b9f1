// Where the file and the plan of a line go.
ghost use Rattle.std.specs.Prelude.{◌≡◌, []};

use arrayvec::ArrayVec;

// The bytes of the file and the marks of the plan, as many as there is room for.
#[derive(Drop)]
pub struct Buffers {
    file: ArrayVec<u8, 1400>,
    plan: ArrayVec<u8, 40>,
}

impl Buffers {
    // Empty buffers.
    pub fn new() -> Buffers
        ensures file { result.file.items ≡ [] }
        ensures plan { result.plan.items ≡ [] }
    {
        Buffers {
            file: ArrayVec::new(),
            plan: ArrayVec::new(),
        }
    }

    // Takes out what has come.
    pub fn clear(&mut self)
        ensures file { self.new.file.items ≡ [] }
        ensures plan { self.new.plan.items ≡ [] }
    {
        self.file.clear();
        self.plan.clear();
    }

    // The bytes of the file that have come.
    pub fn file(&self) -> &[u8]
        ensures { result.now ≡ self.now.file.items }
    {
        self.file.as_slice()
    }

    // The marks of the plan that have come.
    pub fn plan(&self) -> &[u8]
        ensures { result.now ≡ self.now.plan.items }
    {
        self.plan.as_slice()
    }

    // Takes a byte of the file, if there is room.
    pub(crate) fn push_byte(&mut self, b: u8) {
        let _ = self.file.try_push(b);
    }

    // Takes a mark of the plan, if there is room.
    pub(crate) fn push_mark(&mut self, mark: u8) {
        let _ = self.plan.try_push(mark);
    }
}
