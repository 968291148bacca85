#![tactic(auto, using(crate::proofs::PartsUses::part_none, crate::proofs::PartsUses::part_others, crate::proofs::PartsUses::part_moved), unfolding(crate::specs::Holding::ready_of, crate::specs::Holding::compared_of, crate::specs::Holding::filled_of))]

ghost use Rattle.std.specs.Prelude.{◌≡◌, ◌+◌, ◌<◌, ◌≤◌, [], ◌∷◌, ◌++◌, length, take, drop};
ghost use Rattle.source.specs.Model.{tail};

// The bytes that a filter holds: those from `from` on are ready, and those from `ready` up to `all` are compared. They stand
// in an array, as those of a mark do, since a filter has a fixed size and takes no memory elsewhere; `ArrayVec` of the
// kit is not `Copy`.
#[derive(Clone, Copy)]
pub struct Window {
    bytes: [u8; 16],
    from: usize,
    ready: usize,
    all: usize,
    ghost ok: { (from ≤ ready) × (ready ≤ all) × (all ≤ 16) × (length bytes ≡ 16) },
}

impl Window {
    ghost use Rattle.decoding.specs.Step.{head_of};
    ghost use Rattle.subfile.specs.Holding.{ready_of, compared_of, filled_of};

    pub(crate) fn empty() -> Window
        ensures ready { ready_of result ≡ [] }
        ensures compared { compared_of result ≡ [] }
    {
        Window {
            bytes: [0; 16],
            from: 0,
            ready: 0,
            all: 0,
        }
    }

    // One byte that is ready. A literal as in `empty`, which is shorter than to hold and release the byte.
    pub(crate) fn one(b: u8) -> Window
        ensures ready { ready_of result ≡ b ∷ [] }
        ensures compared { compared_of result ≡ [] }
    {
        Window {
            bytes: [b; 16],
            from: 0,
            ready: 1,
            all: 1,
        }
    }

    // The byte that is ready first.
    pub(crate) fn first(&self) -> Option<u8>
        ensures { result ≡ head_of (ready_of self.now) }
    {
        // by one comparison: a part of the array and its first element take two
        (self.from < self.ready).then(|| self.bytes[self.from])
    }

    // Hands the first ready byte up; where none is ready nothing changes.
    pub(crate) fn pop(&mut self)
        ensures ready { ready_of self.new ≡ tail (ready_of self.old) }
        ensures compared { compared_of self.new ≡ compared_of self.old }
    {
        if self.from < self.ready {
            self.from += 1;
        }
    }

    pub(crate) fn count(&self) -> usize
        ensures { result ≡ length (ready_of self.now) + length (compared_of self.now) }
    {
        self.all - self.from
    }

    pub(crate) fn compared(&self) -> &[u8]
        ensures { result.now ≡ compared_of self.now }
    {
        &self.bytes[self.ready..self.all]
    }

    // Drops what is ready and moves what is compared to the front.
    pub(crate) fn settle(&mut self)
        ensures ready { ready_of self.new ≡ [] }
        ensures compared { compared_of self.new ≡ compared_of self.old }
        ensures filled { filled_of self.new ≡ length (compared_of self.new) }
    {
        let count = self.all - self.ready;
        self.bytes.copy_within(self.ready..self.all, 0);
        self.from = 0;
        self.ready = 0;
        self.all = count;
    }

    // Holds a byte that is compared.
    pub(crate) fn hold(&mut self, b: u8)
        requires { filled_of self.old < 16 }
        ensures ready { ready_of self.new ≡ ready_of self.old }
        ensures compared { compared_of self.new ≡ compared_of self.old ++ b ∷ [] }
        ensures filled { filled_of self.new ≡ filled_of self.old + 1 }
    {
        self.bytes[self.all] = b;
        self.all += 1;
    }

    // Makes all that is compared ready, in place of what was.
    pub(crate) fn release(&mut self)
        ensures ready { ready_of self.new ≡ compared_of self.old }
        ensures compared { compared_of self.new ≡ [] }
    {
        self.from = self.ready;
        self.ready = self.all;
    }

    // Makes the byte ready that is compared first, in place of what was.
    pub(crate) fn release_first(&mut self)
        ensures ready { ready_of self.new ≡ take 1 (compared_of self.old) }
        ensures compared { compared_of self.new ≡ drop 1 (compared_of self.old) }
    {
        self.from = self.ready;
        if self.ready < self.all {
            self.ready += 1;
        }
    }
}
