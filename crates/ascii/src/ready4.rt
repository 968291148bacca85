ghost use Rattle.std.specs.Prelude.{◌≡◌, ◌-◌, ◌<◌, [], length, take};
ghost use Rattle.source.specs.Model.{tail};
ghost use Rattle.decoding.specs.Step.{head_of};
ghost use Rattle.ascii.specs.Ready4.{bytes4, listed};

// Up to four bytes that are ready to be handed up: those from a place on, and none where it is at the end. It is an array
// with a place because a filter's memory is fixed, and because a kind is `Copy`, which an array's own iterator is not.
#[derive(Clone, Copy, Debug, PartialEq, Eq)]
pub struct Ready4 {
    bytes: [u8; 4],
    place: u8,
}

// None is ready; a derived one would hold four zeros.
impl Default for Ready4 {
    ghost is_default = { λ ready. listed ready ≡ [] };

    fn default() -> Ready4 {
        Ready4 {
            bytes: [0; 4],
            place: 4,
        }
    }
}

impl Ready4 {
    // The bytes of a number, the highest first, without so many of the last.
    pub(crate) fn of_number(number: u32, missing: u8) -> Ready4
        requires { missing < 4 }
        ensures { listed result ≡ take (4 - missing) (bytes4 number) }
    {
        let number = number >> (8 * missing);
        Ready4 {
            bytes: number.to_be_bytes(),
            place: missing,
        }
    }

    pub fn first(&self) -> Option<u8>
        ensures { result ≡ head_of (listed self.now) }
    {
        self.bytes.get(usize::from(self.place)).copied()
    }

    // Drops the first, if there is one.
    pub fn pop(&mut self)
        ensures { listed self.new ≡ tail (listed self.old) }
    {
        self.place = self.place.saturating_add(1);
    }

    pub fn count(&self) -> usize
        ensures { result ≡ length (listed self.now) }
    {
        self.bytes.len().saturating_sub(usize::from(self.place))
    }
}
