ghost use Rattle.std.specs.Prelude.{◌≡◌, Some, None};

use source::Ending;

// What a step made: the bytes that are ready to be handed up, in the form in which the decoder keeps them, and the ending if
// it ended.
#[derive(Clone, Copy, Debug, PartialEq, Eq)]
pub struct Made<R> {
    pub ready: R,
    pub ended: Option<Ending>,
}

impl<R> Made<R> {
    // Bytes, and no ending.
    pub fn more(ready: R) -> Made<R>
        ensures { result ≡ record { ready = ready; ended = None } }
    {
        Made { ready, ended: None }
    }
}

impl<R: Default> Made<R> {
    // An ending and no byte.
    pub fn end(ending: Ending) -> Made<R>
        ensures ready { R.is_default result.ready }
        ensures ended { result.ended ≡ Some ending }
    {
        Made {
            ready: R::default(),
            ended: Some(ending),
        }
    }
}
