ghost use Rattle.std.specs.Prelude.{◌≡◌, None};
ghost use Rattle.decoding.specs.Step.{Own, own_of};
ghost use Rattle.decoding.specs.Decoding.{decode};
ghost use Rattle.filter.specs.Layers.{layer_model, layer_looked, layer_held, front_of};
ghost use Rattle.filter.specs.LayerLaw.{LayerLaw};
ghost use Rattle.filter.specs.LayerSound.{layer_lawful};

use crate::filter::Filter;
use decoding::Kind;
use source::{Ending, Source};

// A filter of the kind K over what stands below it.
#[derive(Drop)]
pub struct Layer<K, S> {
    below: S,
    kind: K,
    ended: Option<Ending>,
}

impl<K: Kind, S: Source> Layer<K, S> {
    // A filter that has not ended, over what is given; nothing is taken from that.
    pub fn new(kind: K, below: S) -> Layer<K, S>
        ensures held { layer_held K.holds S.held result ≡ (own_of (K.holds kind) None, S.held below) }
        ensures law { LayerLaw K.step_of S.model }
    {
        Layer {
            below,
            kind,
            ended: None,
        }
    }

    // Makes a step if nothing is ready and the filter has not ended.
    fn fill(&mut self)
        ensures { layer_held K.holds S.held self.new ≡ layer_looked K.step_of S.model (layer_held K.holds S.held self.old) }
    {
        if self.ended.is_none() && self.kind.first().is_none() {
            self.ended = self.kind.step(&mut self.below);
        }
    }

    // The first ready byte, or the ending.
    fn front(&self) -> Result<u8, Ending>
        ensures { result ≡ front_of (K.holds self.now.kind).ready self.now.ended }
    {
        // by cases, so that an ending is made only where it is the answer
        match (self.kind.first(), self.ended) {
            (Some(b), _) => Ok(b),
            (None, Some(ending)) => Err(ending),
            // behind a fill nothing is ready only where it has ended
            (None, None) => Err(Ending::Clean),
        }
    }
}

impl<K: Kind, S: Source> Source for Layer<K, S> {
    ghost Held = { Own K.State × S.Held };

    ghost held = { layer_held K.holds S.held };

    ghost model = { layer_model K.step_of S.model };

    ghost lawful = { layer_lawful K.step_of K.lawful_step S.model S.lawful };

    fn look(&mut self) -> Result<u8, Ending> {
        self.fill();
        self.front()
    }

    // inlined, since it is asked for each byte, also by a filter above
    #[inline]
    fn take(&mut self) -> Result<u8, Ending> {
        self.fill();
        let next = self.front();
        self.kind.pop();
        next
    }
}

impl<K: Kind + Drop, S: Source> Filter for Layer<K, S> {
    type Below = S;

    const MOST: usize = K::MOST;

    ghost MOST = { K.MOST };

    ghost under = { λ l. l.below };

    ghost ready = { λ l. (K.holds l.kind).ready };

    ghost compared = { λ l. (K.holds l.kind).compared };

    ghost ended = { λ l. l.ended };

    ghost decodes = { λ l. decode K.step_of (K.holds l.kind).kind (K.holds l.kind).compared };

    fn held_count(&self) -> usize {
        self.kind.count()
    }

    fn ending(&self) -> Option<Ending> {
        self.ended
    }

    fn into_below(self) -> S {
        self.below
    }
}
