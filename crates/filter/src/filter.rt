ghost use Rattle.std.specs.Prelude.{◌≡◌, ℕ, ◌+◌, ◌≤◌, List, ◌++◌, length, Option};
ghost use Rattle.source.specs.declared.ending.Ending.{Ending};
ghost use Rattle.decoding.specs.Decoding.{Decoding};
ghost use Rattle.filter.specs.Layers.{bytes_ahead, ending_ahead};

use source::{Ending, Source};

// A source that decodes another one, which stands below it. It says three things more: what stands below, how many
// decoded bytes it holds, and the most that it ever holds.
pub trait Filter: Source {
    // What stands below.
    type Below: Source;

    // The most bytes that it ever holds; contracts know it by the same name.
    const MOST: usize;

    ghost MOST: { ℕ };

    // what stands below, as it is now
    ghost under: { Self → Self.Below };

    // the decoded bytes that it holds: those that are ready, and those that were compared and are not ready yet
    ghost ready: { Self → List ℕ };

    ghost compared: { Self → List ℕ };

    // how it has ended, if it has
    ghost ended: { Self → Option Ending };

    // what it makes of a rest and an ending below, from where it stands
    ghost decodes: { Self → List ℕ → Ending → Decoding };

    // How many decoded bytes it holds. Whenever that is asked: its rest is what is ready and then, unless it has ended,
    // what it makes of the rest and the ending below; and it ends as it has ended, or as that ends.
    fn held_count(&self) -> usize
        ensures is { result ≡ length (ready self.now) + length (compared self.now) }
        ensures few { result ≤ MOST }
        ensures rest { Self.Source.model.rest (Self.Source.held self.now) ≡ ready self.now ++ bytes_ahead (ended self.now) (decodes self.now (Self.Below.Source.model.rest (Self.Below.Source.held (under self.now))) (Self.Below.Source.model.ending (Self.Below.Source.held (under self.now)))) }
        ensures ending { Self.Source.model.ending (Self.Source.held self.now) ≡ ending_ahead (ended self.now) (decodes self.now (Self.Below.Source.model.rest (Self.Below.Source.held (under self.now))) (Self.Below.Source.model.ending (Self.Below.Source.held (under self.now)))) };

    // How it has ended, if it has.
    fn ending(&self) -> Option<Ending>
        ensures { result ≡ ended self.now };

    // Gives back what stands below, as it is; what is held is dropped.
    fn into_below(self) -> Self::Below
        ensures { Self.Below.Source.held result ≡ Self.Below.Source.held (under self) };
}
