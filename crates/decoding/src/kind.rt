ghost use Rattle.std.specs.Prelude.{◌≡◌, ℕ, ◌+◌, ◌≤◌, length};
ghost use Rattle.source.specs.Reads.{Reads};
ghost use Rattle.decoding.specs.Step.{Holds, StepOf, LawfulStep, own_of, step_from, popped, head_of};

use source::{Ending, Source};

// A way to decode, in steps.
pub trait Kind {
    // The most bytes that a filter of this kind ever holds; contracts know it by the same name.
    const MOST: usize;

    ghost MOST: { ℕ };

    // what its steps depend on besides the bytes compared
    ghost State: { Type 0 };

    // the bytes ready, the bytes compared, and its state
    ghost holds: { Self → Holds State };

    // what a step does
    ghost step_of: { StepOf State };

    // Makes a step: what was ready is dropped, bytes become ready, or the filter ends, or both.
    fn step<S: Source>(&mut self, below: &mut S) -> Option<Ending>
        ensures { Reads S.model (step_from step_of (holds self.old)) (S.held below.old) (own_of (holds self.new) result) (S.held below.new) };

    // The byte that is ready first.
    fn first(&self) -> Option<u8>
        ensures { result ≡ head_of (holds self.now).ready };

    // Hands the first ready byte up; where none is ready nothing changes.
    fn pop(&mut self)
        ensures { holds self.new ≡ popped (holds self.old) };

    // How many bytes are held, ready or compared.
    fn count(&self) -> usize
        ensures { result ≡ length (holds self.now).ready + length (holds self.now).compared };

    // that a step leaves a byte ready or an ending, and goes on behind what it took
    ghost lawful_step: { LawfulStep State step_of };

    // that it never holds more than the most
    ghost within: { (k : Self) → length (holds k).ready + length (holds k).compared ≤ MOST };
}
