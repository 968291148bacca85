ghost use Rattle.std.specs.Prelude.{◌≡◌, []};
ghost use Rattle.source.specs.Reads.{Reads};
ghost use Rattle.subfile.specs.Marks.{mark_of};
ghost use Rattle.decoding.specs.Step.{own_of};
ghost use Rattle.subfile.specs.SubFile.{SubState, sub_holds, judged, counted_own, instance_own, byte_at, mark_from, sub_step};
ghost use Rattle.subfile.specs.SubFileSound.{sub_lawful, sub_within};
ghost use Rattle.subfile.specs.SubFileLaw.{SubFileLaw};
ghost use Rattle.subfile.specs.SubFileExamples.{SubFileExamples};

use crate::mark::Mark;
use crate::window::Window;
use decoding::{Kind, ending_above, ending_passed};
use source::{Ending, Source};

// How the bytes held stand to the mark. It is named, and not told from the answer of `strip_prefix` where it is needed, since
// it is what the definition `judged` says.
#[derive(Clone, Copy, Debug, PartialEq, Eq)]
enum Match {
    // a proper start of it, or none
    Starts,
    Equals,
    Fails,
}

// SubFileDecode: the data up to a mark, or up to the last of a number of marks or bytes.
#[derive(Clone, Copy)]
pub struct SubFile {
    count: u32,
    mark: Mark,
    held: Window,
}

// Compares the bytes held with the mark.
fn judge(mark: &[u8], held: &[u8]) -> Match
    ensures { result ≡ judged mark.now held.now }
{
    for (i, h) in held.iter().enumerate() {
        let Some(m) = mark.get(i) else {
            return Match::Fails
        };
        if m != h {
            return Match::Fails;
        }
    }
    if held.len() < mark.len() {
        Match::Starts
    } else {
        Match::Equals
    }
}

impl SubFile {
    #[tactic(auto, using(crate::proofs::SubFileLawful::sub_laws, crate::proofs::SubFileExampled::sub_examples))]
    pub fn new(count: u32, mark: Mark) -> SubFile
        ensures holds { sub_holds result ≡ record { ready = []; compared = []; kind = record { count = count; mark = mark_of mark } } }
        ensures laws { SubFileLaw }
        ensures examples { SubFileExamples }
    {
        SubFile {
            count,
            mark,
            held: Window::empty(),
        }
    }

    // Counts what is ready as one; the last one ends the filter. A count of 0 counts nothing.
    fn count_one(&mut self) -> Option<Ending>
        ensures { own_of (sub_holds self.new) result ≡ counted_own (sub_holds self.old) }
    {
        self.count = self.count.checked_sub(1)?;
        (self.count == 0).then_some(Ending::Clean)
    }

    // The bytes held are the mark.
    fn instance(&mut self) -> Option<Ending>
        ensures { own_of (sub_holds self.new) result ≡ instance_own (sub_holds self.old) }
    {
        if self.count == 0 {
            self.held = Window::empty();
            return Some(Ending::Clean);
        }
        self.held.release();
        self.count_one()
    }

    // Without a mark: takes one byte.
    fn next_byte<S: Source>(&mut self, below: &mut S) -> Option<Ending>
        ensures { Reads S.model (byte_at (sub_holds self.old).kind) (S.held below.old) (own_of (sub_holds self.new) result) (S.held below.new) }
    {
        match below.take() {
            Ok(b) => {
                self.held = Window::one(b);
                self.count_one()
            }
            Err(ending) => {
                self.held = Window::empty();
                Some(if self.count == 0 {
                    ending_passed(ending)
                } else {
                    ending_above(ending)
                })
            }
        }
    }

    // With a mark: takes bytes while those held are a proper start of it.
    fn compare<S: Source>(&mut self, below: &mut S) -> Option<Ending>
        ensures { Reads S.model (mark_from (sub_holds self.old)) (S.held below.old) (own_of (sub_holds self.new) result) (S.held below.new) }
    {
        self.held.settle();
        loop {
            match judge(self.mark.as_slice(), self.held.compared()) {
                Match::Starts => {}
                Match::Equals => return self.instance(),
                Match::Fails => {
                    self.held.release_first();
                    return None;
                }
            }
            match below.take() {
                Ok(b) => self.held.hold(b),
                Err(ending) => {
                    self.held.release();
                    return Some(ending_above(ending));
                }
            }
        }
    }
}

impl Kind for SubFile {
    const MOST: usize = 16;

    ghost MOST = { 16 };

    ghost State = { SubState };

    ghost holds = { sub_holds };

    ghost step_of = { sub_step };

    ghost lawful_step = { sub_lawful };

    ghost within = { sub_within };

    fn step<S: Source>(&mut self, below: &mut S) -> Option<Ending> {
        if self.mark.as_slice().is_empty() {
            self.next_byte(below)
        } else {
            self.compare(below)
        }
    }

    fn first(&self) -> Option<u8> {
        self.held.first()
    }

    fn pop(&mut self) {
        self.held.pop();
    }

    fn count(&self) -> usize {
        self.held.count()
    }
}
