ghost use Rattle.std.specs.Prelude.{◌≡◌};
ghost use Rattle.subfile.specs.Marks.{mark_of};
ghost use Rattle.eexec.specs.Eexec.{eexec_start};
ghost use Rattle.filter.specs.AnyKinds.{AnyState, in_hex, in_groups, in_part, in_cipher, at_start, any_holds, any_step};
ghost use Rattle.filter.specs.AnyKindsLaw.{AnyKindsLaw};
ghost use Rattle.filter.specs.AnyKindsSound.{any_lawful, any_within};

use ascii::{Ascii85, AsciiHex};
use decoding::Kind;
use eexec::Eexec;
use source::{Ending, Source};
use subfile::{Mark, SubFile};

// One of the kinds of filter. It is an enum and no boxed `dyn`, since a filter has no heap, and since a step is generic over
// what stands below; so each method below is a match that hands over to the kind.
#[derive(Clone, Copy)]
pub enum AnyKind {
    AsciiHex(AsciiHex),
    Ascii85(Ascii85),
    SubFile(SubFile),
    Eexec(Eexec),
}

#[tactic(auto, using(crate::proofs::AnyKindsLawful::any_kinds_law))]
impl AnyKind {
    // ASCIIHexDecode, from its start.
    pub fn ascii_hex() -> AnyKind
        ensures holds { any_holds result ≡ at_start (in_hex tt) }
        ensures law { AnyKindsLaw }
    {
        AnyKind::AsciiHex(AsciiHex::new())
    }

    // ASCII85Decode, from its start.
    pub fn ascii_85() -> AnyKind
        ensures holds { any_holds result ≡ at_start (in_groups tt) }
        ensures law { AnyKindsLaw }
    {
        AnyKind::Ascii85(Ascii85::new())
    }

    // SubFileDecode with this count and mark, from its start.
    pub fn subfile(count: u32, mark: Mark) -> AnyKind
        ensures holds { any_holds result ≡ at_start (in_part (record { count = count; mark = mark_of mark })) }
        ensures law { AnyKindsLaw }
    {
        AnyKind::SubFile(SubFile::new(count, mark))
    }

    // eexec decryption, from its start.
    pub fn eexec() -> AnyKind
        ensures holds { any_holds result ≡ at_start (in_cipher eexec_start) }
        ensures law { AnyKindsLaw }
    {
        AnyKind::Eexec(Eexec::new())
    }
}

impl Kind for AnyKind {
    const MOST: usize = 16;

    ghost MOST = { 16 };

    ghost State = { AnyState };

    ghost holds = { any_holds };

    ghost step_of = { any_step };

    ghost lawful_step = { any_lawful };

    ghost within = { any_within };

    fn step<S: Source>(&mut self, below: &mut S) -> Option<Ending> {
        match self {
            AnyKind::AsciiHex(kind) => kind.step(below),
            AnyKind::Ascii85(kind) => kind.step(below),
            AnyKind::SubFile(kind) => kind.step(below),
            AnyKind::Eexec(kind) => kind.step(below),
        }
    }

    fn first(&self) -> Option<u8> {
        match self {
            AnyKind::AsciiHex(kind) => kind.first(),
            AnyKind::Ascii85(kind) => kind.first(),
            AnyKind::SubFile(kind) => kind.first(),
            AnyKind::Eexec(kind) => kind.first(),
        }
    }

    fn pop(&mut self) {
        match self {
            AnyKind::AsciiHex(kind) => kind.pop(),
            AnyKind::Ascii85(kind) => kind.pop(),
            AnyKind::SubFile(kind) => kind.pop(),
            AnyKind::Eexec(kind) => kind.pop(),
        }
    }

    fn count(&self) -> usize {
        match self {
            AnyKind::AsciiHex(kind) => kind.count(),
            AnyKind::Ascii85(kind) => kind.count(),
            AnyKind::SubFile(kind) => kind.count(),
            AnyKind::Eexec(kind) => kind.count(),
        }
    }
}
