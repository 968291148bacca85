ghost use Rattle.std.specs.Prelude.{[], ◌++◌};
ghost use Rattle.source.specs.declared.ending.Ending.TheVariants.{Clean};
ghost use Rattle.decoding.specs.Decoding.{decode};
ghost use Rattle.ascii.specs.AsciiHex.{hex_step};
ghost use Rattle.ascii.specs.Ascii85.{a85_step};
ghost use Rattle.eexec.specs.Eexec.{eexec_start, eexec_step};
ghost use Rattle.speed.specs.Deep.{part, four_deep};
ghost use Rattle.speed.specs.Poured.{Poured};

use crate::filling::fill;
use filter::{Ascii85, AsciiHex, Eexec, Kind, Layer, Mark, SubFile};
use source::Memory;

// Decodes memory by a filter of a kind.
fn decode_by<K: Kind + Drop>(kind: K, input: &[u8], output: &mut [u8]) -> usize
    ensures { Poured ((K.holds kind).ready ++ (decode K.step_of (K.holds kind).kind (K.holds kind).compared input.now Clean).bytes) output.old result output.new }
{
    let mut layer = Layer::new(kind, Memory::new(input));
    fill(&mut layer, output)
}

// C knows each kind by a function of its own.

// ASCIIHexDecode over memory.
#[unsafe(no_mangle)]
pub extern "C" fn decode_ascii_hex(input: &[u8], output: &mut [u8]) -> usize
    ensures { Poured (decode hex_step tt [] input.now Clean).bytes output.old result output.new }
{
    decode_by(AsciiHex::new(), input, output)
}

// ASCII85Decode over memory.
#[unsafe(no_mangle)]
pub extern "C" fn decode_ascii_85(input: &[u8], output: &mut [u8]) -> usize
    ensures { Poured (decode a85_step tt [] input.now Clean).bytes output.old result output.new }
{
    decode_by(Ascii85::new(), input, output)
}

// eexec decryption over memory.
#[unsafe(no_mangle)]
pub extern "C" fn decode_eexec(input: &[u8], output: &mut [u8]) -> usize
    ensures { Poured (decode eexec_step eexec_start [] input.now Clean).bytes output.old result output.new }
{
    decode_by(Eexec::new(), input, output)
}

// SubFileDecode over memory, up to the first place of the mark; no byte where the mark is too long.
#[unsafe(no_mangle)]
pub extern "C" fn decode_subfile(mark: &[u8], input: &[u8], output: &mut [u8]) -> usize
    ensures { Poured (part mark.now input.now) output.old result output.new }
{
    let Ok(mark) = Mark::new(mark) else { return 0 };
    decode_by(SubFile::new(0, mark), input, output)
}

// One filter of each kind over memory; no byte where the mark is too long.
#[unsafe(no_mangle)]
pub extern "C" fn decode_four_deep(mark: &[u8], input: &[u8], output: &mut [u8]) -> usize
    ensures { Poured (four_deep mark.now input.now) output.old result output.new }
{
    let Ok(mark) = Mark::new(mark) else { return 0 };
    let first = Layer::new(AsciiHex::new(), Memory::new(input));
    let second = Layer::new(SubFile::new(0, mark), first);
    let third = Layer::new(Ascii85::new(), second);
    let mut fourth = Layer::new(Eexec::new(), third);
    fill(&mut fourth, output)
}
