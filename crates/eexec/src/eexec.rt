ghost use Rattle.std.specs.Prelude.{◌≡◌, [], None};
ghost use Rattle.source.specs.Reads.{Reads};
ghost use Rattle.eexec.specs.Eexec.{EexecState, eexec_state, eexec_holds, answer_of, begin_of, eexec_step};
ghost use Rattle.eexec.specs.EexecExamples.{EexecExamples};
ghost use Rattle.eexec.specs.EexecLaw.{EexecLaw};
ghost use Rattle.eexec.specs.EexecSound.{eexec_lawful, eexec_within};

use crate::cipher::Cipher;
use crate::cipherbytes::Form;
use crate::head::{hex_bytes, take_head};
use decoding::{Kind, ending_above};
use source::{Ending, Source};

// Decryption of eexec data, the first four plain bytes dropped.
#[derive(Clone, Copy, Debug, PartialEq, Eq)]
pub struct Eexec {
    // not known before the first step
    form: Option<Form>,
    cipher: Cipher,
    ready: Option<u8>,
}

impl Eexec {
    #[tactic(auto, using(crate::proofs::EexecLawful::eexec_law, crate::proofs::EexecLawful::eexec_worked))]
    pub fn new() -> Eexec
        ensures holds { eexec_holds result ≡ record { ready = []; compared = []; kind = record { form = None; key = 55665 } } }
        ensures laws { EexecLaw }
        ensures examples { EexecExamples }
    {
        Eexec {
            form: None,
            cipher: Cipher::new(55665),
            ready: None,
        }
    }

    // Tells the form, drops four plain bytes and goes on to the fifth.
    fn begin<S: Source>(&mut self, below: &mut S) -> Result<u8, Ending>
        ensures { Reads S.model (begin_of (eexec_state self.old)) (S.held below.old) (answer_of (eexec_state self.new) result) (S.held below.new) }
    {
        let head = take_head(below).map_err(ending_above)?;
        match hex_bytes(head) {
            Some(bytes) => {
                self.form = Some(Form::Hex);
                self.cipher.pass(&bytes);
                self.cipher.next_hex(2, below)
            }
            None => {
                self.form = Some(Form::Binary);
                self.cipher.pass(&head);
                self.cipher.next_binary(below)
            }
        }
    }
}

impl Kind for Eexec {
    const MOST: usize = 1;

    ghost MOST = { 1 };

    ghost State = { EexecState };

    ghost holds = { eexec_holds };

    ghost step_of = { eexec_step };

    ghost lawful_step = { eexec_lawful };

    ghost within = { eexec_within };

    fn step<S: Source>(&mut self, below: &mut S) -> Option<Ending> {
        let next = match self.form {
            None => self.begin(below),
            Some(Form::Hex) => self.cipher.next_hex(0, below),
            Some(Form::Binary) => self.cipher.next_binary(below),
        };
        self.ready = next.ok();
        next.err()
    }

    // The last three are those of `AsciiHex` too: a line each, and a trait or a type for what is ready would have more.
    fn first(&self) -> Option<u8> {
        self.ready
    }

    fn pop(&mut self) {
        self.ready = None;
    }

    fn count(&self) -> usize {
        usize::from(self.ready.is_some())
    }
}
