ghost use Rattle.std.specs.Prelude.{◌≡◌, ℕ, ◌+◌, ◌-◌, ◌*◌, ◌<◌, List, [], length, None};
ghost use Rattle.source.specs.Reads.{Reads};
ghost use Rattle.ascii.specs.Made.{own_made};
ghost use Rattle.ascii.specs.Ready4.{listed};
ghost use Rattle.ascii.specs.Ascii85.{A85State, a85_holds, byte_85_of, a85_group, a85_zeros, a85_last, a85_mark, a85_close, a85_at, a85_step, Pending};
ghost use Rattle.ascii.specs.Ascii85Sound.{a85_lawful, a85_within};
ghost use Rattle.ascii.specs.Ascii85Law.{Ascii85Law};
ghost use Rattle.ascii.specs.Ascii85Examples.{Ascii85Examples};

use crate::made::Made;
use crate::ready4::Ready4;
use decoding::{Kind, ending_above};
use source::{Damage, Ending, Source, is_white};

// What a byte is in base-85 data.
#[derive(Clone, Copy, Debug, PartialEq, Eq)]
enum Byte85 {
    // by its value, 0 to 84
    Digit(u8),
    White,
    // `z`
    Zero,
    // `~`
    Tilde,
    Stray,
}

// ASCII85Decode: five digits in base 85 to four bytes, up to `~>`.
#[derive(Clone, Copy, Debug, PartialEq, Eq)]
pub struct Ascii85 {
    ready: Ready4,
}

impl Ascii85 {
    #[tactic(auto, using(crate::proofs::Ascii85Lawful::a85_law, crate::proofs::Ascii85Lawful::a85_worked))]
    pub fn new() -> Ascii85
        ensures holds { a85_holds result ≡ record { ready = []; compared = []; kind = tt } }
        ensures laws { Ascii85Law }
        ensures examples { Ascii85Examples }
    {
        Ascii85 {
            ready: Ready4::default(),
        }
    }
}

// What a byte is: a digit from `!` to `u`, `z`, `~`, a white byte, or a stray one.
fn byte_of(b: u8) -> Byte85
    ensures { result ≡ byte_85_of b }
{
    // most bytes are digits, and are told before all others
    if matches!(b, b'!'..=b'u') {
        return Byte85::Digit(b - b'!');
    }
    match b {
        b'z' => Byte85::Zero,
        b'~' => Byte85::Tilde,
        _ if is_white(b) => Byte85::White,
        _ => Byte85::Stray,
    }
}

// What a group with the number v makes, of whose bytes so many of the last are missing.
fn made_of(v: u64, missing: u8, ended: Option<Ending>) -> Made<Ready4>
    requires { missing < 4 }
    ensures { own_made listed tt result ≡ a85_group (4 - missing) v ended }
{
    match u32::try_from(v) {
        Ok(number) => Made {
            ready: Ready4::of_number(number, missing),
            ended,
        },
        Err(_) => Made::end(Ending::Damaged(Damage::Overflow, 0)),
    }
}

// The digits of a group that are pending: how many they are, four at most, and what they are worth.
#[derive(Clone, Copy, Debug, Default, PartialEq, Eq)]
struct Group {
    count: u8,
    value: u32,
}

impl Group {
    // Takes one more digit on, behind three at most.
    fn push(&mut self, digit: u8)
        requires few { self.old.count < 4 }
        requires low { self.old.value < 614125 }
        ensures { self.new ≡ record { count = self.old.count + 1; value = self.old.value * 85 + digit } }
    {
        self.count += 1;
        self.value = self.value * 85 + u32::from(digit);
    }

    // What four digits and a fifth make.
    fn whole(self, digit: u8) -> Made<Ready4>
        ensures { own_made listed tt result ≡ a85_group 4 (self.value * 85 + digit) None }
    {
        made_of(u64::from(self.value) * 85 + u64::from(digit), 0, None)
    }

    // What they make at the end of the data: two to four are filled up with digits 84 to five.
    fn last(self) -> Made<Ready4>
        ensures { (digits : List ℕ) → Pending digits self → own_made listed tt result ≡ a85_last digits }
    {
        let v = u64::from(self.value);
        match self.count {
            0 => Made::end(Ending::Clean),
            1 => Made::end(Ending::Damaged(Damage::LoneDigit, 0)),
            2 => made_of(v * 614125 + 614124, 3, Some(Ending::Clean)),
            3 => made_of(v * 7225 + 7224, 2, Some(Ending::Clean)),
            _ => made_of(v * 85 + 84, 1, Some(Ending::Clean)),
        }
    }

    // What `z` makes behind them.
    fn zeros(self) -> Made<Ready4>
        ensures { (digits : List ℕ) → self.count ≡ length digits → own_made listed tt result ≡ a85_zeros digits }
    {
        if self.count == 0 {
            made_of(0, 0, None)
        } else {
            Made::end(Ending::Damaged(Damage::Stray, 0))
        }
    }

    // What they make behind `~`.
    fn close<S: Source>(self, below: &mut S) -> Made<Ready4>
        ensures { (digits : List ℕ) → Pending digits self → Reads S.model (a85_close digits) (S.held below.old) (own_made listed tt result) (S.held below.new) }
    {
        match take_mark(below) {
            Ok(()) => self.last(),
            Err(ending) => Made::end(ending),
        }
    }
}

// Takes what stands behind `~` up to `>`, or answers how it ends where `>` does not come.
fn take_mark<S: Source>(below: &mut S) -> Result<(), Ending>
    ensures { Reads S.model a85_mark (S.held below.old) result (S.held below.new) }
{
    loop {
        match below.take() {
            Ok(b'>') => return Ok(()),
            Ok(b) if is_white(b) => {}
            Ok(_) => return Err(Ending::Damaged(Damage::Stray, 0)),
            Err(ending) => return Err(ending_above(ending)),
        }
    }
}

// Takes a group, or up to the end of the data. An ending from below is not passed on by `?`: what ends a step is made into what
// the step made, a `Made`.
fn next_group<S: Source>(below: &mut S) -> Made<Ready4>
    ensures { Reads S.model (a85_at []) (S.held below.old) (own_made listed tt result) (S.held below.new) }
{
    let mut group = Group::default();
    loop {
        let b = match below.take() {
            Ok(b) => b,
            Err(ending) => return Made::end(ending_above(ending)),
        };
        match byte_of(b) {
            Byte85::White => {}
            Byte85::Digit(d) if group.count == 4 => return group.whole(d),
            Byte85::Digit(d) => group.push(d),
            Byte85::Zero => return group.zeros(),
            Byte85::Tilde => return group.close(below),
            Byte85::Stray => return Made::end(Ending::Damaged(Damage::Stray, 0)),
        }
    }
}

impl Kind for Ascii85 {
    const MOST: usize = 4;

    ghost MOST = { 4 };

    ghost State = { A85State };

    ghost holds = { a85_holds };

    ghost step_of = { a85_step };

    ghost lawful_step = { a85_lawful };

    ghost within = { a85_within };

    fn step<S: Source>(&mut self, below: &mut S) -> Option<Ending> {
        let made = next_group(below);
        self.ready = made.ready;
        made.ended
    }

    fn first(&self) -> Option<u8> {
        self.ready.first()
    }

    fn pop(&mut self) {
        self.ready.pop();
    }

    fn count(&self) -> usize {
        self.ready.count()
    }
}
