ghost use Rattle.std.specs.Prelude.{◌≡◌};
ghost use Rattle.eexec.specs.Cipher.{plain_of, key_after, keys_after};

// The cipher of Type 1 fonts, at its present key.
#[derive(Clone, Copy, Debug, PartialEq, Eq)]
pub struct Cipher {
    key: u16,
}

impl Cipher {
    pub fn new(key: u16) -> Cipher
        ensures { result.key ≡ key }
    {
        Cipher { key }
    }

    // The plain byte of the next cipher byte, by which the key changes.
    pub fn decipher(&mut self, c: u8) -> u8
        ensures plain { result ≡ plain_of self.old.key c }
        ensures key { self.new.key ≡ key_after self.old.key c }
    {
        let [high, _] = self.key.to_be_bytes();
        let plain = c ^ high;
        self.key = u16::from(c)
            .wrapping_add(self.key)
            .wrapping_mul(52845)
            .wrapping_add(22719);
        plain
    }

    // Deciphers bytes whose plain bytes are dropped.
    pub(crate) fn pass(&mut self, bytes: &[u8])
        ensures { self.new.key ≡ keys_after self.old.key bytes.now }
    {
        for c in bytes {
            self.decipher(*c);
        }
    }
}
