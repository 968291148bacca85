ghost use Rattle.std.specs.Prelude.{◌≡◌, ◌*◌, ◌<◌, length};
ghost use Rattle.source.specs.Bytes.{hex_digit};
ghost use Rattle.listing.specs.Shown.{hexadecimal};

// A hexadecimal digit, with a capital letter; as the figures of `decimals`, by code of this crate.
fn hex_digit(d: u8) -> u8
    requires { d < 16 }
    ensures { result ≡ hex_digit d }
{
    if d < 10 { b'0' + d } else { b'A' + (d - 10) }
}

// Writes a string into a place of just the size of its digits: two for each byte, the high half first.
pub(crate) fn write_pairs(place: &mut [u8], content: &[u8])
    requires { length place.old ≡ 2 * length content.now }
    ensures { place.new ≡ hexadecimal content.now }
{
    for (i, b) in content.iter().enumerate() {
        place[2 * i] = hex_digit(*b / 16);
        place[2 * i + 1] = hex_digit(*b % 16);
    }
}
