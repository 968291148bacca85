ghost use Rattle.std.specs.Prelude.{◌≡◌};
ghost use Rattle.std.specs.Option.{option_map};
ghost use Rattle.listing.specs.Words.{kind_word};

use scanner::Kind;

// The word of a kind in a token's line; the end has a line of its own.
pub(crate) fn word_of(kind: Kind) -> Option<&'static str>
    ensures { option_map (λ x. x.now) result ≡ kind_word kind }
{
    match kind {
        Kind::End => None,
        _ => Some(kind.word()),
    }
}
