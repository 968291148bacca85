ghost use Rattle.std.specs.Prelude.{◌≡◌, true, false};
ghost use Rattle.source.specs.Gone.{gone_to};
ghost use Rattle.scanner.specs.Spaces.{passes, skipped};

use source::{Source, is_white};

// Whether a comment is open behind the byte b, or None where b is not passed over.
fn passing(comment: bool, b: u8) -> Option<bool>
    ensures { result ≡ passes comment b }
{
    if comment {
        Some(!matches!(b, 10 | 12 | 13))
    } else if b == b'%' {
        Some(true)
    } else if is_white(b) {
        Some(false)
    } else {
        None
    }
}

// Passes over white bytes and comments, and looks at what stands behind them.
pub(crate) fn skip<S: Source>(source: &mut S)
    ensures { S.held source.new ≡ gone_to S.model (S.held source.old) (skipped false (S.model.rest (S.held source.old))) true }
{
    let mut comment = false;
    while let Ok(b) = source.look() {
        let Some(open) = passing(comment, b) else {
            return
        };
        comment = open;
        let _ = source.take();
    }
}
