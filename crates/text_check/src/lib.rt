// What is asked of all of a text before its tokens: 1, then 2.
#![tactic(auto)]

ghost use Rattle.std.specs.Prelude.{◌≡◌};
ghost use Rattle.text_check.specs.TextAnswers.{text_told, passing};

use refusal::limit::MOST_BYTES;
use refusal::{Refusal, RefusalKind};
use utf8::first_bad;

pub fn check_text(text: &[u8]) -> Result<(), Refusal>
    ensures { text_told result ≡ passing text.now }
{
    if MOST_BYTES < text.len() {
        return Err(Refusal {
            kind: RefusalKind::TooLong,
            place: 0,
        });
    }
    let bad = first_bad(text);
    if bad == text.len() {
        return Ok(());
    }
    Err(Refusal {
        kind: RefusalKind::NotUtf8,
        place: bad,
    })
}
