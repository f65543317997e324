//! How a secret is drawn.
ghost use Rattle.std.specs.Prelude.{◌≡◌};
ghost use Rattle.amt_ports.specs.Causes.{HasCause};
ghost use Rattle.relay_serving.specs.{Drawing.{DrawsSecret, HasDrawn}, Events.{secret_by}};

use amt_ports::{Failed, Words};
use byteorder::{BigEndian, ByteOrder};
use response_mac::Secret;

// So many words are a secret.
const WORDS: usize = 4;

fn draw_words<W: Words>(source: &mut W) -> Result<[u64; WORDS], Failed>
    ensures drawn { HasDrawn (W.given source.old) (W.given source.new) result }
    ensures cause { HasCause (W.faults source.old) (W.faults source.new) result }
{
    let one = source.word()?;
    let two = source.word()?;
    let three = source.word()?;
    let four = source.word()?;
    Ok([one, two, three, four])
}

fn secret_of(words: &[u64; WORDS]) -> Secret
    ensures { result ≡ secret_by words.now }
{
    let mut octets = [0; 8 * WORDS];
    BigEndian::write_u64_into(words, &mut octets);
    Secret(octets)
}

/// Draws a secret of four words, each of 8 octets from the most significant one on (RFC 7450, section
/// 5.3.6).
pub(crate) fn draw_secret<W: Words>(source: &mut W) -> Result<Secret, Failed>
    ensures drawn { DrawsSecret (W.given source.old) (W.given source.new) result }
    ensures cause { HasCause (W.faults source.old) (W.faults source.new) result }
{
    let words = draw_words(source)?;
    Ok(secret_of(&words))
}
