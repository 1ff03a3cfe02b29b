// Numbers of the desk text, by their digits.
ghost use Rattle.std.specs.Prelude.{◌<◌, ◌≤◌, ◌≡◌, length, IfSome};
ghost use Rattle.desktext.specs.Spelling.{largest, last_number};
ghost use Rattle.desktext.specs.Text.{digits, natural, above, below, number_seen};
ghost use Rattle.desktext.specs.Work.{Counts, Finds};

use super::{LARGEST, Token};

// The digit 0, as a byte.
const ZERO: u8 = 48;

// The digits at the front of a text, after those of v, and the text behind them. std's `parse` is no help: it asks for a
// str that ends with the number, and takes a plus and leading zeros.
fn digits(text: &[u8], v: u32) -> Option<(u32, &[u8])>
    requires { v ≤ largest }
    ensures { Counts text.now (digits v text.now) result }
{
    let mut value = v;
    for (n, b) in text.iter().enumerate() {
        if *b < b'0' || b'9' < *b {
            return Some((value, &text[n..]));
        }
        let next = value * 10 + u32::from(*b - b'0');
        if LARGEST < next {
            return None;
        }
        value = next;
    }
    Some((value, &text[text.len()..]))
}

// A number's digits, with no leading zero.
#[tactic(auto, unfolding(crate::specs::Text::natural))]
fn natural(text: &[u8]) -> Option<(u32, &[u8])>
    ensures counts { Counts text.now (natural text.now) result }
    ensures shorter { IfSome result (λ p. length p.1.now < length text.now) }
{
    match text {
        [ZERO, rest @ ..] => Some((0, rest)),
        [b @ b'1'..=b'9', rest @ ..] => digits(rest, u32::from(*b - b'0')),
        _ => None,
    }
}

// A number without a sign.
#[tactic(auto, unfolding(crate::specs::Work::number_of))]
fn above(text: &[u8]) -> Option<(Token, &[u8])>
    ensures { Finds text.now (above (natural text.now)) result }
{
    let (m, rest) = natural(text)?;
    Some((Token::Number(m as i32), rest))
}

// A number behind its minus: it is not 0.
#[tactic(auto, unfolding(crate::specs::Work::number_of))]
fn below(text: &[u8]) -> Option<(Token, &[u8])>
    ensures { Finds text.now (below (natural text.now)) result }
{
    let (m, rest) = natural(text)?;
    if m == 0 {
        return None;
    }
    Some((Token::Number(-(m as i32)), rest))
}

// A number with its sign.
#[tactic(auto, unfolding(crate::specs::Text::natural, crate::specs::Text::number_seen))]
pub fn number(text: &[u8]) -> Option<(Token, &[u8])>
    ensures { Finds text.now (number_seen text.now) result }
{
    match text {
        [b'-', size @ ..] => below(size),
        _ => above(text),
    }
}
