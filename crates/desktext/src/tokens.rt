// The bytes of a desk text read as tokens.
ghost use Rattle.std.specs.Prelude.{◌+◌, ◌-◌, ◌*◌, ◌≤◌, ◌<◌, ◌≡◌, List, ℕ, [], cond, length};
ghost use Rattle.desktext.specs.Text.{named, item_head, bracket, closing, unseen, ending, got, malformed};
ghost use Rattle.desktext.specs.Work.{ListedIn, Finds, word_seen, Goes, Reading, StepReads};

use super::{Name, Token, numbers};

// The byte that ends a line.
const LINE_END: u8 = 10;

// An opening bracket with its name, if that word is at the front of the text, and the text behind it.
fn word<'a>(text: &'a [u8], word: &[u8], name: Name) -> Option<(Token, &'a [u8])>
    requires { 0 < length word.now }
    ensures { Finds text.now (word_seen text.now word.now name) result }
{
    let rest = text.strip_prefix(word)?;
    Some((Token::Open(name), rest))
}

// An opening bracket with one of the names.
fn named(text: &[u8]) -> Option<(Token, &[u8])>
    ensures { Finds text.now (named text.now) result }
{
    if let Some(found) = word(text, b"(channel", Name::Channel) {
        return Some(found);
    }
    if let Some(found) = word(text, b"(bins", Name::Bins) {
        return Some(found);
    }
    if let Some(found) = word(text, b"(row", Name::Row) {
        return Some(found);
    }
    word(text, b"(vector", Name::Vector)
}

// An item's beginning after its separator: a form's bracket and name, or a number.
#[tactic(auto, unfolding(crate::specs::Text::item_head))]
fn head(text: &[u8]) -> Option<(Token, &[u8])>
    ensures { Finds text.now (item_head text.now) result }
{
    let [b' ' | LINE_END, rest @ ..] = text else {
        return None;
    };
    match named(rest) {
        Some(name) => Some(name),
        None => numbers::number(rest),
    }
}

// A closing bracket.
#[tactic(auto, unfolding(crate::specs::Text::bracket, crate::specs::Work::number_of))]
fn bracket(text: &[u8]) -> Option<(Token, &[u8])>
    ensures { Finds text.now (bracket text.now) result }
{
    match text {
        [b')', rest @ ..] => Some((Token::Close, rest)),
        _ => None,
    }
}

// A closing bracket, before which one line end may stand.
#[tactic(auto, unfolding(crate::specs::Text::closing))]
fn closing(text: &[u8]) -> Option<(Token, &[u8])>
    ensures { Finds text.now (closing text.now) result }
{
    match text {
        [LINE_END, rest @ ..] => bracket(rest),
        _ => bracket(text),
    }
}

// The items of a form after its name, up to its closing bracket, of which `levels` more may be open: the text behind
// them, and how many tokens there are now, since the list is an array (no heap). The loop ends on what it reads.
#[cycle(form_item)]
fn form<'a>(text: &'a [u8], levels: usize, out: &mut [Token], n: usize) -> Option<(&'a [u8], usize)>
    requires { (levels ≤ 3) × (2 * n + length text.now + 1 ≤ 2 * length out.old) }
    ensures goes { Goes text.now n 1 result }
    ensures reads { (s : List ℕ) → Reading s text.now n (4 - levels) out.old → StepReads s (3 - levels) out.new result }
{
    let mut rest = text;
    let mut m = n;
    loop {
        if let Some((t, after)) = closing(rest) {
            out[m] = t;
            return Some((after, m + 1));
        }
        let (after, k) = item(rest, levels, &mut *out, m)?;
        rest = after;
        m = k;
    }
}

// One item of a form: a number, or a form of one level less.
#[cycle(form_item)]
fn item<'a>(text: &'a [u8], levels: usize, out: &mut [Token], n: usize) -> Option<(&'a [u8], usize)>
    requires { (levels ≤ 3) × (2 * n + length text.now + 1 ≤ 2 * length out.old) × (closing text.now ≡ unseen) }
    ensures goes { Goes text.now n 0 result }
    ensures reads { (s : List ℕ) → Reading s text.now n (4 - levels) out.old → StepReads s (4 - levels) out.new result }
{
    let (t, rest) = head(text)?;
    if let Token::Number(_) = t {
        out[n] = t;
        return Some((rest, n + 1));
    }
    if levels == 0 {
        return None;
    }
    out[n] = t;
    form(rest, levels - 1, out, n + 1)
}

// Whether a text ends here, but for one line end.
#[tactic(auto, unfolding(crate::specs::Text::ending))]
fn is_end(text: &[u8]) -> bool
    ensures { ending text.now ≡ cond result (got []) malformed }
{
    match text {
        [] | [LINE_END] => true,
        _ => false,
    }
}

// The tokens of a text, and how many they are.
pub fn tokens_in(text: &[u8], out: &mut [Token]) -> Option<usize>
    requires { length text.now ≤ 2 * length out.old }
    ensures { ListedIn text.now out.new result }
{
    let (t, rest) = named(text)?;
    out[0] = t;
    let (end, n) = form(rest, 3, &mut *out, 1)?;
    if is_end(end) { Some(n) } else { None }
}
