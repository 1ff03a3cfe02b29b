// A list of tokens read as a channel.
ghost use Rattle.std.specs.Prelude.{◌+◌, ◌-◌, ◌*◌, ◌<◌, ◌≤◌, ◌≡◌, map, eqb, length};
ghost use Rattle.bits.specs.Bits.{splice};
ghost use Rattle.desktext.specs.Spelling.{largest, last_number, close_token};
ghost use Rattle.desktext.specs.Printed.{component_of};
ghost use Rattle.desktext.specs.Channel.{numbers, closes, channel_from, text_answer, row_after, vectors_after};
ghost use Rattle.desktext.specs.Work.{number_of, numbers_of, opening, vector_numbers, part_in, is_within, InBounds, Stands, Checks, IsRow, AreVectors};
ghost use Rattle.desktext.specs.declared.Token.TheVariants.{Number};

use super::{Name, Shape, Token};
use answers::Refusal;

// How many numbers a vector has.
const COMPONENTS: usize = 6;

// The numbers of a text lie between these.
const LOWEST: i32 = -16777216;

const HIGHEST: i32 = 16777216;

// Whether a token opens a form of that name. No `t == Token::Open(name)`: what a derived `==` of tokens promises is
// opaque to a proof.
#[tactic(auto, unfolding(crate::specs::Work::number_of, crate::specs::Work::opening))]
fn opens(t: Token, name: Name) -> bool
    ensures { result ≡ eqb (number_of t) (opening name) }
{
    match t {
        Token::Open(other) => other == name,
        _ => false,
    }
}

// Whether a token is a number from low to high.
fn is_within(t: Token, low: i32, high: i32) -> bool
    requires { InBounds low high }
    ensures { result ≡ is_within low high t }
{
    match t {
        Token::Number(k) => low <= k && k <= high,
        _ => false,
    }
}

// A form of that name at the front whose items are numbers from low to high: these, and the tokens behind the form.
fn numbers(tokens: &[Token], name: Name, low: i32, high: i32) -> Option<(&[Token], &[Token])>
    requires { InBounds low high }
    ensures { part_in result ≡ numbers (opening name) (number_of (Number low)) (number_of (Number high)) (numbers_of tokens.now) }
{
    let (first, items) = tokens.split_first()?;
    if !opens(*first, name) {
        return None;
    }
    for (n, t) in items.iter().enumerate() {
        if let Token::Close = t {
            return Some((&items[..n], &items[n + 1..]));
        }
        if !is_within(*t, low, high) {
            return None;
        }
    }
    None
}

// Whether a token is a closing bracket. No `==`, as in `opens`.
fn is_close(t: Token) -> bool
    ensures { result ≡ eqb (number_of t) close_token }
{
    match t {
        Token::Close => true,
        _ => false,
    }
}

// Whether the tokens are a closing bracket alone.
#[tactic(auto, unfolding(crate::specs::Channel::closes))]
fn is_last(tokens: &[Token]) -> bool
    ensures { result ≡ closes (numbers_of tokens.now) }
{
    match tokens {
        [t] => is_close(*t),
        _ => false,
    }
}

// Whether n vectors stand one after the other, and behind them the last closing bracket alone.
fn are_vectors(tokens: &[Token], n: usize) -> bool
    requires { n ≤ 256 }
    ensures { Stands (numbers_of tokens.now) n result }
{
    let mut rest = tokens;
    for _ in 0..n {
        let Some((six, after)) = numbers(rest, Name::Vector, LOWEST, HIGHEST) else {
            return false;
        };
        if six.len() != COMPONENTS {
            return false;
        }
        rest = after;
    }
    is_last(rest)
}

// A number that is not below 0.
fn size(t: Token) -> u32
    requires { (largest ≤ number_of t) × (number_of t ≤ last_number) }
    ensures { result ≡ number_of t - largest }
{
    match t {
        Token::Number(k) => k as u32,
        _ => 0,
    }
}

// The shape of a channel, the row's numbers, and the tokens from the first vector on, if the tokens are a channel's.
fn check(tokens: &[Token]) -> Option<(Shape, &[Token], &[Token])>
    ensures { Checks (channel_from (numbers_of tokens.now)) result }
{
    let (first, forms) = tokens.split_first()?;
    if !opens(*first, Name::Channel) {
        return None;
    }
    let (bins, forms) = numbers(forms, Name::Bins, 0, HIGHEST)?;
    if bins.len() != 2 {
        return None;
    }
    let (row, vectors) = numbers(forms, Name::Row, 0, 255)?;
    if 256 < row.len() || !are_vectors(vectors, row.len()) {
        return None;
    }
    let shape = Shape {
        start: size(bins[0]),
        end: size(bins[1]),
        count: row.len(),
    };
    Some((shape, row, vectors))
}

// A component: the number / 32768.
fn value(t: Token) -> f32
    requires { number_of t ≤ last_number }
    ensures { result ≡ component_of (number_of t) }
{
    match t {
        Token::Number(k) => {
            let size = k.unsigned_abs() as f32 / 32768.0;
            if k < 0 { -size } else { size }
        }
        _ => 0.0,
    }
}

// The row's numbers are put at the front of row.
fn put_row(numbers: &[Token], row: &mut [u8; 256])
    requires { IsRow numbers.now }
    ensures { row.new ≡ splice row.old 0 (map (λ t. t - largest) (numbers_of numbers.now)) }
{
    for (i, t) in numbers.iter().enumerate() {
        row[i] = size(*t) as u8;
    }
}

// The components of n vectors are put at the front of vectors. By index: they stand apart by the brackets between them,
// which a chain would have to skip.
fn put_vectors(tokens: &[Token], n: usize, vectors: &mut [f32; 1536])
    requires { (n ≤ 256) × AreVectors n tokens.now }
    ensures { vectors.new ≡ splice vectors.old 0 (map component_of (vector_numbers n (numbers_of tokens.now))) }
{
    for i in 0..6 * n {
        vectors[i] = value(tokens[i / 6 * 8 + 1 + i % 6]);
    }
}

// A channel's tokens: its row and vectors are put at the front of the outputs, and nothing where it is refused.
pub fn read_tokens(
    tokens: &[Token],
    row: &mut [u8; 256],
    vectors: &mut [f32; 1536],
) -> Result<Shape, Refusal>
    ensures value { result ≡ text_answer (channel_from (numbers_of tokens.now)) }
    ensures row_after { row.new ≡ row_after (channel_from (numbers_of tokens.now)) row.old }
    ensures vectors_after { vectors.new ≡ vectors_after (channel_from (numbers_of tokens.now)) vectors.old }
{
    let (shape, numbers, tokens) = check(tokens).ok_or(Refusal::Text)?;
    put_row(numbers, row);
    put_vectors(tokens, shape.count, vectors);
    Ok(shape)
}
