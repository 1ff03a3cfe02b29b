// The desk text: a channel as nested brackets. docs/FORMAT.md, Desk text.
#![tactic(auto)]

ghost use Rattle.std.specs.Prelude.{◌≤◌, ◌*◌, ◌≡◌, length, take, replicate};
ghost use Rattle.bits.specs.Bits.{splice};
ghost use Rattle.desktext.specs.Channel.{channel_in, text_answer, row_after, vectors_after};
ghost use Rattle.desktext.specs.Desk.{view_of, plan_answer, desk_answer};
ghost use Rattle.desktext.specs.Work.{longest, Given, Prints};
ghost use Rattle.desktext.specs.declared.View.TheVariants.{WithField};

use answers::Refusal;
use bits::BitPos;
use planner::Plan;

mod channels;
mod numbers;
mod tokens;

// What a channel's text holds beside its row and vectors: start and end of its bins and how many numbers the row has.
#[derive(Clone, Copy)]
pub struct Shape {
    pub start: u32,
    pub end: u32,
    pub count: usize,
}

// How a plan is printed: with its field, or on pages. Two cases that never grow: a closure would say the same by F.post.
#[derive(Clone, Copy)]
pub enum View {
    WithField,
    OnPages,
}

// The names of forms.
#[derive(Clone, Copy, PartialEq, Eq)]
pub enum Name {
    Channel,
    Bins,
    Row,
    Vector,
}

// What a text is made of: numbers, and brackets, of which one that opens a form has its name.
#[derive(Clone, Copy)]
pub enum Token {
    Number(i32),
    Open(Name),
    Close,
}

// No number of a text is larger in size.
const LARGEST: u32 = 16777216;

// No channel's text is longer: it has 2,312 tokens of ten bytes at most, and a last line end.
const LONGEST: usize = 23121;

// Room for the tokens of the longest text, one for each two bytes: a number takes two or more with the separator before
// it, and a form's name with its closing bracket five or more.
const TOKENS: usize = 11561;

// A channel's text, with room to work in.
fn read_with(
    text: &[u8],
    row: &mut [u8; 256],
    vectors: &mut [f32; 1536],
    work: &mut [Token; TOKENS],
) -> Result<Shape, Refusal>
    ensures value { result ≡ text_answer (channel_in text.now) }
    ensures row_after { row.new ≡ row_after (channel_in text.now) row.old }
    ensures vectors_after { vectors.new ≡ vectors_after (channel_in text.now) vectors.old }
{
    if LONGEST < text.len() {
        return Err(Refusal::Text);
    }
    let n = tokens::tokens_in(text, work).ok_or(Refusal::Text)?;
    channels::read_tokens(&work[..n], row, vectors)
}

// The channel of a text: its row and vectors go to the front of the outputs. A malformed text is refused with 13,
// and the outputs stay as they were.
pub fn read_text(
    text: &[u8],
    row: &mut [u8; 256],
    vectors: &mut [f32; 1536],
) -> Result<Shape, Refusal>
    ensures value { result ≡ text_answer (channel_in text.now) }
    ensures row_after { row.new ≡ row_after (channel_in text.now) row.old }
    ensures vectors_after { vectors.new ≡ vectors_after (channel_in text.now) vectors.old }
{
    let mut work = [Token::Number(0); TOKENS];
    read_with(text, row, vectors, &mut work)
}

// The planner's plan with its field goes to the front of the output as text: how many bytes that is.
fn print_with_field(
    out: &mut [u8; 32768],
    plan: Plan,
    row: &[u8],
    start: usize,
    end: usize,
    x: &[f32],
) -> Result<usize, Refusal>
    requires { Given plan row.now start end x.now }
    ensures { Prints (view_of WithField plan row.now start end x.now) out.old out.new result }
{
    let mut field = [0u8; 8192];
    let p = BitPos { byte: 0, bit: 0 };
    writer::write_aht_channel(plan, row, start, end, x, &mut field, p)?;
    let n = (2 + plan.payload as usize + 7) / 8;
    Ok(plantext::print_plan(out, plan, &field[..n]))
}

// The plan of the bins start to end - 1, as it is to be seen.
fn print_channel(
    view: View,
    out: &mut [u8; 32768],
    row: &[u8],
    start: usize,
    end: usize,
    x: &[f32],
) -> Result<usize, Refusal>
    ensures { Prints (plan_answer view row.now start end x.now) out.old out.new result }
{
    let plan = planner::plan_aht_channel(row, start, end, x)?;
    match view {
        View::WithField => print_with_field(out, plan, row, start, end, x),
        View::OnPages => pages::print_pages(plan, row, start, end, x, out),
    }
}

// The same of the channel that a text holds, with room to work in.
fn print_text(
    view: View,
    text: &[u8],
    out: &mut [u8; 32768],
    row: &mut [u8; 256],
    vectors: &mut [f32; 1536],
) -> Result<usize, Refusal>
    ensures { Prints (desk_answer view text.now) out.old out.new result }
{
    let shape = read_text(text, row, vectors)?;
    let start = shape.start as usize;
    let end = shape.end as usize;
    print_channel(
        view,
        out,
        &row[..shape.count],
        start,
        end,
        &vectors[..6 * shape.count],
    )
}

// The plan of the channel that a text holds, with its field or on pages, or the refusal, goes to the front of the
// output as text. Returns how many bytes that is.
pub fn desk(view: View, text: &[u8], out: &mut [u8; 32768]) -> usize
    ensures value { result ≡ length (desk_answer view text.now) }
    ensures out_after { out.new ≡ splice out.old 0 (desk_answer view text.now) }
{
    let mut row = [0u8; 256];
    let mut vectors = [0.0f32; 1536];
    match print_text(view, text, out, &mut row, &mut vectors) {
        Ok(n) => n,
        Err(k) => plantext::print_refused(out, k.number()),
    }
}

// The same of a text that is the first n bytes of an input, or all of it where it has no more. The answer fits.
// n stands beside the input, since it may be above its length.
pub fn desk_from(view: View, input: &[u8], n: usize, out: &mut [u8; 32768]) -> usize
    ensures value { result ≡ length (desk_answer view (take n input.now)) }
    ensures out_after { out.new ≡ splice out.old 0 (desk_answer view (take n input.now)) }
    ensures upper_bound { result ≤ 32768 }
{
    if n < input.len() {
        return desk(view, &input[..n], out);
    }
    desk(view, input, out)
}
