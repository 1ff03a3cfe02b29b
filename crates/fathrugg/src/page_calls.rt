// A plan on pages.
ghost use Rattle.std.specs.Prelude.{◌≡◌};
ghost use Rattle.answers.specs.Answers.{answer_number, value_or};
ghost use Rattle.pages.specs.Printing.{pages_print, pages_printed};
ghost use Rattle.fathrugg.specs.Answers.{lent_plan};

use super::store;
use planner::Plan;

// Prints the pages of a plan, whose gains are the first count places, to the front of out, and says how many bytes they
// have. Refusals 1 to 7.
#[unsafe(no_mangle)]
pub extern "C" fn fathrugg_print_pages(
    mode: u8,
    gains: &[u8; 256],
    count: usize,
    payload: u32,
    hebap: &[u8],
    start: usize,
    end: usize,
    x: &[f32],
    out: &mut [u8],
    length: &mut usize,
) -> u8
    ensures value { result ≡ answer_number (pages_print (lent_plan mode gains.now count payload)
        hebap.now start end x.now out.old) }
    ensures out_after { out.new ≡ pages_printed (lent_plan mode gains.now count payload)
        hebap.now start end x.now out.old }
    ensures length_after { length.new ≡ value_or length.old (pages_print (lent_plan mode gains.now count payload)
        hebap.now start end x.now out.old) }
{
    let plan = Plan {
        mode,
        gains: *gains,
        count,
        payload,
    };
    store(pages::print_pages(plan, hebap, start, end, x, out), length)
}
