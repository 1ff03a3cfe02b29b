// A channel planned, written and read.
ghost use Rattle.std.specs.Prelude.{◌≡◌};
ghost use Rattle.answers.specs.Answers.{answer_number, after_answer, value_or};
ghost use Rattle.planner.specs.Planning.{planned};
ghost use Rattle.writer.specs.Written.{channel_written};
ghost use Rattle.reader.specs.Reading.{answer_to, values_after, exact_after, indices_after};
ghost use Rattle.fathrugg.specs.Answers.{place, bit_of_place, channel_at, call_at, place_after, lent_plan};

use super::store_place;
use bits::BitPos;
use planner::Plan;

// The plan of the bins start to end - 1: its mode, its gains in bin order, how many, and its payload. Refusals 1 to 5.
#[unsafe(no_mangle)]
pub extern "C" fn fathrugg_plan_aht_channel(
    hebap: &[u8],
    start: usize,
    end: usize,
    x: &[f32],
    mode: &mut u8,
    gains: &mut [u8; 256],
    count: &mut usize,
    payload: &mut u32,
) -> u8
    ensures value { result ≡ answer_number (planned hebap.now start end x.now) }
    ensures mode_after { mode.new ≡ after_answer (λ p. p.mode) mode.old (planned hebap.now start end x.now) }
    ensures gains_after { gains.new ≡ after_answer (λ p. p.gains) gains.old (planned hebap.now start end x.now) }
    ensures count_after { count.new ≡ after_answer (λ p. p.count) count.old (planned hebap.now start end x.now) }
    ensures payload_after { payload.new ≡ after_answer (λ p. p.payload) payload.old (planned hebap.now start end x.now) }
{
    match planner::plan_aht_channel(hebap, start, end, x) {
        Err(k) => k.number(),
        Ok(p) => {
            *mode = p.mode;
            // by way of a variable: a field's array is not stored straight away
            let all = p.gains;
            *gains = all;
            *count = p.count;
            *payload = p.payload;
            0
        }
    }
}

// Writes the field of a plan, whose gains are the first count places, from the position on. Refusals 1 to 7.
#[unsafe(no_mangle)]
pub extern "C" fn fathrugg_write_aht_channel(
    mode: u8,
    gains: &[u8; 256],
    count: usize,
    payload: u32,
    hebap: &[u8],
    start: usize,
    end: usize,
    x: &[f32],
    out: &mut [u8],
    byte: &mut usize,
    bit: &mut u32,
) -> u8
    ensures value { result ≡ answer_number (channel_at (lent_plan mode gains.now count payload)
        hebap.now start end x.now out.old byte.old bit.old) }
    ensures out_after { out.new ≡ channel_written (lent_plan mode gains.now count payload)
        hebap.now start end x.now out.old (bit_of_place byte.old bit.old) }
    ensures bit_after { place byte.new bit.new ≡ value_or (place byte.old bit.old) (channel_at (lent_plan mode gains.now count payload)
        hebap.now start end x.now out.old byte.old bit.old) }
{
    let p = BitPos {
        byte: *byte,
        bit: *bit,
    };
    let plan = Plan {
        mode,
        gains: *gains,
        count,
        payload,
    };
    store_place(
        writer::write_aht_channel(plan, hebap, start, end, x, out, p),
        byte,
        bit,
    )
}

// Reads the field of the bins start to end - 1 from the position on, and moves the position behind it: six f32, six
// exact values and an index a bin; the mode, the gains in bin order, how many, and the bits of the field. Refusals 1 to
// 4, 8, 9, 10.
#[unsafe(no_mangle)]
pub extern "C" fn fathrugg_read_aht_channel(
    src: &[u8],
    byte: &mut usize,
    bit: &mut u32,
    hebap: &[u8],
    start: usize,
    end: usize,
    values: &mut [f32],
    exact: &mut [i32],
    indices: &mut [u16],
    mode: &mut u8,
    gains: &mut [u8; 256],
    count: &mut usize,
    bits: &mut u32,
) -> u8
    ensures value { result ≡ answer_number (answer_to hebap.now start end
        (call_at src.now byte.old bit.old values.old exact.old indices.old)) }
    ensures bit_after { place byte.new bit.new ≡ place_after (place byte.old bit.old) (answer_to hebap.now start end
        (call_at src.now byte.old bit.old values.old exact.old indices.old)) }
    ensures values_after { values.new ≡ values_after hebap.now start end
        (call_at src.now byte.old bit.old values.old exact.old indices.old) }
    ensures exact_after { exact.new ≡ exact_after hebap.now start end
        (call_at src.now byte.old bit.old values.old exact.old indices.old) }
    ensures indices_after { indices.new ≡ indices_after hebap.now start end
        (call_at src.now byte.old bit.old values.old exact.old indices.old) }
    ensures mode_after { mode.new ≡ after_answer (λ c. c.mode) mode.old (answer_to hebap.now start end
        (call_at src.now byte.old bit.old values.old exact.old indices.old)) }
    ensures gains_after { gains.new ≡ after_answer (λ c. c.gains) gains.old (answer_to hebap.now start end
        (call_at src.now byte.old bit.old values.old exact.old indices.old)) }
    ensures count_after { count.new ≡ after_answer (λ c. c.count) count.old (answer_to hebap.now start end
        (call_at src.now byte.old bit.old values.old exact.old indices.old)) }
    ensures bits_after { bits.new ≡ after_answer (λ c. c.bits) bits.old (answer_to hebap.now start end
        (call_at src.now byte.old bit.old values.old exact.old indices.old)) }
{
    let p = BitPos {
        byte: *byte,
        bit: *bit,
    };
    match reader::read_aht_channel(src, p, hebap, start, end, values, exact, indices) {
        Err(k) => k.number(),
        Ok(c) => {
            *mode = c.mode;
            // by way of a variable: a field's array is not stored straight away
            let all = c.gains;
            *gains = all;
            *count = c.count;
            *bits = c.bits;
            store_place(Ok(p.advance(1, c.bits as usize)), byte, bit)
        }
    }
}
