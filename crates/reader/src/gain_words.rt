// The gain words of a field.
ghost use Rattle.std.specs.Prelude.{◌≡◌, ◌+◌, ◌≤◌, length, take};
ghost use Rattle.bits.specs.Bits.{splice};
ghost use Rattle.bits.specs.Takes.{ahead, Takes};
ghost use Rattle.channel.specs.Field.{group_words, gain_words};
ghost use Rattle.reader.specs.Work.{GainsPut, missing_code, three_gains};

use answers::Refusal;
use bits::field_reader::FieldReader;

// The gain words of mode 1 or 2: a bit for each gain.
pub fn read_gain_bits(reader: &mut FieldReader, mode: u8, gains: &mut [u8]) -> Result<(), Refusal>
    requires { (1 ≤ mode) × (mode ≤ 2) }
    ensures { Takes (λ gs. tt {0}) ((gain_words mode (length gains.old)).dec (ahead reader.old)) result (GainsPut gains.old gains.new) reader.old reader.new }
{
    for gain in gains {
        let code = reader.read_u32(1)?;
        *gain = gains::gain_value(code as u8, mode);
    }
    Ok(())
}

// Whether an unused code of the last word is not 0: `left` gains are left to read.
pub fn missing(word: u32, left: usize) -> bool
    requires { word ≤ 26 }
    ensures { result ≡ missing_code word left }
{
    let c = gains::unpack(word);
    if left == 1 {
        if c.second != 0 {
            return true;
        }
        return c.third != 0;
    }
    if left == 2 {
        return c.third != 0;
    }
    false
}

// The gains of a word, or as many as are left, go to the places from i on.
pub fn put_gains(gains: &mut [u8], i: usize, left: usize, word: u32)
    requires le_left { (1 ≤ left) × (i + left ≤ length gains.old) }
    requires word_bound { word ≤ 26 }
    ensures { gains.new ≡ splice gains.old i (take left (three_gains word)) }
{
    let c = gains::unpack(word);
    gains[i] = gains::gain_value(c.first, 3);
    if left < 2 {
        return;
    }
    gains[i + 1] = gains::gain_value(c.second, 3);
    if left < 3 {
        return;
    }
    gains[i + 2] = gains::gain_value(c.third, 3);
}

// Mode 3: a word of five bits for three gains. Refuses with 9 a word above 26, with 10 an unused code that is not 0. By
// parts of three (chunks_mut) a proof would know only how long a part is.
pub fn read_group_words(reader: &mut FieldReader, gains: &mut [u8]) -> Result<(), Refusal>
    ensures { Takes (λ gs. tt {0}) ((group_words (length gains.old)).dec (ahead reader.old)) result (GainsPut gains.old gains.new) reader.old reader.new }
{
    for i in (0..gains.len()).step_by(3) {
        let left = gains.len() - i;
        let word = reader.read_u32(5)?;
        if 26 < word {
            return Err(Refusal::GroupWord);
        }
        if missing(word, left) {
            return Err(Refusal::UnusedCode);
        }
        put_gains(&mut *gains, i, left, word);
    }
    Ok(())
}

// The gain words of a mode, for as many active bins as there are places for gains.
pub fn read_gains(reader: &mut FieldReader, mode: u8, gains: &mut [u8]) -> Result<(), Refusal>
    requires { mode ≤ 3 }
    ensures { Takes (λ gs. tt {0}) ((gain_words mode (length gains.old)).dec (ahead reader.old)) result (GainsPut gains.old gains.new) reader.old reader.new }
{
    match mode {
        0 => Ok(()),
        3 => read_group_words(reader, gains),
        _ => read_gain_bits(reader, mode, gains),
    }
}
