// The desk's answer, printed as text into a lent buffer.
#![tactic(auto)]

ghost use Rattle.std.specs.Prelude.{◌≡◌, ◌∷◌, [], ◌+◌, ◌*◌, ◌<◌, ◌≤◌, length};
ghost use Rattle.bits.specs.Bits.{splice};
ghost use Rattle.plantext.specs.PlanText.{decimal, hex_of, spaced, hexes, line, gains_name, field_name, choice_lines, size_lines, plan_text, refused_text};
ghost use Rattle.plantext.specs.Work.{Puts};

use planner::Plan;

// The output, and the place that the next byte goes to. Digits are put by hand, since there is no heap and the contracts
// say each byte, which std's printing does not let a proof do.
#[derive(Drop)]
struct Printer<'a> {
    out: &'a mut [u8],
    at: usize,
}

// A hex digit.
fn hex(d: u8) -> u8
    requires { d < 16 }
    ensures { result ≡ hex_of d }
{
    if 10 <= d {
        return 87 + d;
    }
    48 + d
}

impl Printer<'_> {
    // A byte.
    fn put_byte(&mut self, byte: u8)
        requires { self.old.at < length self.old.out.now }
        ensures { Puts self.old self.new (byte ∷ []) }
    {
        self.out[self.at] = byte;
        self.at += 1;
    }

    // A byte string.
    fn put_text(&mut self, text: &[u8])
        requires { self.old.at + length text.now ≤ length self.old.out.now }
        ensures { Puts self.old self.new text.now }
    {
        let end = self.at + text.len();
        self.out[self.at..end].copy_from_slice(text);
        self.at = end;
    }

    // A number in base ten, of at most so many digits.
    fn put_number(&mut self, n: u32, places: usize)
        requires { self.old.at + places ≤ length self.old.out.now }
        ensures { Puts self.old self.new (decimal places n) }
    {
        if places == 0 {
            return;
        }
        if 10 <= n {
            self.put_number(n / 10, places - 1);
        }
        self.put_byte(48 + (n % 10) as u8)
    }

    // A number after a space: at most eleven bytes.
    fn put_item(&mut self, n: u32)
        requires { self.old.at + 11 ≤ length self.old.out.now }
        ensures { Puts self.old self.new (spaced (n ∷ [])) }
    {
        self.put_byte(32);
        self.put_number(n, 10)
    }

    // Each gain after a space.
    fn put_gains(&mut self, gains: &[u8])
        requires { self.old.at + 11 * length gains.now ≤ length self.old.out.now }
        ensures { Puts self.old self.new (spaced gains.now) }
    {
        for gain in gains {
            self.put_item(u32::from(*gain));
        }
    }

    // Each byte as two hex digits after a space.
    fn put_hexes(&mut self, bytes: &[u8])
        requires { self.old.at + 3 * length bytes.now ≤ length self.old.out.now }
        ensures { Puts self.old self.new (hexes bytes.now) }
    {
        for byte in bytes {
            self.put_text(&[32, hex(*byte / 16), hex(*byte % 16)]);
        }
    }

    // The front of a line: a bracket and the form's name.
    fn put_name(&mut self, name: &[u8])
        requires { self.old.at + (1 + length name.now) ≤ length self.old.out.now }
        ensures { Puts self.old self.new (40 ∷ name.now) }
    {
        self.put_byte(40);
        self.put_text(name)
    }

    // A line with one number.
    fn put_number_line(&mut self, name: &[u8], n: u32)
        requires { self.old.at + (14 + length name.now) ≤ length self.old.out.now }
        ensures { Puts self.old self.new (line name.now (spaced (n ∷ []))) }
    {
        self.put_name(name);
        self.put_item(n);
        self.put_text(b")\n")
    }

    // The line of the gains.
    fn put_gains_line(&mut self, gains: &[u8])
        requires { self.old.at + (8 + 11 * length gains.now) ≤ length self.old.out.now }
        ensures { Puts self.old self.new (line gains_name (spaced gains.now)) }
    {
        self.put_name(b"gains");
        self.put_gains(gains);
        self.put_text(b")\n")
    }

    // The line of the field.
    fn put_field_line(&mut self, field: &[u8])
        requires { self.old.at + (8 + 3 * length field.now) ≤ length self.old.out.now }
        ensures { Puts self.old self.new (line field_name (hexes field.now)) }
    {
        self.put_name(b"field");
        self.put_hexes(field);
        self.put_text(b")\n")
    }

    // The lines of a mode and its gains.
    fn put_choice(&mut self, mode: u8, gains: &[u8])
        requires { self.old.at + (26 + 11 * length gains.now) ≤ length self.old.out.now }
        ensures { Puts self.old self.new (choice_lines mode gains.now) }
    {
        self.put_number_line(b"mode", u32::from(mode));
        self.put_gains_line(gains)
    }

    // The lines of the payload and the total.
    fn put_sizes(&mut self, payload: u32, total: u32)
        requires { self.old.at + 40 ≤ length self.old.out.now }
        ensures { Puts self.old self.new (size_lines payload total) }
    {
        self.put_number_line(b"payload", payload);
        self.put_number_line(b"total", total)
    }

    // The plan's text.
    fn put_plan(&mut self, plan: Plan, field: &[u8])
        requires { (plan.count ≤ 256) × (plan.payload ≤ 65536) × (length field.now ≤ 8192) × (self.old.at + 32768 ≤ length self.old.out.now) }
        ensures { Puts self.old self.new (plan_text plan field.now) }
    {
        let gains = plan.gains;
        self.put_text(b"(plan\n");
        self.put_choice(plan.mode, &gains[..plan.count]);
        self.put_sizes(plan.payload, 2 + plan.payload);
        self.put_field_line(field);
        self.put_text(b")\n")
    }

    // The refusal's text.
    fn put_refusal(&mut self, n: u8)
        requires { self.old.at + 21 ≤ length self.old.out.now }
        ensures { Puts self.old self.new (refused_text n) }
    {
        self.put_number_line(b"refused", u32::from(n))
    }
}

// The plan's text goes to the front of the output; answers how many bytes it has.
pub fn print_plan(out: &mut [u8], plan: Plan, field: &[u8]) -> usize
    requires { (plan.count ≤ 256) × (plan.payload ≤ 65536) × (length field.now ≤ 8192) × (32768 ≤ length out.old) }
    ensures value { result ≡ length (plan_text plan field.now) }
    ensures out_after { out.new ≡ splice out.old 0 (plan_text plan field.now) }
{
    let mut printer = Printer { out, at: 0 };
    printer.put_plan(plan, field);
    printer.at
}

// The refusal's text goes to the front of the output; answers how many bytes it has. Any number is printed: a `Refusal`
// would ask callers more.
pub fn print_refused(out: &mut [u8], n: u8) -> usize
    requires { 32768 ≤ length out.old }
    ensures value { result ≡ length (refused_text n) }
    ensures out_after { out.new ≡ splice out.old 0 (refused_text n) }
{
    let mut printer = Printer { out, at: 0 };
    printer.put_refusal(n);
    printer.at
}
