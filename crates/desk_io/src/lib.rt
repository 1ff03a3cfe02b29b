// The desk's programs: a channel as text on standard input, the answer on standard output. The work is desktext's.
// What is read and written is said of each reader and writer that knows its bytes. The system's do not know theirs.
#![tactic(auto)]

ghost use Rattle.std.specs.Prelude.{◌≡◌, ◌≢◌, length, IfOk, OnOk, IfSome, Err};
ghost use Rattle.std.specs.Io.KnownBytes.{Appends, Keeps};
ghost use Rattle.desktext.specs.Desk.{desk_answer};
ghost use Rattle.desk_io.specs.Bytes.{IsRead, IsReadOut, ReadsFew};

use desktext::View;
use std::fmt::{self, Display, Formatter};
use std::io;
use std::io::{Read, Write};

// Why a text has no answer: it cannot be read, or the answer cannot be written.
#[derive(Clone, Copy)]
pub enum Fault {
    Unread,
    Unwritten,
}

impl Display for Fault {
    fn fmt<W: fmt::Write>(&self, f: &mut Formatter<W>) -> fmt::Result {
        f.write_str(match self {
            Fault::Unread => "standard input cannot be read",
            Fault::Unwritten => "standard output cannot be written",
        })
    }
}

// Reads until the buffer is full or the input ends. Returns how many bytes that is. Of std, read_exact and read_to_end
// say too little of what was read before an error.
fn read_input<R: Read>(reader: &mut R, buf: &mut [u8]) -> io::Result<usize>
    ensures front { IfOk result (IsRead (R.remaining reader.old) (R.remaining reader.new) buf.new) }
    ensures limit { ReadsFew (R.remaining reader.old) (R.remaining reader.new) (length buf.new) }
{
    let mut done: usize = 0;
    while done < buf.len() {
        let n = reader.read(&mut buf[done..])?;
        if n == 0 {
            return Ok(done);
        }
        done += n;
    }
    Ok(done)
}

// Writes the answer to the text that the reader gives. The input has one byte more than a text may have: of a longer
// text no more is read, and the answer is that to all of it.
pub fn answer<R: Read, W: Write>(reader: &mut R, writer: &mut W, view: View) -> Result<(), Fault>
    ensures answered { OnOk result (IfSome (R.remaining reader.old)
        (λ text. Appends (W.contents writer.old) (W.contents writer.new) (desk_answer view text))) }
    ensures limit { ReadsFew (R.remaining reader.old) (R.remaining reader.new) 65537 }
    ensures read { result ≢ Err Fault.Unread → IsReadOut (R.remaining reader.old) (R.remaining reader.new) 65537 }
    ensures unread { result ≡ Err Fault.Unread → Keeps (W.contents writer.old) (W.contents writer.new) }
{
    let mut input = [0u8; 65537];
    let Ok(n) = read_input(reader, &mut input) else {
        return Err(Fault::Unread);
    };
    let mut out = [0u8; 32768];
    let k = desktext::desk_from(view, &input, n, &mut out);
    writer.write_all(&out[..k]).map_err(|_| Fault::Unwritten)
}

// Answers the text on standard input on standard output, or says on standard error why not. Where that cannot be
// written either nobody is told.
pub fn run(rt: &HostRuntime, program: &[u8], view: View) {
    if let Err(fault) = answer(&mut rt.stdin(), &mut rt.stdout(), view) {
        let _ = rt.stderr().write_all(program);
        let _ = eprintln!(rt; ": {fault}");
    }
}
