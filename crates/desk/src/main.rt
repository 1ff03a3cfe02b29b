// The desk: a channel as text on standard input, its plan with the field as text on standard output.
#![tactic(auto)]

use desktext::View;

fn main(rt: HostRuntime) {
    desk_io::run(&rt, b"desk", View::WithField)
}
