// The desk's pages: a channel as text on standard input, the pages of its plan on standard output.
#![tactic(auto)]

use desktext::View;

fn main(rt: HostRuntime) {
    desk_io::run(&rt, b"pages", View::OnPages)
}
