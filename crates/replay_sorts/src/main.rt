// Reads recorded answers about sorts from standard input and asks the proved entries again. It names each line whose
// answer differs, with the answer that it got, and each line that is not of the form, and at the end it says how many
// answers it checked and how many lines differ.
//
// Its file stdin has the recorded answers of the excerpt of merc. Its first lines say how they were made, and
// `oracle/compare.sh sorts` makes them again and compares. The crate recorded_sorts states the form of the lines.
#![tactic(auto)]

use recorded_sorts::RecordedSorts;
use replay::run;
use std::io;

// kept: one of three such programs: each has a type of recorded answers of its own, and a file stdin of its own.
fn main(rt: HostRuntime) -> io::Result<()> {
    run(&mut RecordedSorts::new(), &mut rt.stdin(), &mut rt.stdout())
}
