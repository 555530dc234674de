// Reads recorded answers about unify from standard input and asks the proved entry again. It names
// each line whose answer or whose bindings differ and each line that is not of the form, and at the
// end it says how many answers it checked and how many lines differ.
//
// Its file stdin has the answers of the excerpt of merc and the bindings of a model of document 01. Its first lines say
// how they were made, and `oracle/compare.sh unify` makes them again and compares.
#![tactic(auto)]

use recorded_unify::RecordedUnify;
use replay::run;
use std::io;

// kept: one of three such programs: each has a type of recorded answers of its own, and a file stdin of its own.
fn main(rt: HostRuntime) -> io::Result<()> {
    run(&mut RecordedUnify::new(), &mut rt.stdin(), &mut rt.stdout())
}
