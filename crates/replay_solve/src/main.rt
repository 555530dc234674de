// Reads recorded answers of the solver from standard input and asks the proved entry again. It names each line whose
// answer or whose words left differ, with what it got, and each line that is not of the form, and at the end it says
// how many answers it checked and how many lines differ. The answers are those of questions, one for each list, and the
// lines of words left. The lines have the form that the crate recorded_solve states.
//
// Its file stdin has the answers of the excerpt of merc. Its first lines say how they were made, and
// `oracle/compare.sh solve` makes them again and compares.
#![tactic(auto)]

use recorded_solve::RecordedSolve;
use replay::run;
use std::io;

// kept: one of three such programs: each has a type of recorded answers of its own, and a file stdin of its own.
fn main(rt: HostRuntime) -> io::Result<()> {
    run(&mut RecordedSolve::new(), &mut rt.stdin(), &mut rt.stdout())
}
