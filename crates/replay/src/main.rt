// Answers cases, one to a line of standard input, each with a line of standard output.
#![tactic(auto)]

mod cases;
mod input;

fn main(rt: HostRuntime) {
    input::answer_all(rt.stdin(), rt.stdout());
}
