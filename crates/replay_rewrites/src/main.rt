// Its list has the requests for one rewrite; `rt ci` compares one list with one program.
#![tactic(auto)]

fn main(rt: HostRuntime) {
    requests::replay(&rt, &mut rt.stdin());
}
