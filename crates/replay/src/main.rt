// Its list has the requests that no other program's has; `rt ci` compares one list with one program.
#![tactic(auto)]

fn main(rt: HostRuntime) {
    requests::replay(&rt, &mut rt.stdin());
}
