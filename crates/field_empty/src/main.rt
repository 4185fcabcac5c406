// The field program on an empty file.
#![tactic(auto)]

fn main(rt: HostRuntime) {
    // What failed is not told: a file is through where the last line is `end` or `refused`.
    let _ = console::run(&rt);
}
