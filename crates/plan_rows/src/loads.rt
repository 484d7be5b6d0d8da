use generated_load::{first_line, move_line, next, upper};

/// Whether a load of one move from a seed has these lines.
fn has_lines(seed: u64, first: &str, second: &str) -> bool {
    let line = move_line(upper(next(seed)));
    first_line().as_slice() == first.as_bytes() && line.as_slice() == second.as_bytes()
}

#[test]
fn one_move_is_made(rt: HostRuntime) {
    assert!(rt; has_lines(1, "G1 F6000\n", "G1 X30.230 Y4.544\n"));
}
