// The longest recording, 65,535 ticks: ranges over all of it end soon, and one tick more is refused. The file stdout is what
// tests/oracle/outcomes.py worked out from the papers alone.
#![tactic(auto)]

use std::io;

// A body at the first and last ticks, in the middle, and after the end.
fn at_ticks(out: &impl Print, body: &[u8], flags: &[u8]) -> io::Result<()> {
    for tick in [0, 1, 32767, 65533, 65534, 65535] {
        outcome_text::outcome(out, body, flags, tick)?;
    }
    Ok(())
}

// Y from X on, Z from Y on: two thousand million positions, were the walk not to stop.
fn nested(out: &impl Print) -> io::Result<()> {
    let body =
        b"\x05\x02\x00\x00\x00\x01\x00\x00\x00\x05\x02\x01\x00\x00\x01\x00\x00\x00\x01\x02\x00";
    let up = [1u8; 65535];
    outcome_text::outcome(out, body, &up, 65000)?;
    let down = [0u8; 65535];
    outcome_text::outcome(out, body, &down, 0)?;
    outcome_text::outcome(out, body, &down, 32767)
}

// Y from X to X+3, Z from 0 to 2, W from 0 on, of which only W is named: the last tick alone is down.
fn short_unnamed_ranges(out: &impl Print, flags: &[u8]) -> io::Result<()> {
    let body =
        b"\x05\x02\x00\x00\x00\x02\x00\x03\x00\x05\x00\x00\x00\x00\x00\x00\x02\x00\x05\x00\x00\x00\x00\x01\x00\x00\x00\x01\x03\x00";
    outcome_text::outcome(out, body, flags, 0)?;
    outcome_text::outcome(out, body, flags, 65532)?;
    outcome_text::outcome(out, body, flags, 65534)
}

// Three from 0 on, of which only the innermost is named, over 80 ticks that are all up, and with the last one down.
fn deep(out: &impl Print) -> io::Result<()> {
    let body =
        b"\x05\x00\x00\x00\x00\x01\x00\x00\x00\x05\x00\x00\x00\x00\x01\x00\x00\x00\x05\x00\x00\x00\x00\x01\x00\x00\x00\x01\x03\x00";
    let up = [1u8; 80];
    let mut down = [1u8; 80];
    down[79] = 0;
    outcome_text::outcome(out, body, &up, 0)?;
    outcome_text::outcome(out, body, &down, 0)?;
    outcome_text::outcome(out, body, &up, 79)?;
    outcome_text::outcome(out, body, &down, 79)
}

fn main(rt: HostRuntime) -> io::Result<()> {
    let onward = b"\x05\x02\x00\x00\x00\x01\x00\x00\x00\x01\x01\x00";
    let past = b"\x05\x00\x00\x00\x00\x02\x00\x00\x00\x01\x01\x00";
    let mut flags = [1u8; 65535];
    at_ticks(&rt, onward, &flags)?;
    at_ticks(&rt, past, &flags)?;
    flags[65534] = 0;
    at_ticks(&rt, onward, &flags)?;
    at_ticks(&rt, past, &flags)?;
    let longer = [0u8; 65536];
    outcome_text::outcome(&rt, onward, &longer, 0)?;
    nested(&rt)?;
    short_unnamed_ranges(&rt, &flags)?;
    deep(&rt)
}
