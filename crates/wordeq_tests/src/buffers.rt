// Buffers of all sizes, and what stands in them behind the text.
use crate::tools::{FILLING, LEAST_ROOM, WORKED, WORKED_LISTING, times};
use runner::Runner;
use std::alloc::Global;
use std::test::Fail;

// A buffer of this size is refused, and nothing is written.
fn refused(heap: Global, runner: &mut Runner, input: &[u8], room: usize) -> Result<(), Fail> {
    let mut out = vec![in heap; FILLING; room]?;
    match runner.run(input, out.as_mut_slice()) {
        Err(refused) if refused.why.number() == 71 && refused.length == 0 => {}
        _ => return Err(Fail::new("a short buffer is taken")),
    }
    if out.iter().any(|byte| *byte != FILLING) {
        return Err(Fail::new("a short buffer is written"));
    }
    Ok(())
}

// A buffer of this size has the worked listing at its front, and the rest is as it was.
fn written(heap: Global, runner: &mut Runner, room: usize) -> Result<(), Fail> {
    let mut out = vec![in heap; FILLING; room]?;
    let length = runner
        .run(WORKED, out.as_mut_slice())
        .map_err(|_| "a listing is refused")?;
    match out.as_slice().split_at_checked(length) {
        Some((text, rest)) if text == WORKED_LISTING && rest.iter().all(|byte| *byte == FILLING) =>
            { Ok(()) }
        _ => Err(Fail::new("another text is written")),
    }
}

#[test]
fn short_buffers(rt: HostRuntime) -> Result<(), Fail> {
    let heap = rt.alloc();
    let mut runner = Runner::new(heap)?;
    refused(heap, &mut runner, WORKED, LEAST_ROOM - 1)?;
    refused(heap, &mut runner, WORKED, 0)?;
    // also before all else
    refused(heap, &mut runner, b"", LEAST_ROOM - 1)?;
    let long = times(heap, b"a", 32_769)?;
    refused(heap, &mut runner, long.as_slice(), LEAST_ROOM - 1)?;
    // it can still run
    written(heap, &mut runner, LEAST_ROOM)
}

#[test]
fn longer_buffers(rt: HostRuntime) -> Result<(), Fail> {
    let heap = rt.alloc();
    let mut runner = Runner::new(heap)?;
    written(heap, &mut runner, LEAST_ROOM)?;
    written(heap, &mut runner, LEAST_ROOM + 1)?;
    written(heap, &mut runner, 3 * LEAST_ROOM)
}
