// The exported calls. Part, pins, saved bits and WP# have 32 bits, so that a host's 256 is not cut to 0: it is refused, or is a high WP#.
ghost use Rattle.std.specs.Prelude.{◌≡◌, false, not, [], eqb};
ghost use Rattle.parts.specs.Numbers.{refusal_number};
ghost use Rattle.calls.specs.Calls.{make_call, event_call, run_call, select_call};
ghost use Rattle.calls.specs.Result.{event_result, select_result};

use parts::answer::Answer;
use parts::refusal::Refusal;

// Writes the image of a model without power, or refuses with 1 or 2 and leaves the buffer.
#[unsafe(no_mangle)]
pub extern "C" fn sildrokk_make(part: u32, pins: u32, bits: u32, state: &mut [u8]) -> u8
    ensures number { result ≡ (make_call part pins bits state.old).number }
    ensures state { state.new ≡ (make_call part pins bits state.old).state }
{
    let made = model::make::make(part, pins, bits);
    match made.refusal {
        Some(refusal) => refusal.number(),
        None if state.len() != 32 => Refusal::StateRange.number(),
        None => {
            image::taken::put_image(state, made.model);
            0
        }
    }
}

// A refused event drives nothing and sets no flag.
fn refuse_event(res: &mut [u8], refusal: Refusal) -> u8
    ensures number { result ≡ refusal_number refusal }
    ensures res { res.new ≡ event_result 2 false res.old }
{
    call_ends::result::write_event(res, Answer::HighZ.number(), false);
    refusal.number()
}

// The event at the front of the bytes. A result of 32 bytes gets its answer and its flag, or 2 and 0 if it is refused.
#[unsafe(no_mangle)]
pub extern "C" fn sildrokk_event(
    state: &mut [u8],
    event: &[u8],
    memory: &mut [u8],
    res: &mut [u8],
) -> u8
    ensures number { result ≡ (event_call state.old event.now memory.old res.old).number }
    ensures state { state.new ≡ (event_call state.old event.now memory.old res.old).state }
    ensures memory { memory.new ≡ (event_call state.old event.now memory.old res.old).memory }
    ensures res { res.new ≡ (event_call state.old event.now memory.old res.old).result }
{
    if let Err(refusal) = call_ends::open::check(state, res.len(), memory.len()) {
        return refuse_event(res, refusal);
    }
    match image_run::event::event_on(state, event, memory) {
        Ok(told) => {
            call_ends::result::write_event(res, told.answer.number(), told.flag);
            0
        }
        Err(refusal) => refuse_event(res, refusal),
    }
}

// At most quota events from the front of a trace; the answer of the i-th accepted event goes to answers[i], while there is room. A result
// of 32 bytes gets count, offset and flag offset.
#[unsafe(no_mangle)]
pub extern "C" fn sildrokk_replay(
    state: &mut [u8],
    trace: &[u8],
    quota: u64,
    memory: &mut [u8],
    answers: &mut [u8],
    res: &mut [u8],
) -> u8
    ensures number { result ≡ (run_call state.old trace.now quota memory.old answers.old res.old).number }
    ensures state { state.new ≡ (run_call state.old trace.now quota memory.old answers.old res.old).state }
    ensures memory { memory.new ≡ (run_call state.old trace.now quota memory.old answers.old res.old).memory }
    ensures answers { answers.new ≡ (run_call state.old trace.now quota memory.old answers.old res.old).answers }
    ensures res { res.new ≡ (run_call state.old trace.now quota memory.old answers.old res.old).result }
{
    if let Err(refusal) = call_ends::open::check(state, res.len(), memory.len()) {
        call_ends::result::write_run(res, 0, 0, trace.len());
        return refusal.number();
    }
    let ran = image_run::run::run_on(state, trace, quota as usize, memory, answers);
    call_ends::result::write_run(res, ran.count, ran.offset, ran.flag);
    parts::refusal::number_of(ran.refusal)
}

// The same without the answers.
#[unsafe(no_mangle)]
pub extern "C" fn sildrokk_run(
    state: &mut [u8],
    trace: &[u8],
    quota: u64,
    memory: &mut [u8],
    res: &mut [u8],
) -> u8
    ensures number { result ≡ (run_call state.old trace.now quota memory.old [] res.old).number }
    ensures state { state.new ≡ (run_call state.old trace.now quota memory.old [] res.old).state }
    ensures memory { memory.new ≡ (run_call state.old trace.now quota memory.old [] res.old).memory }
    ensures res { res.new ≡ (run_call state.old trace.now quota memory.old [] res.old).result }
{
    sildrokk_replay(state, trace, quota, memory, &mut [], res)
}

// A refused selection drives no byte.
fn refuse_select(res: &mut [u8], refusal: Refusal) -> u8
    ensures number { result ≡ refusal_number refusal }
    ensures res { res.new ≡ select_result 0 0 res.old }
{
    call_ends::result::write_select(res, 0, 0);
    refusal.number()
}

// One selection of an SPI part as bytes; WP# is low if wp is 0 and high if not. A result of 32 bytes gets the index of the first driven
// byte and how many are driven, or 0 and 0 if it is refused.
#[unsafe(no_mangle)]
pub extern "C" fn sildrokk_select(
    state: &mut [u8],
    wp: u32,
    input: &[u8],
    output: &mut [u8],
    memory: &mut [u8],
    res: &mut [u8],
) -> u8
    ensures number { result ≡ (select_call state.old (not (eqb wp 0)) input.now output.old memory.old res.old).number }
    ensures state { state.new ≡ (select_call state.old (not (eqb wp 0)) input.now output.old memory.old res.old).state }
    ensures output { output.new ≡ (select_call state.old (not (eqb wp 0)) input.now output.old memory.old res.old).output }
    ensures memory { memory.new ≡ (select_call state.old (not (eqb wp 0)) input.now output.old memory.old res.old).memory }
    ensures res { res.new ≡ (select_call state.old (not (eqb wp 0)) input.now output.old memory.old res.old).result }
{
    if let Err(refusal) = call_ends::open::check(state, res.len(), memory.len()) {
        return refuse_select(res, refusal);
    }
    let model = image::taken::state_of(state);
    match selects::select::select_on_part(model, wp != 0, input, output, memory) {
        Ok(selected) => {
            image::taken::put_image(state, selected.model);
            call_ends::result::write_select(res, selected.first, selected.count);
            0
        }
        Err(refusal) => refuse_select(res, refusal),
    }
}
